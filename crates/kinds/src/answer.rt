// The bodies of answers.
ghost use Rattle.std.specs.Prelude.{◌≡◌, ◌++◌, ◌∷◌, [], codes, IfOk, OnOk, if◌then◌else◌, ◌==◌, length};
ghost use Rattle.kinds.specs.Answer.{ids_answer, error_answer, error_begun, error_ended, function_error_answer, function_member, quoted_id};

use crate::Out;
use lists::{Bytes, Memory};
use std::alloc::Global;

/// Adds one more id to a list of ids, with a comma before it where it isn't the first.
fn push_id(body: &mut Bytes, is_first: bool, number: u64) -> Result<(), Memory>
    ensures { OnOk result
        (body.new ≡ body.old ++ (if is_first then [] else 44 ∷ []) ++ quoted_id number) }
{
    if !is_first {
        body.push(b',')?;
    }
    body.extend_from_slice(b"\"evt-")?;
    body.push_decimal(number)?;
    body.extend_from_slice(b"\"")
}

/// The answer to the events of a request: `{"ids":["evt-1","evt-2"],"status":200}`, in their order.
pub fn ids_answer(alloc: Global, numbers: &[u64]) -> Result<Out, Memory>
    ensures { IfOk result (λ out. out ≡ ids_answer numbers.now) }
{
    let mut body = Bytes::from_slice(alloc, b"{\"ids\":[")?;
    for (index, number) in numbers.iter().enumerate() {
        push_id(&mut body, index == 0, *number)?;
    }
    body.extend_from_slice(b"],\"status\":200}")?;
    Ok(Out::Answer { status: 200, body })
}

/// Begins the body of a refusal with its word, which has no `"`, `\` or control byte.
fn error_begun(alloc: Global, word: &[u8]) -> Result<Bytes, Memory>
    ensures { IfOk result (λ body. body ≡ error_begun word.now) }
{
    let mut body = Bytes::from_slice(alloc, b"{\"error\":\"")?;
    body.extend_from_slice(word)?;
    body.extend_from_slice(b"\"")?;
    Ok(body)
}

/// Ends the body of a refusal with its number, where it has one, and its status.
fn error_ended(body: &mut Bytes, at: Option<u64>, status: u16) -> Result<(), Memory>
    ensures { OnOk result (body.new ≡ body.old ++ error_ended at status) }
{
    if let Some(number) = at {
        body.extend_from_slice(b",\"at\":")?;
        body.push_decimal(number)?;
    }
    body.extend_from_slice(b",\"status\":")?;
    body.push_decimal(u64::from(status))?;
    body.extend_from_slice(b"}")
}

/// Adds the index of the function that is at fault, and the name of its member.
fn push_member(body: &mut Bytes, function: u64, member: &[u8]) -> Result<(), Memory>
    ensures { OnOk result (body.new ≡ body.old ++ function_member function member.now) }
{
    body.extend_from_slice(b",\"function\":")?;
    body.push_decimal(function)?;
    body.extend_from_slice(b",\"member\":\"")?;
    body.extend_from_slice(member)?;
    body.extend_from_slice(b"\"")
}

/// The answer to a request that is turned away: `{"error":"WORD","at":NUMBER,"status":STATUS}`, without
/// the member `at` where there is no number. The word has no `"`, `\` or control byte.
pub fn error_answer(alloc: Global, status: u16, word: &[u8], at: Option<u64>) -> Result<Out, Memory>
    ensures { IfOk result (λ out. out ≡ error_answer status word.now at) }
{
    let mut body = error_begun(alloc, word)?;
    error_ended(&mut body, at, status)?;
    Ok(Out::Answer { status, body })
}

/// The same of a registration, with the index of the function that is at fault, from 0, and the name of
/// its member: `{"error":"WORD","function":INDEX,"member":"NAME","at":NUMBER,"status":STATUS}`.
pub fn function_error_answer(
    alloc: Global,
    status: u16,
    word: &[u8],
    function: u64,
    member: &[u8],
    at: Option<u64>,
) -> Result<Out, Memory>
    ensures { IfOk result (λ out. out ≡ function_error_answer status word.now function member.now at) }
{
    let mut body = error_begun(alloc, word)?;
    push_member(&mut body, function, member)?;
    error_ended(&mut body, at, status)?;
    Ok(Out::Answer { status, body })
}
