// Replies to calls.
ghost use Rattle.std.specs.Prelude.{◌≡◌, ◌∷◌, ◌++◌, ◌*◌, [], IfOk, codes, decimal};
ghost use Rattle.generator.specs.Inputs.{end_reply, reply, reply_input, step, step_reply};

use kinds::{Input, ReplyIn};
use lists::{Bytes, Memory};
use std::alloc::Global;

/// The reply to a call, by whether steps of its run are recorded, where the last event was this many in the order
/// of events.
pub fn reply_input(alloc: Global, index: u32, call: u64, has_results: bool) -> Result<Input, Memory>
    ensures { IfOk result (λ input. input ≡ reply_input (10 * index) call has_results index) }
{
    Ok(Input::Reply {
        at: 10 * u64::from(index),
        call,
        reply: reply(alloc, has_results, index)?,
    })
}

fn reply(alloc: Global, has_results: bool, index: u32) -> Result<ReplyIn, Memory>
    ensures { IfOk result (λ r. r ≡ reply has_results index) }
{
    if has_results {
        end_reply(alloc)
    } else {
        step_reply(alloc, index)
    }
}

fn end_reply(alloc: Global) -> Result<ReplyIn, Memory>
    ensures { IfOk result (λ r. r ≡ end_reply) }
{
    Ok(ReplyIn {
        status: 200,
        no_retry: None,
        retry: None,
        body: Bytes::from_slice(alloc, b"null")?,
    })
}

fn step_reply(alloc: Global, index: u32) -> Result<ReplyIn, Memory>
    ensures { IfOk result (λ r. r ≡ step_reply index) }
{
    Ok(ReplyIn {
        status: 206,
        no_retry: None,
        retry: None,
        body: step_body(alloc, index)?,
    })
}

// One step that ran, with a number as its result.
fn step_body(alloc: Global, index: u32) -> Result<Bytes, Memory>
    ensures { IfOk result (λ body. body ≡ (step_reply index).body) }
{
    let mut body = Bytes::from_slice(alloc, b"[{\"id\":\"")?;
    body.extend_from_slice(b"a9993e364706816aba3e25717850c26c9cd0d89d")?;
    body.extend_from_slice(b"\",\"op\":\"StepRun\",\"data\":")?;
    body.push_decimal(u64::from(index))?;
    body.extend_from_slice(b"}]")?;
    Ok(body)
}
