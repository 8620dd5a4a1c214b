// The public call: what a reply means.
ghost use Rattle.std.specs.Prelude.{◌≡◌, IfOk};
ghost use Rattle.sdk_reply.specs.After.{after_field};
ghost use Rattle.json_text.specs.Nodes.{IsNodeOf};
ghost use Rattle.sdk_reply.specs.Outcome.{outcome_of, ended, goes_on, failed, ops_in, unreadable};
ghost use Rattle.sdk_reply.specs.Outcome.{error_of, json_error, object_error, status_error};
ghost use Rattle.sdk_reply.specs.Outcome.{fails_for_good, says_no_retry};

use crate::after::read_after;
use crate::ops::{OpsFault, read_ops};
use json_text::{JsonFault, Kind, Tree};
use kinds::{After, Outcome, ReplyIn, error_object};
use lists::{Bytes, Memory};
use std::alloc::Global;

/// The greatest length of an error that is kept as it stands, in bytes.
const MOST_ERROR: usize = 16_384;

/// What a reply means: with status 200 that the run is over, with 206 that it goes on with operations,
/// and with any other that the call failed.
#[tactic(auto, unfolding(crate::specs::Outcome::outcome_of))]
pub fn read_reply(alloc: Global, reply: &ReplyIn) -> Result<Outcome, Memory>
    ensures { IfOk result (λ outcome. outcome ≡ outcome_of reply.now) }
{
    match reply.status {
        200 => ended(alloc, reply),
        206 => goes_on(alloc, reply),
        _ => failed(alloc, reply),
    }
}

/// Whether the reply says that the call isn't to be made again.
fn says_no_retry(reply: &ReplyIn) -> bool
    ensures { result ≡ says_no_retry reply.now }
{
    reply.no_retry.unwrap_or(false)
}

/// A reply whose body can't be read, from a place on.
fn unreadable(alloc: Global, reply: &ReplyIn, at: u64) -> Result<Outcome, Memory>
    ensures { IfOk result (λ outcome. outcome ≡ unreadable reply.now at) }
{
    if says_no_retry(reply) {
        Ok(Outcome::NoRetry {
            error: error_object(alloc, b"unreadable reply")?,
        })
    } else {
        Ok(Outcome::Unreadable { at })
    }
}

/// The run is over, with its output.
fn ended(alloc: Global, reply: &ReplyIn) -> Result<Outcome, Memory>
    ensures { IfOk result (λ outcome. outcome ≡ ended reply.now) }
{
    if reply.body.is_empty() {
        return Ok(Outcome::Ended {
            output: Bytes::from_slice(alloc, b"null")?,
        });
    }
    match Tree::read(alloc, reply.body.as_slice()) {
        Ok(tree) => Ok(Outcome::Ended {
            output: Bytes::from_slice(alloc, tree.slice(tree.root()))?,
        }),
        Err(JsonFault::NotJson { at }) => unreadable(alloc, reply, at),
        Err(JsonFault::TooDeep { at }) => unreadable(alloc, reply, at),
        Err(JsonFault::Memory) => Err(Memory),
    }
}

/// The run goes on with operations.
fn goes_on(alloc: Global, reply: &ReplyIn) -> Result<Outcome, Memory>
    ensures { IfOk result (λ outcome. outcome ≡ goes_on reply.now) }
{
    match Tree::read(alloc, reply.body.as_slice()) {
        Ok(tree) => ops_in(alloc, reply, &tree),
        Err(JsonFault::NotJson { at }) => unreadable(alloc, reply, at),
        Err(JsonFault::TooDeep { at }) => unreadable(alloc, reply, at),
        Err(JsonFault::Memory) => Err(Memory),
    }
}

/// The operations of a body that is JSON, or the place of the first that isn't valid.
fn ops_in(alloc: Global, reply: &ReplyIn, tree: &Tree<'_>) -> Result<Outcome, Memory>
    ensures { IfOk result (λ outcome. outcome ≡ ops_in reply.now tree.now tree.now.value) }
{
    let root = tree.root();
    if tree.kind(root) != Kind::List {
        return unreadable(alloc, reply, 0);
    }
    match read_ops(alloc, tree, root) {
        Ok(ops) => Ok(Outcome::Ops {
            ops,
            no_retry: says_no_retry(reply),
            after: after_of(reply),
        }),
        Err(OpsFault::NotValid { at }) => unreadable(alloc, reply, at),
        Err(OpsFault::Memory) => Err(Memory),
    }
}

/// The error of a reply without one of its own.
fn status_error(alloc: Global, status: u16) -> Result<Bytes, Memory>
    ensures { IfOk result (λ error. error ≡ status_error status) }
{
    let mut message = Bytes::from_slice(alloc, b"status ")?;
    message.push_decimal(u64::from(status))?;
    error_object(alloc, message.as_slice())
}

/// The error of a reply whose body is this object.
fn object_error(alloc: Global, text: &[u8]) -> Result<Bytes, Memory>
    ensures { IfOk result (λ error. error ≡ object_error text.now) }
{
    if text.len() > MOST_ERROR {
        error_object(alloc, b"error too large")
    } else {
        Bytes::from_slice(alloc, text)
    }
}

/// The error of a reply whose body is JSON.
fn tree_error(alloc: Global, tree: &Tree<'_>, status: u16) -> Result<Bytes, Memory>
    ensures { IfOk result (λ error. error ≡ json_error status tree.now.value) }
{
    let root = tree.root();
    if tree.kind(root) == Kind::Object {
        object_error(alloc, tree.slice(root))
    } else {
        status_error(alloc, status)
    }
}

/// The error of a reply: its body where that is an object.
fn error_of(alloc: Global, reply: &ReplyIn) -> Result<Bytes, Memory>
    ensures { IfOk result (λ error. error ≡ error_of reply.now) }
{
    match Tree::read(alloc, reply.body.as_slice()) {
        Ok(tree) => tree_error(alloc, &tree, reply.status),
        Err(JsonFault::Memory) => Err(Memory),
        Err(_) => status_error(alloc, reply.status),
    }
}

/// Whether a failed call isn't to be made again: said so, or not said and the request was bad.
fn fails_for_good(reply: &ReplyIn) -> bool
    ensures { result ≡ fails_for_good reply.now.no_retry reply.now.status }
{
    reply.no_retry.unwrap_or(reply.status == 400)
}

/// When the reply says that the call is to be made again.
fn after_of(reply: &ReplyIn) -> After
    ensures { result ≡ after_field reply.now.retry }
{
    match &reply.retry {
        Some(text) => read_after(text.as_slice()),
        None => After::None,
    }
}

/// The call failed.
fn failed(alloc: Global, reply: &ReplyIn) -> Result<Outcome, Memory>
    ensures { IfOk result (λ outcome. outcome ≡ failed reply.now) }
{
    let error = error_of(alloc, reply)?;
    if fails_for_good(reply) {
        Ok(Outcome::NoRetry { error })
    } else {
        Ok(Outcome::Retry {
            after: after_of(reply),
            error,
        })
    }
}
