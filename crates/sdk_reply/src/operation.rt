// One operation.
ghost use Rattle.std.specs.Prelude.{◌≡◌, IfOk, IfSome, Some, option_map};
ghost use Rattle.json_text.specs.Nodes.{IsNodeOf, value_at};
ghost use Rattle.kinds.specs.declared.reply.Op.TheVariants.{StepPlanned};
ghost use Rattle.sdk_reply.specs.Found.{AreThere, parts_at};
ghost use Rattle.sdk_reply.specs.Ops.{IsAdded};
ghost use Rattle.sdk_reply.specs.Operations.{error_of, op_by, op_from, op_of, op_with, run_of, sleep};
ghost use Rattle.sdk_reply.specs.Operations.{wait_for, wait_for_event, wait_until, wait_where};
ghost use Rattle.sdk_reply.specs.Operations.{invoke, invoke_function, invoke_within};

use crate::condition::optional_condition;
use crate::members::{
    hash_in, name_in, option_of, option_or_name, plain_name, slice_in, slice_or_null, step_hash,
    text_in,
};
use crate::op_members::OpMembers;
use crate::op_word::{OpWord, word_in};
use crate::part::Part;
use crate::times::{optional_time, time_in};
use expr::Expr;
use json_text::{Node, Tree};
use kinds::{Op, StepHash, Time};
use lists::{Bytes, Items, Memory};
use std::alloc::Global;

/// Adds the operation that a value is: an object with a step's name as `id` and the parts that its `op`
/// asks for. False where it isn't valid.
pub(crate) fn push_operation(
    ops: &mut Items<Op>,
    alloc: Global,
    tree: &Tree<'_>,
    node: Node,
) -> Result<bool, Memory>
    requires { IsNodeOf tree.now node }
    ensures { IfOk result (IsAdded ops.old (op_of (value_at tree.now node)) ops.new) }
{
    let members = OpMembers::of(tree, node);
    push_members(ops, alloc, tree, &members)
}

/// Adds the operation that has these members.
fn push_members(
    ops: &mut Items<Op>,
    alloc: Global,
    tree: &Tree<'_>,
    members: &OpMembers,
) -> Result<bool, Memory>
    requires { AreThere tree.now members.now }
    ensures { IfOk result (IsAdded ops.old (op_from (parts_at tree.now members.now)) ops.new) }
{
    match plain_name(tree, members.id) {
        Some(name) => push_named(ops, alloc, tree, members, step_hash(name)),
        None => push_escaped(ops, alloc, tree, members),
    }
}

/// The same, where the step's name may have escapes.
#[inline(never)]
fn push_escaped(
    ops: &mut Items<Op>,
    alloc: Global,
    tree: &Tree<'_>,
    members: &OpMembers,
) -> Result<bool, Memory>
    requires { AreThere tree.now members.now }
    ensures { IfOk result (IsAdded ops.old (op_from (parts_at tree.now members.now)) ops.new) }
{
    match hash_in(tree, members.id)? {
        Some(hash) => push_named(ops, alloc, tree, members, hash),
        None => Ok(false),
    }
}

fn push_named(
    ops: &mut Items<Op>,
    alloc: Global,
    tree: &Tree<'_>,
    members: &OpMembers,
    hash: StepHash,
) -> Result<bool, Memory>
    requires { AreThere tree.now members.now }
    ensures { IfOk result (IsAdded ops.old (op_with (parts_at tree.now members.now) hash) ops.new) }
{
    match members.op {
        Some(op) => push_word(ops, alloc, tree, members, hash, word_in(tree, op)?),
        None => Ok(false),
    }
}

fn push_word(
    ops: &mut Items<Op>,
    alloc: Global,
    tree: &Tree<'_>,
    members: &OpMembers,
    hash: StepHash,
    word: OpWord,
) -> Result<bool, Memory>
    requires { AreThere tree.now members.now }
    ensures { IfOk result
        (IsAdded ops.old (op_by word hash (parts_at tree.now members.now)) ops.new) }
{
    match word {
        OpWord::Ran => push_run(ops, alloc, tree, members.data, hash),
        OpWord::Failed => push_error(ops, alloc, tree, members.error, hash),
        OpWord::Planned => push_plan(ops, hash),
        OpWord::Sleeps => push_sleep(ops, tree, members, hash),
        OpWord::Waits => wait_for_event(ops, alloc, tree, members, hash),
        OpWord::Invokes => invoke_function(ops, alloc, tree, members, hash),
        OpWord::Unknown => Ok(false),
    }
}

fn push_run(
    ops: &mut Items<Op>,
    alloc: Global,
    tree: &Tree<'_>,
    output: Option<Node>,
    hash: StepHash,
) -> Result<bool, Memory>
    requires { IfSome output (IsNodeOf tree.now) }
    ensures { IfOk result
        (IsAdded ops.old (run_of hash (option_map (value_at tree.now) output)) ops.new) }
{
    let value = slice_or_null(alloc, tree, output)?;
    ops.push(Op::StepRun { hash, value })?;
    Ok(true)
}

fn push_error(
    ops: &mut Items<Op>,
    alloc: Global,
    tree: &Tree<'_>,
    given: Option<Node>,
    hash: StepHash,
) -> Result<bool, Memory>
    requires { IfSome given (IsNodeOf tree.now) }
    ensures { IfOk result
        (IsAdded ops.old (error_of hash (option_map (value_at tree.now) given)) ops.new) }
{
    let error = slice_or_null(alloc, tree, given)?;
    ops.push(Op::StepError { hash, error })?;
    Ok(true)
}

fn push_plan(ops: &mut Items<Op>, hash: StepHash) -> Result<bool, Memory>
    ensures { IfOk result (IsAdded ops.old (Some (StepPlanned hash)) ops.new) }
{
    ops.push(Op::StepPlanned { hash })?;
    Ok(true)
}

fn push_sleep(
    ops: &mut Items<Op>,
    tree: &Tree<'_>,
    members: &OpMembers,
    hash: StepHash,
) -> Result<bool, Memory>
    requires { AreThere tree.now members.now }
    ensures { IfOk result (IsAdded ops.old (sleep hash (parts_at tree.now members.now)) ops.new) }
{
    match time_in(tree, option_or_name(tree, members, b"duration"))? {
        Some(time) => {
            ops.push(Op::Sleep { hash, time })?;
            Ok(true)
        }
        None => Ok(false),
    }
}

#[inline(never)]
fn wait_for_event(
    ops: &mut Items<Op>,
    alloc: Global,
    tree: &Tree<'_>,
    members: &OpMembers,
    hash: StepHash,
) -> Result<bool, Memory>
    requires { AreThere tree.now members.now }
    ensures { IfOk result
        (IsAdded ops.old (wait_for_event hash (parts_at tree.now members.now)) ops.new) }
{
    match name_in(tree, option_or_name(tree, members, b"event"))? {
        Some(event) => wait_for(ops, alloc, tree, members, hash, event),
        None => Ok(false),
    }
}

fn wait_for(
    ops: &mut Items<Op>,
    alloc: Global,
    tree: &Tree<'_>,
    members: &OpMembers,
    hash: StepHash,
    event: Bytes,
) -> Result<bool, Memory>
    requires { AreThere tree.now members.now }
    ensures { IfOk result (IsAdded ops.old
        (wait_for hash (option_map (value_at tree.now) members.now.opts) event) ops.new) }
{
    match time_in(tree, option_of(tree, members.opts, b"timeout"))? {
        Some(timeout) => wait_until(ops, alloc, tree, members, hash, event, timeout),
        None => Ok(false),
    }
}

fn wait_until(
    ops: &mut Items<Op>,
    alloc: Global,
    tree: &Tree<'_>,
    members: &OpMembers,
    hash: StepHash,
    event: Bytes,
    timeout: Time,
) -> Result<bool, Memory>
    requires { AreThere tree.now members.now }
    ensures { IfOk result (IsAdded ops.old
        (wait_until hash (option_map (value_at tree.now) members.now.opts) event timeout) ops.new) }
{
    let condition = optional_condition(alloc, tree, option_of(tree, members.opts, b"if"))?;
    push_read(ops, wait_where(hash, event, timeout, condition))
}

fn push_read(ops: &mut Items<Op>, op: Option<Op>) -> Result<bool, Memory>
    ensures { IfOk result (IsAdded ops.old op ops.new) }
{
    match op {
        Some(op) => {
            ops.push(op)?;
            Ok(true)
        }
        None => Ok(false),
    }
}

fn wait_where(hash: StepHash, event: Bytes, timeout: Time, condition: Part<Expr>) -> Option<Op>
    ensures { result ≡ wait_where hash event timeout condition }
{
    let cond = match condition {
        Part::Absent => None,
        Part::Valid(condition) => Some(condition),
        Part::Invalid => return None,
    };
    Some(Op::WaitForEvent {
        hash,
        event,
        timeout,
        cond,
    })
}

#[inline(never)]
fn invoke_function(
    ops: &mut Items<Op>,
    alloc: Global,
    tree: &Tree<'_>,
    members: &OpMembers,
    hash: StepHash,
) -> Result<bool, Memory>
    requires { AreThere tree.now members.now }
    ensures { IfOk result (IsAdded ops.old
        (invoke_function hash (option_map (value_at tree.now) members.now.opts)) ops.new) }
{
    match text_in(tree, option_of(tree, members.opts, b"function_id"))? {
        Some(function) => invoke(ops, alloc, tree, members, hash, function),
        None => Ok(false),
    }
}

fn invoke(
    ops: &mut Items<Op>,
    alloc: Global,
    tree: &Tree<'_>,
    members: &OpMembers,
    hash: StepHash,
    function: Bytes,
) -> Result<bool, Memory>
    requires { AreThere tree.now members.now }
    ensures { IfOk result (IsAdded ops.old
        (invoke hash (option_map (value_at tree.now) members.now.opts) function) ops.new) }
{
    let payload = slice_in(alloc, tree, option_of(tree, members.opts, b"payload"))?;
    let timeout = optional_time(tree, option_of(tree, members.opts, b"timeout"))?;
    push_read(ops, invoke_within(hash, function, payload, timeout))
}

fn invoke_within(
    hash: StepHash,
    function: Bytes,
    payload: Option<Bytes>,
    timeout: Part<Time>,
) -> Option<Op>
    ensures { result ≡ invoke_within hash function payload timeout }
{
    let timeout = match timeout {
        Part::Absent => None,
        Part::Valid(time) => Some(time),
        Part::Invalid => return None,
    };
    Some(Op::InvokeFunction {
        hash,
        function,
        payload,
        timeout,
    })
}
