// The lines that a script's run prints, as texts.
ghost use Rattle.std.specs.Prelude.{◌≡◌, ◌∷◌, ◌++◌, [], IfOk, OnOk, codes, decimal, flat_map, if◌then◌else◌};
ghost use Rattle.replay_core.specs.Replay.{body_text, brief_call, brief_run, end_line, event_id, full_call, ids_text, port_text, printed};

use crate::form::Form;
use kinds::Out;
use lists::{Bytes, Memory};
use machine::Machine;
use std::alloc::Global;

/// What a step says, a line for each, in order.
pub fn outs_text(alloc: Global, form: Form, outs: &[Out]) -> Result<Bytes, Memory>
    ensures { IfOk result (λ text. text ≡ flat_map (printed form) outs.now) }
{
    let mut text = Bytes::new(alloc);
    for out in outs {
        push_out(form, out, &mut text)?;
    }
    Ok(text)
}

/// One line.
pub fn out_text(alloc: Global, form: Form, out: &Out) -> Result<Bytes, Memory>
    ensures { IfOk result (λ text. text ≡ printed form out.now) }
{
    let mut text = Bytes::new(alloc);
    push_out(form, out, &mut text)?;
    Ok(text)
}

fn push_out(form: Form, out: &Out, text: &mut Bytes) -> Result<(), Memory>
    ensures { OnOk result (text.new ≡ text.old ++ printed form out.now) }
{
    match out {
        Out::Hang { call } => push_hang(*call, text),
        Out::Answer { status, body } => push_answer(*status, body.as_slice(), text),
        Out::Call {
            call,
            function,
            target,
            run,
            attempt,
            steps,
            events,
            host,
            port,
            path,
            body,
        } => match form {
            Form::Full => {
                push_address(*call, host.as_slice(), *port, text)?;
                push_request(path.as_slice(), body.as_slice(), text)
            }
            Form::Brief => {
                push_target(*call, function.as_slice(), target.as_slice(), text)?;
                push_run(*run, *attempt, *steps, events.as_slice(), text)
            }
        },
    }
}

// `call N FUNCTION TARGET`.
fn push_target(call: u64, function: &[u8], target: &[u8], text: &mut Bytes) -> Result<(), Memory>
    ensures { OnOk result (text.new ≡ text.old ++
        codes "call " ++ decimal call ++ codes " " ++ function.now ++ codes " " ++ target.now) }
{
    text.extend_from_slice(b"call ")?;
    text.push_decimal(call)?;
    text.push(b' ')?;
    text.extend_from_slice(function)?;
    text.push(b' ')?;
    text.extend_from_slice(target)
}

// What stands behind the target, and the end of the line.
fn push_run(
    run: u64,
    attempt: u8,
    steps: u64,
    events: &[u64],
    text: &mut Bytes,
) -> Result<(), Memory>
    ensures { OnOk result (text.new ≡ text.old ++ brief_run run attempt steps events.now) }
{
    push_counts(run, attempt, steps, text)?;
    push_events(events, text)
}

// ` run R attempt A steps S`.
fn push_counts(run: u64, attempt: u8, steps: u64, text: &mut Bytes) -> Result<(), Memory>
    ensures { OnOk result (text.new ≡ text.old ++ codes " run " ++ decimal run
        ++ codes " attempt " ++ decimal attempt ++ codes " steps " ++ decimal steps) }
{
    text.extend_from_slice(b" run ")?;
    text.push_decimal(run)?;
    text.extend_from_slice(b" attempt ")?;
    text.push_decimal(u64::from(attempt))?;
    text.extend_from_slice(b" steps ")?;
    text.push_decimal(steps)
}

// ` events evt-1,evt-2` and the end of the line.
fn push_events(events: &[u64], text: &mut Bytes) -> Result<(), Memory>
    ensures { OnOk result
        (text.new ≡ text.old ++ codes " events " ++ ids_text events.now ++ codes "\n") }
{
    text.extend_from_slice(b" events ")?;
    push_ids(events, text)?;
    text.push(b'\n')
}

fn push_ids(events: &[u64], text: &mut Bytes) -> Result<(), Memory>
    ensures { OnOk result (text.new ≡ text.old ++ ids_text events.now) }
{
    for (index, event) in events.iter().enumerate() {
        push_id(index == 0, *event, text)?;
    }
    Ok(())
}

// One more id, with a comma before it where it isn't the first.
fn push_id(is_first: bool, event: u64, text: &mut Bytes) -> Result<(), Memory>
    ensures { OnOk result (text.new ≡ text.old ++ (if is_first then [] else 44 ∷ []) ++ event_id event) }
{
    if !is_first {
        text.push(b',')?;
    }
    text.extend_from_slice(b"evt-")?;
    text.push_decimal(event)
}

// `hang N`.
fn push_hang(call: u64, text: &mut Bytes) -> Result<(), Memory>
    ensures { OnOk result (text.new ≡ text.old ++ codes "hang " ++ decimal call ++ codes "\n") }
{
    text.extend_from_slice(b"hang ")?;
    text.push_decimal(call)?;
    text.push(b'\n')
}

// `answer STATUS BODY`, or `answer STATUS` where there is no body.
fn push_answer(status: u16, body: &[u8], text: &mut Bytes) -> Result<(), Memory>
    ensures { OnOk result
        (text.new ≡ text.old ++ codes "answer " ++ decimal status ++ body_text body.now ++ codes "\n") }
{
    text.extend_from_slice(b"answer ")?;
    text.push_decimal(u64::from(status))?;
    push_body(body, text)?;
    text.push(b'\n')
}

fn push_body(body: &[u8], text: &mut Bytes) -> Result<(), Memory>
    ensures { OnOk result (text.new ≡ text.old ++ body_text body.now) }
{
    if !body.is_empty() {
        text.push(b' ')?;
        text.extend_from_slice(body)?;
    }
    Ok(())
}

// `call N POST http://HOST`, with `:PORT` where it isn't 80.
fn push_address(call: u64, host: &[u8], port: u16, text: &mut Bytes) -> Result<(), Memory>
    ensures { OnOk result (text.new ≡ text.old ++
        codes "call " ++ decimal call ++ codes " POST http://" ++ host.now ++ port_text port) }
{
    text.extend_from_slice(b"call ")?;
    text.push_decimal(call)?;
    text.extend_from_slice(b" POST http://")?;
    text.extend_from_slice(host)?;
    push_port(port, text)
}

fn push_port(port: u16, text: &mut Bytes) -> Result<(), Memory>
    ensures { OnOk result (text.new ≡ text.old ++ port_text port) }
{
    if port != 80 {
        text.push(b':')?;
        text.push_decimal(u64::from(port))?;
    }
    Ok(())
}

// The path with the query, and the body.
fn push_request(path: &[u8], body: &[u8], text: &mut Bytes) -> Result<(), Memory>
    ensures { OnOk result (text.new ≡ text.old ++ path.now ++ codes " " ++ body.now ++ codes "\n") }
{
    text.extend_from_slice(path)?;
    text.push(b' ')?;
    text.extend_from_slice(body)?;
    text.push(b'\n')
}

/// The last line of a script's run: `end inputs=N live=L moment=M`.
pub fn end_line(alloc: Global, machine: &Machine) -> Result<Bytes, Memory>
    ensures { IfOk result (λ text. text ≡ end_line machine.now) }
{
    let mut text = Bytes::from_slice(alloc, b"end inputs=")?;
    text.push_decimal(machine.inputs())?;
    text.extend_from_slice(b" live=")?;
    text.push_decimal(machine.live())?;
    text.extend_from_slice(b" moment=")?;
    text.push_decimal(machine.moment())?;
    text.push(b'\n')?;
    Ok(text)
}
