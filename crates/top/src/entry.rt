// The top call: the words, the run, and the last line.
ghost use Rattle.std.specs.Prelude.{◌≡◌, ◌≢◌, ℕ, None, Some};
ghost use Rattle.replay_core.specs.declared.form.Form.{Form};
ghost use Rattle.rig.specs.Flow.{Flow};
ghost use Rattle.rig.specs.Written.{PutsOut};
ghost use Rattle.top.specs.LastLine.{last_line, script_fault, usage_line};
ghost use Rattle.replay_core.specs.Script.{CountsWrites as CountsRun};
ghost use Rattle.top.specs.Outcome.{CountsWrites, IsGenerated, IsRefused, IsReplay};
ghost use Rattle.top.specs.Outcome.{Says, read_faults, status_of};
ghost use Rattle.top.specs.Words.{count_of, form_asked, form_by, form_of};
ghost use Rattle.words.specs.Replay.{replay_words};

use crate::status::status_of;
use crate::{Program, Status};
use itoa::Buffer;
use replay_core::{Form, ReplayEnd, run_gen, run_script};
use rig::{Rig, Sink, Source, WriteFailed};
use std::alloc::Global;
use words::{ReplayWords, WordsFault, read_replay_words};

/// Runs a program with the words after its name, and says how it ended. Replay runs the script of the source, or
/// generated inputs, and leaves the rig as it is.
pub fn run<R: Rig, I: Source, O: Sink>(
    alloc: Global,
    program: Program,
    words: &[String],
    rig: &mut R,
    input: &mut I,
    out: &mut O,
) -> Status
    // The words decide whether anything is run.
    ensures usage { result ≡ Status.Usage → replay_words words.now ≡ None }
    ensures refused { replay_words words.now ≡ None
        → IsRefused result (O.outgoing out.old) (O.outgoing out.new) }
    ensures unread { form_of words.now ≡ None → I.incoming input.new ≡ I.incoming input.old }

    // What is written of a script, and what of it was read.
    ensures replay { (form : Form) → form_of words.now ≡ Some form →
        (flow : Flow) → (I.incoming input.old).flow ≡ Some flow →
        IsReplay form flow (I.incoming input.new).flow (O.outgoing out.old) (O.outgoing out.new) result }

    // What is written of generated inputs.
    ensures generated { (count : ℕ) → count_of words.now ≡ Some count →
        IsGenerated count (O.outgoing out.old) (O.outgoing out.new) result }

    // A call of the source or the sink that fails ends the run, and it ends so only where one failed.
    ensures reads { (I.incoming input.new).faults ≡ read_faults result (I.incoming input.old).faults }
    ensures writes { CountsWrites result (O.outgoing out.old).faults (O.outgoing out.new).faults }

    ensures rig { rig.new ≡ rig.old }
{
    match program {
        Program::Replay => run_replay(alloc, words, input, out),
    }
}

fn run_replay<I: Source, O: Sink>(
    alloc: Global,
    words: &[String],
    input: &mut I,
    out: &mut O,
) -> Status
    ensures usage { result ≡ Status.Usage → replay_words words.now ≡ None }
    ensures refused { replay_words words.now ≡ None
        → IsRefused result (O.outgoing out.old) (O.outgoing out.new) }
    ensures unread { form_of words.now ≡ None → I.incoming input.new ≡ I.incoming input.old }
    ensures replay { (form : Form) → form_of words.now ≡ Some form →
        (flow : Flow) → (I.incoming input.old).flow ≡ Some flow →
        IsReplay form flow (I.incoming input.new).flow (O.outgoing out.old) (O.outgoing out.new) result }
    ensures generated { (count : ℕ) → count_of words.now ≡ Some count →
        IsGenerated count (O.outgoing out.old) (O.outgoing out.new) result }
    ensures reads { (I.incoming input.new).faults ≡ read_faults result (I.incoming input.old).faults }
    ensures writes { CountsWrites result (O.outgoing out.old).faults (O.outgoing out.new).faults }
{
    match read_replay_words(alloc, words) {
        Ok(asked) => run_asked(alloc, asked, input, out),
        Err(WordsFault::Usage) => refuse(out),
        Err(WordsFault::Memory) => finish(ReplayEnd::Memory, out),
    }
}

// Runs what the words ask for.
fn run_asked<I: Source, O: Sink>(
    alloc: Global,
    asked: ReplayWords,
    input: &mut I,
    out: &mut O,
) -> Status
    ensures ran { result ≢ Status.Usage }
    ensures unread { form_asked asked ≡ None → I.incoming input.new ≡ I.incoming input.old }
    ensures replay { (form : Form) → form_asked asked ≡ Some form →
        (flow : Flow) → (I.incoming input.old).flow ≡ Some flow →
        IsReplay form flow (I.incoming input.new).flow (O.outgoing out.old) (O.outgoing out.new) result }
    ensures generated { (count : ℕ) → asked.generate ≡ Some count →
        IsGenerated count (O.outgoing out.old) (O.outgoing out.new) result }
    ensures reads { (I.incoming input.new).faults ≡ read_faults result (I.incoming input.old).faults }
    ensures writes { CountsWrites result (O.outgoing out.old).faults (O.outgoing out.new).faults }
{
    match asked.generate {
        None => run_source(alloc, form_by(asked), input, out),
        Some(count) => run_generated(alloc, count, out),
    }
}

// Runs the script of the source.
fn run_source<I: Source, O: Sink>(alloc: Global, form: Form, input: &mut I, out: &mut O) -> Status
    ensures ran { result ≢ Status.Usage }
    ensures replay { (flow : Flow) → (I.incoming input.old).flow ≡ Some flow →
        IsReplay form flow (I.incoming input.new).flow (O.outgoing out.old) (O.outgoing out.new) result }
    ensures reads { (I.incoming input.new).faults ≡ read_faults result (I.incoming input.old).faults }
    ensures writes { CountsWrites result (O.outgoing out.old).faults (O.outgoing out.new).faults }
{
    let end = run_script(alloc, form, input, out);
    finish(end, out)
}

// Runs generated inputs, of which so many begin a run.
fn run_generated<O: Sink>(alloc: Global, count: u32, out: &mut O) -> Status
    ensures ran { result ≢ Status.Usage }
    ensures generated { IsGenerated count (O.outgoing out.old) (O.outgoing out.new) result }
    ensures writes { CountsWrites result (O.outgoing out.old).faults (O.outgoing out.new).faults }
    ensures read { (faults : ℕ) → read_faults result faults ≡ faults }
{
    let end = run_gen(alloc, count, out);
    finish(end, out)
}

// How calls are printed.
fn form_by(asked: ReplayWords) -> Form
    ensures { result ≡ form_by asked.brief }
{
    if asked.brief { Form::Brief } else { Form::Full }
}

// Writes the usage line.
#[tactic(auto, unfolding(crate::specs::LastLine::usage_line))]
fn refuse<O: Sink>(out: &mut O) -> Status
    ensures status { result ≡ Status.Usage }
    ensures says { Says usage_line (O.outgoing out.old) (O.outgoing out.new) }
{
    let _ = say(b"usage: replay [--brief] [--gen N]\n", out);
    Status::Usage
}

// Writes the last line of a run's end, where it has one, and gives its status, whether that fails or not.
fn finish<O: Sink>(end: ReplayEnd, out: &mut O) -> Status
    ensures status { result ≡ status_of end }
    ensures says { Says (last_line end) (O.outgoing out.old) (O.outgoing out.new) }
    ensures writes { (faults : ℕ) → CountsRun end faults (O.outgoing out.old).faults →
        CountsWrites result faults (O.outgoing out.new).faults }
{
    let _ = say_last_line(end, out);
    status_of(end)
}

// Writes a text, whole or in a part.
fn say<O: Sink>(text: &[u8], out: &mut O) -> Result<(), WriteFailed>
    ensures { PutsOut text.now result (O.outgoing out.old) (O.outgoing out.new) }
{
    out.write(text)
}

// Writes the last line of a script's end, where it has one. Whether that fails changes no status.
#[tactic(auto, unfolding(crate::specs::LastLine::last_line))]
fn say_last_line<O: Sink>(end: ReplayEnd, out: &mut O) -> Result<(), WriteFailed>
    ensures says { PutsOut (last_line end) result (O.outgoing out.old) (O.outgoing out.new) }
    ensures done { end ≡ ReplayEnd.Done → O.outgoing out.new ≡ O.outgoing out.old }
    ensures failed { end ≡ ReplayEnd.WriteFault → O.outgoing out.new ≡ O.outgoing out.old }
{
    match end {
        ReplayEnd::Done | ReplayEnd::WriteFault => Ok(()),
        ReplayEnd::Script { line } => say_script_fault(line, out),
        ReplayEnd::ReadFault => say(b"read fault\n", out),
        ReplayEnd::NumbersSpent => say(b"numbers spent\n", out),
        ReplayEnd::Memory => say(b"out of memory\n", out),
    }
}

// Writes the line in parts, so that it takes no memory.
fn say_script_fault<O: Sink>(line: u64, out: &mut O) -> Result<(), WriteFailed>
    ensures { PutsOut (script_fault line) result (O.outgoing out.old) (O.outgoing out.new) }
{
    let mut number = Buffer::new();
    say(b"script fault in line ", out)?;
    say(number.format(line).as_bytes(), out)?;
    say(b"\n", out)
}
