// The run of a script: one loop reads, runs a line at a time and writes what the lines say.
ghost use Rattle.std.specs.Prelude.{◌≡◌, ◌<◌, ◌⊎◌, [], OnErr, OnOk, Some, length};
ghost use Rattle.rig.specs.Flow.{Flow};
ghost use Rattle.rig.specs.Written.{FailsWriting, after_write};
ghost use Rattle.replay_core.specs.Ends.{end_of};
ghost use Rattle.replay_core.specs.Log.{HasLogged, HoldsOf, IsBlank, IsOnDisk};
ghost use Rattle.replay_core.specs.Replay.{passes_limits};
ghost use Rattle.replay_core.specs.Script.{HasRun, PutsPrefix, Replays, Writes, CountsWrites, read_faults};

use crate::ReplayEnd;
use crate::end::{LineFault, RunFault, end_of, unwritten};
use crate::form::Form;
use crate::line::text_of_line;
use crate::logged::Logged;
use crate::reader::LineReader;
use lists::{Bytes, Memory};
use rig::{MemRig, Sink, Source, WriteFailed};
use std::alloc::Global;

/// The bytes of a line, without the byte that ends it.
const LINE_LIMIT: usize = 5_242_880;

/// How many bytes gather before they are written.
const SAID_SIZE: usize = 65_536;

/// Runs the script that a source gives, from a blank machine, and prints what it says. The lines are the
/// same however the source cuts them. The run ends where a call of the source or the sink fails.
pub fn run_script<I: Source, O: Sink>(
    alloc: Global,
    form: Form,
    input: &mut I,
    out: &mut O,
) -> ReplayEnd
    ensures replays { (flow : Flow) → (I.incoming input.old).flow ≡ Some flow →
        Replays form (O.outgoing out.old) (O.outgoing out.new) flow (I.incoming input.new).flow result }
    ensures reads { (I.incoming input.new).faults ≡ read_faults result (I.incoming input.old).faults }
    ensures writes { CountsWrites result (O.outgoing out.old).faults (O.outgoing out.new).faults }
{
    match MemRig::new(alloc, 0) {
        Ok(mut rig) => run_lines(alloc, form, &mut rig, input, out),
        Err(Memory) => ReplayEnd::Memory,
    }
}

/// The same over a blank rig, in whose file A the journal keeps the accepted lines, each without the byte
/// that ends it. Nothing is printed of a line that file A doesn't have, and at the end all that it has is
/// on the disk, but where memory ran out. Want of memory of the rig's own is answered as such.
pub fn run_lines<I: Source, O: Sink>(
    alloc: Global,
    form: Form,
    rig: &mut MemRig,
    input: &mut I,
    out: &mut O,
) -> ReplayEnd
    requires blank { IsBlank rig.old }
    ensures replays { (flow : Flow) → (I.incoming input.old).flow ≡ Some flow →
        Replays form (O.outgoing out.old) (O.outgoing out.new) flow (I.incoming input.new).flow result }
    ensures reads { (I.incoming input.new).faults ≡ read_faults result (I.incoming input.old).faults }
    ensures writes { CountsWrites result (O.outgoing out.old).faults (O.outgoing out.new).faults }
    ensures holds { (flow : Flow) → (I.incoming input.old).flow ≡ Some flow →
        HoldsOf form
        (PutsPrefix (O.outgoing out.old) (O.outgoing out.new)) flow.left rig.new.a.bytes result }
    ensures synced { IsOnDisk rig.new ⊎ (result ≡ ReplayEnd.Memory) }
    ensures starved { (rig.new.counts.starved ≡ rig.old.counts.starved) ⊎ (result ≡ ReplayEnd.Memory) }
{
    let mut said = Bytes::new(alloc);
    let end = end_of(run_all(alloc, form, rig, input, out, &mut said));
    match write_said(&mut said, out) {
        Ok(()) => end,
        Err(_) => unwritten(end),
    }
}

// Writes all that has gathered, where there is any; in both cases nothing of it is left.
fn write_said<O: Sink>(said: &mut Bytes, out: &mut O) -> Result<(), WriteFailed>
    ensures left { said.new ≡ [] }
    ensures all { OnOk result (O.outgoing out.new ≡ after_write said.old (O.outgoing out.old)) }
    ensures failed { OnErr result (FailsWriting said.old (O.outgoing out.old) (O.outgoing out.new)) }
    ensures some { OnErr result (0 < length said.old) }
{
    if said.is_empty() {
        return Ok(());
    }
    let written = out.write(said.as_slice());
    said.clear();
    written
}

// The same once enough has gathered.
fn write_full<O: Sink>(said: &mut Bytes, out: &mut O) -> Result<(), WriteFailed>
    ensures some { OnOk result (Writes (O.outgoing out.old) (O.outgoing out.new) said.old said.new) }
    ensures failed { OnErr result
        ((said.new ≡ []) × FailsWriting said.old (O.outgoing out.old) (O.outgoing out.new)) }
{
    if said.len() < SAID_SIZE {
        return Ok(());
    }
    write_said(said, out)
}

// Whether a line, as far as it has come, passes what is left of a script, or the limit of a line. A text is no
// longer than its line, so a line within the limit isn't looked through again whenever more of it has come.
#[tactic(auto, using(crate::proofs::LineLemmas::text_within))]
fn passes_limits(room: usize, line: &[u8]) -> bool
    ensures { result ≡ passes_limits room line.now }
{
    line.len() > room || (line.len() > LINE_LIMIT && text_of_line(line).len() > LINE_LIMIT)
}

// Reads and runs lines until the source ends, and writes what they say, but for what has gathered.
fn run_all<I: Source, O: Sink>(
    alloc: Global,
    form: Form,
    rig: &mut MemRig,
    input: &mut I,
    out: &mut O,
    said: &mut Bytes,
) -> Result<(), RunFault>
    requires blank { IsBlank rig.old }
    requires silent { said.old ≡ [] }
    ensures run { HasRun form (I.incoming input.old) (I.incoming input.new) (O.outgoing out.old)
        (O.outgoing out.new) said.new (end_of result) }
    ensures log { HasLogged form (I.incoming input.old) (O.outgoing out.old) (O.outgoing out.new)
        said.new rig.old rig.new (end_of result) }
{
    let mut logged = Logged::start(alloc, form, rig)?;
    let mut lines = LineReader::new(alloc)?;
    'reading: loop {
        let ended = lines.end_line()?;
        if passes_limits(logged.progress.room(), lines.line()) {
            return Err(RunFault::Line(LineFault::Outside {
                line: logged.progress.next_line(),
            }));
        }
        if ended {
            let line = lines.line();
            logged = logged.take_line(line, rig, said)?;
            lines.begin_line();
            write_full(said, out)?;
        } else {
            write_said(said, out)?;
            let over = lines.read(input)?;
            if over {
                let last = lines.line();
                return Ok(logged.finish(last, rig, said)?);
            }
        }
    }
}
