// The run of generated inputs: what they print is hashed, and one line tells of it.
ghost use Rattle.std.specs.Prelude.{◌≡◌, ◌*◌, ℕ, List, [], IfOk};
ghost use Rattle.generator.specs.Inputs.{event_input};
ghost use Rattle.hex.specs.Hex.{encode_lower};
ghost use Rattle.run_model.specs.Fit.{IsInRange};
ghost use Rattle.run_model.specs.Machine.{refusal};
ghost use Rattle.sha1.specs.Sha1.{Holds};
ghost use Rattle.replay_core.specs.Generator.{Generates, counts_text, generator_line, on_all, on_events, on_replies, on_reply, on_rest, summary};
ghost use Rattle.replay_core.specs.Hashing.{Hashes, IsOfKnown, SumsUp};
ghost use Rattle.replay_core.specs.Replay.{and_then, on_input, start};
ghost use Rattle.replay_core.specs.declared.form.Form.TheVariants.{Full};

use crate::ReplayEnd;
use crate::end::LineFault;
use crate::form::Form;
use crate::progress::Progress;
use generator::{Drawn, event_input, registration, reply_input};
use kinds::Input;
use lists::{Bytes, Memory};
use machine::Machine;
use rig::Sink;
use sha1::Sha1;
use std::alloc::Global;

/// Why a generated input isn't taken.
#[derive(Clone, Copy, Debug, PartialEq, Eq)]
pub enum InputFault {
    /// The machine takes no further input.
    Spent,
    /// No memory was to be had.
    Memory,
}

impl From<Memory> for InputFault {
    ghost use Rattle.std.specs.Prelude.{◌≡◌};
    ghost use Rattle.replay_core.specs.declared.generated.InputFault.TheVariants as fault;

    ghost from_gives = { λ _ e. e ≡ fault.Memory };

    fn from(_error: Memory) -> Self {
        InputFault::Memory
    }
}

/// Runs the generator's inputs for `n` events, from a blank machine, and writes one line: how much there then is, and
/// the SHA-1 of all that the inputs print in full. Keeps nothing of what they print.
pub fn run_gen<O: Sink>(alloc: Global, n: u32, out: &mut O) -> ReplayEnd
    ensures { Generates n (O.outgoing out.old) (O.outgoing out.new) result }
{
    let line = match line_of(alloc, n) {
        Ok(line) => line,
        Err(InputFault::Spent) => return ReplayEnd::NumbersSpent,
        Err(InputFault::Memory) => return ReplayEnd::Memory,
    };
    match out.write(line.as_slice()) {
        Ok(()) => ReplayEnd::Done,
        Err(_) => ReplayEnd::WriteFault,
    }
}

// The line that tells of all inputs.
fn line_of(alloc: Global, n: u32) -> Result<Bytes, InputFault>
    ensures { SumsUp (summary n) result }
{
    let start = Hashing::start(alloc)?;
    let ended = start.take_all(n)?;
    Ok(ended.finish(n)?)
}

/// Where a run of generated inputs stands, and the hash of what they printed.
#[derive(Drop)]
pub struct Hashing {
    pub alloc: Global,
    pub progress: Progress,
    pub hasher: Sha1,
}

impl Hashing {
    fn start(alloc: Global) -> Result<Self, Memory>
        ensures progress { IfOk result (λ hashing. hashing.progress ≡ start Full) }
        ensures hasher { IfOk result (λ hashing. Holds hashing.hasher []) }
    {
        Ok(Hashing {
            alloc,
            progress: Progress::start(alloc, Form::Full)?,
            hasher: Sha1::new(),
        })
    }

    // Takes one input.
    fn take(self, input: Input) -> Result<Self, InputFault>
        requires ranges { IsInRange input }
        requires known { IsOfKnown (refusal self.progress.state input) }
        ensures { Hashes (on_input self.progress input) self result }
    {
        let Hashing {
            alloc,
            progress,
            mut hasher,
        } = self;
        match progress.take_input(input) {
            Ok(ran) => {
                hasher.update(ran.text.as_slice());
                Ok(Hashing {
                    alloc,
                    progress: ran.progress,
                    hasher,
                })
            }
            Err(LineFault::Spent) => Err(InputFault::Spent),
            Err(LineFault::Memory) => Err(InputFault::Memory),
            Err(LineFault::Outside { .. }) => unreachable!(),
        }
    }

    // All inputs.
    fn take_all(self, n: u32) -> Result<Self, InputFault>
        ensures { Hashes (on_all n self.progress) self result }
    {
        let first = registration(self.alloc)?;
        self.take(first)?.take_rest(n)
    }

    // The events, and the replies that are then left.
    fn take_rest(self, n: u32) -> Result<Self, InputFault>
        ensures { Hashes (on_rest n self.progress) self result }
    {
        self.take_events(n)?.take_replies(n)
    }

    // So many events, each with a reply behind it.
    fn take_events(self, n: u32) -> Result<Self, InputFault>
        ensures { Hashes (on_events n n self.progress) self result }
    {
        let mut hashing = self;
        let mut drawn = Drawn::from_seed(n);
        for before in 0..n {
            drawn.draw();
            hashing = hashing.take_event(drawn.user(), before + 1)?;
        }
        Ok(hashing)
    }

    // One event of a user, and a reply.
    fn take_event(self, user: u64, index: u32) -> Result<Self, InputFault>
        ensures { Hashes (and_then (on_input self.progress (event_input user index)) (on_reply index))
            self result }
    {
        let event = event_input(self.alloc, user, index)?;
        self.take(event)?.take_reply(index)
    }

    // The replies that are left: two a run.
    fn take_replies(self, n: u32) -> Result<Self, InputFault>
        ensures { Hashes (on_replies n (2 * n) self.progress) self result }
    {
        let mut hashing = self;
        for _reply in 0..2 * u64::from(n) {
            hashing = hashing.take_reply(n)?;
        }
        Ok(hashing)
    }

    // A reply to the first open call, where one is open.
    fn take_reply(self, index: u32) -> Result<Self, InputFault>
        ensures { Hashes (on_reply index self.progress) self result }
    {
        let Some(open) = self.progress.machine().first_call() else {
            return Ok(self);
        };
        let reply = reply_input(self.alloc, index, open.call, open.has_results)?;
        self.take(reply)
    }

    // The line that tells of `n` events.
    fn finish(self, n: u32) -> Result<Bytes, Memory>
        ensures { (text : List ℕ) → Holds self.hasher text →
            IfOk result (λ line. line ≡ generator_line n self.progress.state text) }
    {
        let mut line = counts_text(self.alloc, n, self.progress.machine())?;
        line.extend_from_slice(b" sha1=")?;
        line.extend_from_slice(&hex_of(&self.hasher.finalize()))?;
        line.push(b'\n')?;
        Ok(line)
    }
}

// `gen N inputs=I calls=C runs=R live=L`.
fn counts_text(alloc: Global, n: u32, machine: &Machine) -> Result<Bytes, Memory>
    ensures { IfOk result (λ text. text ≡ counts_text n machine.now) }
{
    let mut text = Bytes::from_slice(alloc, b"gen ")?;
    text.push_decimal(u64::from(n))?;
    text.extend_from_slice(b" inputs=")?;
    text.push_decimal(machine.inputs())?;
    text.extend_from_slice(b" calls=")?;
    text.push_decimal(machine.calls())?;
    text.extend_from_slice(b" runs=")?;
    text.push_decimal(machine.runs())?;
    text.extend_from_slice(b" live=")?;
    text.push_decimal(machine.live())?;
    Ok(text)
}

// In lower case.
fn hex_of(digest: &[u8; 20]) -> [u8; 40]
    ensures { result ≡ encode_lower digest.now }
{
    let mut text = [0; 40];
    let _ = hex::encode_to_slice(digest, &mut text);
    text
}
