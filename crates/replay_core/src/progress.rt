// The run of a script between two lines. A line's run gives a text and writes nothing.
ghost use Rattle.std.specs.Prelude.{◌≡◌, ◌<◌, ◌≤◌, ◌+◌, ◌⊎◌, [], false, true, IfOk, MatchResult, length};
ghost use Rattle.std.specs.Option.{is_none};
ghost use Rattle.run_model.specs.Fit.{IsInRange};
ghost use Rattle.run_model.specs.Machine.{Accepts, refusal, step};
ghost use Rattle.replay_core.specs.Accepted.{is_accepted};
ghost use Rattle.replay_core.specs.Replay.{Goes, counted, end_line, line_limit, line_read, on_input, on_line, passes_limits, printed, refused, start, taken};
ghost use Rattle.replay_core.specs.Run.{RunsAs};
ghost use Rattle.replay_core.specs.declared.end.LineFault.TheVariants as fault;

use crate::end::LineFault;
use crate::form::Form;
use crate::line::{Line, read_line, text_of_line};
use crate::printing::{end_line, out_text, outs_text};
use kinds::{Input, Limits, Out, Refusal, Steps};
use lists::{Bytes, Items, Memory};
use machine::Machine;
use registry::read_functions_are_in_range;
use requests::Requested;
use std::alloc::Global;
use std::marker::{Brand, Model};
use std::sync::ledger::{Blank, Ledger};

/// The bytes that a whole script may have.
const SCRIPT_LIMIT: usize = 268_435_456;

/// The run of a script between two of its lines.
#[derive(Drop)]
pub struct Progress {
    alloc: Global,
    machine: Machine,
    form: Form,
    lines: u64,
    room: usize,
}

impl Model for Progress {
    ghost use Rattle.std.specs.Prelude.{◌+◌, ◌≤◌};
    ghost use Rattle.replay_core.specs.Replay.{Progress as Stand};

    ghost Value = { Stand };

    ghost view = { λ p. record { state = p.machine; form = p.form; lines = p.lines; room = p.room } };

    ghost invariant = { λ p. p.lines + p.room ≤ 268435456 };
}

/// What a line did.
#[derive(Drop)]
pub struct Ran {
    /// Where the run then stands.
    pub progress: Progress,
    /// What the line says, for the sink.
    pub text: Bytes,
    /// Whether the line is an input that the machine took.
    pub accepted: bool,
}

impl Progress {
    /// A run that has read nothing, over a blank machine with the shipped limits.
    pub fn start(alloc: Global, form: Form) -> Result<Self, Memory>
        ensures { IfOk result (λ progress. progress ≡ start form) }
    {
        Ok(Progress {
            alloc,
            machine: Machine::empty(alloc, Limits::shipped())?,
            form,
            lines: 0,
            room: SCRIPT_LIMIT,
        })
    }

    /// The bytes that the script may still have.
    pub fn room(&self) -> usize
        ensures { result ≡ self.now.room }
    {
        self.room
    }

    /// The machine as it stands.
    pub(crate) fn machine(&self) -> &Machine
        ensures { result.now ≡ self.now.state }
    {
        &self.machine
    }

    /// The number of the line that comes next, counted from 1.
    pub fn next_line(&self) -> u64
        ensures { result ≡ self.now.lines + 1 }
    {
        self.lines + 1
    }

    /// Runs the next line, given with the byte that ends it, where it has one.
    #[tactic(auto, unfolding(crate::specs::Replay::on_line))]
    pub fn take_line(self, line: &[u8]) -> Result<Ran, LineFault>
        requires some { 0 < length line.now }
        requires within { passes_limits self.room line.now ≡ false }
        ensures run { RunsAs (on_line self line.now) result }
        ensures accepted { MatchResult result
            (λ ran. ran.accepted ≡ is_accepted self.state (line_read line.now))
            (λ e. (e ≡ fault.Memory) ⊎ (is_accepted self.state (line_read line.now) ≡ false)) }
        ensures room { IfOk result (λ ran. ran.progress.room + length line.now ≡ self.room) }
    {
        // So a registration that was read meets what the machine asks of its functions.
        read_functions_are_in_range();
        let counted = self.count_line(line.len());
        match read_line(counted.alloc, text_of_line(line))? {
            None => Err(LineFault::Outside {
                line: counted.lines,
            }),
            Some(Line::Passed) => Ok(counted.pass()),
            Some(Line::Asks(Requested::Input(input))) => counted.take_input(input),
            Some(Line::Asks(Requested::Answered(answer))) => Ok(counted.say(&answer)?),
        }
    }

    // A line of so many bytes is counted before it is run.
    fn count_line(mut self, size: usize) -> Self
        requires { (0 < size) × (size ≤ self.room) }
        ensures { result ≡ counted self size }
    {
        self.lines += 1;
        self.room -= size;
        self
    }

    // A line that says nothing.
    fn pass(self) -> Ran
        ensures { (result.progress ≡ self) × (result.text ≡ []) × (result.accepted ≡ false) }
    {
        let text = Bytes::new(self.alloc);
        Ran {
            progress: self,
            text,
            accepted: false,
        }
    }

    // A line that is answered, and changes nothing.
    fn say(self, out: &Out) -> Result<Ran, Memory>
        ensures { IfOk result
            (λ ran. (ran.progress ≡ self) × (ran.text ≡ printed self.form out.now)
            × (ran.accepted ≡ false)) }
    {
        let text = out_text(self.alloc, self.form, out)?;
        Ok(Ran {
            progress: self,
            text,
            accepted: false,
        })
    }

    /// Takes an input, or says why it is refused.
    pub(crate) fn take_input(self, input: Input) -> Result<Ran, LineFault>
        requires ranges { IsInRange input }
        ensures run { RunsAs (on_input self input) result }
        ensures accepted { MatchResult result
            (λ ran. ran.accepted ≡ is_none (refusal self.state input))
            (λ e. (e ≡ fault.Memory) ⊎ (is_none (refusal self.state input) ≡ false)) }
        ensures room { IfOk result (λ ran. ran.progress.room ≡ self.room) }
    {
        match self.machine.check(&input) {
            Ok(()) => Ok(self.take_accepted(input)?),
            Err(cause) => self.refuse(cause),
        }
    }

    // A refused input changes nothing.
    fn refuse(self, cause: Refusal) -> Result<Ran, LineFault>
        ensures run { RunsAs (refused self cause) result }
        ensures accepted { IfOk result (λ ran. ran.accepted ≡ false) }
        ensures room { IfOk result (λ ran. ran.progress.room ≡ self.room) }
    {
        match cause {
            Refusal::NumbersSpent { .. } => Err(LineFault::Spent),
            Refusal::UnknownCall { .. } | Refusal::UnknownRun { .. } => {
                Err(LineFault::Outside { line: self.lines })
            }
            Refusal::KeptFull { .. }
            | Refusal::RunsFull { .. }
            | Refusal::FunctionsFull { .. }
            | Refusal::RunEnded { .. } => {
                let answer = cause.answer(self.alloc)?;
                Ok(self.say(&answer)?)
            }
        }
    }

    // Takes an accepted input.
    fn take_accepted(mut self, input: Input) -> Result<Ran, Memory>
        requires accepted { Accepts self.state input }
        requires ranges { IsInRange input }
        ensures run { IfOk result
            (λ ran. taken self (step self.state input) ≡ Goes ran.progress ran.text) }
        ensures accepted { IfOk result (λ ran. ran.accepted ≡ true) }
        ensures room { IfOk result (λ ran. ran.progress.room ≡ self.room) }
    {
        let (machine, outs) = step::<Brand>(Blank::new(1), self.machine, input)?;
        self.machine = machine;
        let text = outs_text(self.alloc, self.form, outs.as_slice())?;
        Ok(Ran {
            progress: self,
            text,
            accepted: true,
        })
    }

    /// The last line.
    pub fn end_line(&self) -> Result<Bytes, Memory>
        ensures { IfOk result (λ text. text ≡ end_line self.now.state) }
    {
        end_line(self.alloc, &self.machine)
    }
}

// One step of the machine, with a counter of its own for the conditions that it evaluates.
fn step<L: Ledger>(
    blank: Blank,
    machine: Machine,
    input: Input,
) -> Result<(Machine, Items<Out>), Memory>
    requires name { blank.name ≡ L.name }
    requires parts { blank.parts ≡ L.parts }
    requires some { 0 < blank.parts }
    requires accepted { Accepts machine input }
    requires ranges { IsInRange input }
    ensures { IfOk result
        (λ answer. (answer.0 ≡ (step machine input).state) × (answer.1 ≡ (step machine input).outs)) }
{
    let mut steps = Steps::<L>::new(blank);
    machine.step(input, &mut steps)
}
