// The run of a script together with the journal of its accepted lines.
ghost use Rattle.std.specs.Prelude.{◌≡◌, ◌<◌, ◌≤◌, ◌++◌, ◌+◌, [], false, true, IfErr, IfOk, OnErr, OnOk, length};
ghost use Rattle.journal_core.specs.Records.{StandsFor, greatest};
ghost use Rattle.replay_core.specs.Accepted.{accepted_line, accepted_lines, line_where};
ghost use Rattle.replay_core.specs.Log.{FinishesLog, IsBlank, IsLogging, Logs, StandsForEither, StopsLog, payloads_in};
ghost use Rattle.replay_core.specs.Pieces.{last_line, text_of_line};
ghost use Rattle.replay_core.specs.Replay.{end_line, finish, on_line, on_lines, passes_limits, start};
ghost use Rattle.replay_core.specs.Run.{Finishes, Says};

use crate::end::LineFault;
use crate::form::Form;
use crate::line::text_of_line;
use crate::log::{append_line, open_journal};
use crate::progress::{Progress, Ran};
use journal_core::Journal;
use lists::{Bytes, Memory};
use rig::MemRig;
use std::alloc::Global;

/// Where a run stands between two lines, with its journal.
#[derive(Drop)]
pub struct Logged {
    pub progress: Progress,
    pub journal: Journal,
}

impl Logged {
    /// A run that has read nothing, over a blank rig.
    pub fn start(alloc: Global, form: Form, rig: &mut MemRig) -> Result<Self, Memory>
        requires { IsBlank rig.old }
        ensures progress { IfOk result (λ logged. logged.progress ≡ start form) }
        ensures log { IfOk result (λ logged. Logs [] [] logged.journal rig.new) }
        ensures failed { OnErr result (StandsFor [] rig.new.a.bytes) }
        ensures starved { OnOk result (rig.new.counts.starved ≡ rig.old.counts.starved) }
    {
        let progress = Progress::start(alloc, form)?;
        let journal = open_journal(alloc, rig)?;
        Ok(Logged { progress, journal })
    }

    /// Runs the next line, and adds to `said` what it says. An accepted line is in the journal first.
    pub fn take_line(
        self,
        line: &[u8],
        rig: &mut MemRig,
        said: &mut Bytes,
    ) -> Result<Self, LineFault>
        requires some { 0 < length line.now }
        requires within { passes_limits self.progress.room line.now ≡ false }
        requires logging { IsLogging self.journal rig.old }
        ensures run { Says (on_line self.progress line.now) said.old said.new result }
        ensures log { IfOk result
            (λ next. Logs (payloads_in rig.old)
            (accepted_line self.progress line.now) next.journal rig.new) }
        ensures stops { IfErr result
            (λ e. StopsLog (accepted_line self.progress line.now) rig.old rig.new e) }
        ensures starved { OnOk result (rig.new.counts.starved ≡ rig.old.counts.starved) }
        ensures room { IfOk result (λ next. next.progress.room + length line.now ≡ self.progress.room) }
    {
        let ran = self.progress.take_line(line)?;
        let journal = log_line(self.journal, rig, &ran, line)?;
        said.extend_from_slice(ran.text.as_slice())?;
        Ok(Logged {
            progress: ran.progress,
            journal,
        })
    }

    /// Runs what follows the last ended line, and adds to `said` what it says and the end line.
    pub fn finish(self, last: &[u8], rig: &mut MemRig, said: &mut Bytes) -> Result<(), LineFault>
        requires within { passes_limits self.progress.room last.now ≡ false }
        requires logging { IsLogging self.journal rig.old }
        ensures run { Finishes (finish (on_lines self.progress (last_line last.now))) said.old
            said.new result }
        ensures log { FinishesLog (accepted_lines self.progress (last_line last.now)) rig.old
            rig.new said.old said.new result }
        ensures starved { OnOk result (rig.new.counts.starved ≡ rig.old.counts.starved) }
    {
        if last.is_empty() {
            return Ok(self.say_end(said)?);
        }
        let logged = self.take_line(last, rig, said)?;
        Ok(logged.say_end(said)?)
    }

    // Adds the end line.
    fn say_end(&self, said: &mut Bytes) -> Result<(), Memory>
        ensures all { OnOk result (said.new ≡ said.old ++ end_line self.now.progress.state) }
        ensures nothing { OnErr result (said.new ≡ said.old) }
    {
        let line = self.progress.end_line()?;
        said.extend_from_slice(line.as_slice())
    }
}

// Adds a line to the journal where it was accepted.
fn log_line(journal: Journal, rig: &mut MemRig, ran: &Ran, line: &[u8]) -> Result<Journal, Memory>
    requires some { ran.now.accepted ≡ true → 0 < length (text_of_line line.now) }
    requires fits { length (text_of_line line.now) ≤ greatest }
    requires logging { IsLogging journal rig.old }
    ensures log { IfOk result
        (λ next. Logs (payloads_in rig.old) (line_where ran.now.accepted line.now) next rig.new) }
    ensures failed { OnErr result
        (StandsForEither (payloads_in rig.old) (line_where ran.now.accepted line.now) rig.new.a.bytes) }
    ensures starved { OnOk result (rig.new.counts.starved ≡ rig.old.counts.starved) }
{
    if ran.accepted {
        append_line(journal, rig, text_of_line(line))
    } else {
        Ok(journal)
    }
}
