// Lines out of a source, however it cuts them: the next line as far as it has come, and bytes behind it.
ghost use Rattle.std.specs.Prelude.{◌≡◌, ◌<◌, ◌++◌, [], IfOk, MatchBool, OnErr, OnOk, length};
ghost use Rattle.rig.specs.Flow.{after_failed_read};
ghost use Rattle.replay_core.specs.Pieces.{IsEnded, IsUnended};
ghost use Rattle.replay_core.specs.Reading.{ReadsOn};

use crate::bytes::find_byte;
use lists::{Bytes, Memory};
use rig::{ReadFailed, Source};
use std::alloc::Global;
use std::marker::Model;

/// The byte that ends a line.
const LINE_FEED: u8 = b'\n';

/// How many bytes are asked of the source at once.
const BUFFER_SIZE: usize = 65_536;

/// What was read and not run yet.
#[derive(Drop)]
pub struct LineReader {
    line: Bytes,
    buffer: Vec<u8>,
    start: usize,
    end: usize,
}

impl Model for LineReader {
    ghost use Rattle.std.specs.Prelude.{◌<◌, ◌≤◌, vec_len};
    ghost use Rattle.std.specs.List.{slice_range};
    ghost use Rattle.replay_core.specs.Reading.{Ahead};

    ghost Value = { Ahead };

    ghost view = { λ r. record { line = r.line; unread = slice_range r.buffer.items r.start r.end } };

    ghost invariant = { λ r. (r.start ≤ r.end) × (r.end ≤ vec_len r.buffer) × (0 < vec_len r.buffer) };
}

impl LineReader {
    /// A reader that has read nothing.
    pub fn new(alloc: Global) -> Result<Self, Memory>
        ensures { IfOk result (λ lines. (lines.line ≡ []) × (lines.unread ≡ [])) }
    {
        Ok(LineReader {
            line: Bytes::new(alloc),
            buffer: vec![in alloc; 0u8; BUFFER_SIZE]?,
            start: 0,
            end: 0,
        })
    }

    /// The next line, as far as it was taken, with the byte that ends it where that has come.
    pub fn line(&self) -> &[u8]
        ensures { result.now ≡ self.now.line }
    {
        self.line.as_slice()
    }

    /// Takes what was read up to the end of the line, and says whether that has come.
    pub fn end_line(&mut self) -> Result<bool, Memory>
        requires { IsUnended self.old.line }
        ensures moved { OnOk result
            (self.new.line ++ self.new.unread ≡ self.old.line ++ self.old.unread) }
        ensures ended { IfOk result (λ ended. MatchBool ended
            (IsEnded self.new.line × (length self.new.unread < length self.old.unread))
            (IsUnended self.new.line × (self.new.unread ≡ []))) }
    {
        let unread = &self.buffer[self.start..self.end];
        match find_byte(unread, LINE_FEED) {
            Some(place) => {
                self.line.extend_from_slice(&unread[..place + 1])?;
                self.start += place + 1;
                Ok(true)
            }
            None => {
                self.line.extend_from_slice(unread)?;
                self.start = self.end;
                Ok(false)
            }
        }
    }

    /// Goes on to the line behind.
    pub fn begin_line(&mut self)
        ensures line { self.new.line ≡ [] }
        ensures unread { self.new.unread ≡ self.old.unread }
    {
        self.line.clear();
    }

    /// Reads once, behind bytes of which each was taken, and says whether the source has ended.
    pub fn read<I: Source>(&mut self, input: &mut I) -> Result<bool, ReadFailed>
        ensures line { self.new.line ≡ self.old.line }
        ensures reads { OnOk result
            (ReadsOn self.new.unread (I.incoming input.old) (I.incoming input.new)) }
        ensures over { IfOk result
            (λ over. MatchBool over (self.new.unread ≡ []) (0 < length self.new.unread)) }
        ensures failed { OnErr result
            (I.incoming input.new ≡ after_failed_read (I.incoming input.old)) }
    {
        let count = input.read(self.buffer.as_mut_slice())?;
        self.start = 0;
        self.end = count;
        Ok(count == 0)
    }
}
