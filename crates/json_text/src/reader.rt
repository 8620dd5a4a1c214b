// The reader of a text, byte by byte.
ghost use Rattle.std.specs.Prelude.{◌≡◌};
ghost use Rattle.json_text.specs.Reading.{Begins};
ghost use Rattle.json_text.specs.declared.fault.JsonFault.TheVariants as fault;

use crate::bracket::Turn;
use crate::builder::Builder;
use crate::character::{Within, is_unescaped};
use crate::number::Stage;
use crate::turn::is_space;
use crate::word::Word;
use crate::{JsonFault, Kind, Tree};
use std::alloc::Global;

/// Where the reader is: at a first part or a closing bracket, at a part behind a separator, behind a
/// part, or inside a text, a number or a word.
#[derive(Clone, Copy, Debug, Drop)]
pub(crate) enum Mode {
    First,
    Next,
    After,
    Text(Within),
    Number(Stage),
    Word(Word),
}

/// Reads one byte at a time.
#[derive(Drop)]
pub(crate) struct Reader<'a> {
    pub(crate) bytes: &'a [u8],
    pub(crate) builder: Builder,
    pub(crate) mode: Mode,
    /// Where the text, number or word began.
    pub(crate) start: usize,
}

fn not_json(at: usize) -> JsonFault
    ensures { result ≡ fault.NotJson at }
{
    JsonFault::NotJson { at: at as u64 }
}

impl<'a> Reader<'a> {
    ghost use Rattle.std.specs.Prelude.{◌≡◌, List, ℕ, ◌+◌, ◌<◌, ◌∷◌, [], length, Some, None, OnOk, IfErr, IfOk};
    ghost use Rattle.json_text.specs.Building.{Puts};
    ghost use Rattle.json_text.specs.Entries.{turn_of};
    ghost use Rattle.json_text.specs.Automaton.{Frame, Mode as State_mode, State, first, next, after, begin, begin_value, close, ended, next_stage, value_of, open_at, start, step, step_after, step_in};
    ghost use Rattle.json_text.specs.Reading.{Answers, Closes, Ends, EndsAs, Holds, IsMode, Shows, Stays};
    ghost use Rattle.json_text.specs.declared.fault.JsonFault.TheVariants as fault;
    ghost use Rattle.json_text.specs.declared.character.Within.TheVariants as inside;
    ghost use Rattle.json_text.specs.declared.reader.Mode.TheVariants as mode;

    pub(crate) fn new(alloc: Global, bytes: &'a [u8]) -> Self
        ensures { Shows bytes.now result start }
    {
        Reader {
            bytes,
            builder: Builder::new(alloc),
            mode: Mode::First,
            start: 0,
        }
    }

    /// Takes the byte at this place.
    pub(crate) fn step(&mut self, at: usize, byte: u8) -> Result<(), JsonFault>
        requires { at < length self.old.bytes.now }
        ensures { (w : List ℕ) (s : State) → Holds w self.old at byte s.mode s.top s.below
            → Answers w at (step s byte) result self.new }
    {
        match self.mode {
            Mode::First => self.first(at, byte),
            Mode::Next => self.next(at, byte),
            Mode::After => self.after(at, byte),
            Mode::Text(within) => self.text(within, at, byte),
            Mode::Number(stage) => self.number(stage, at, byte),
            Mode::Word(word) => self.word(word, at, byte),
        }
    }

    /// The byte is at the first part, or closes the bracket.
    fn first(&mut self, at: usize, byte: u8) -> Result<(), JsonFault>
        requires { at < length self.old.bytes.now }
        ensures { IsMode self.old.mode first → (w : List ℕ) (f : Frame) (fs : List Frame)
            → Stays w self.old at byte f fs → Answers w at (step_in first byte f fs) result self.new }
    {
        if is_space(byte) {
            Ok(())
        } else if self.builder.top.turn.closes(byte) {
            self.close(at)
        } else {
            self.begin(at, byte)
        }
    }

    /// The byte is at a part.
    fn next(&mut self, at: usize, byte: u8) -> Result<(), JsonFault>
        ensures { IsMode self.old.mode next → (w : List ℕ) (f : Frame) (fs : List Frame)
            → Stays w self.old at byte f fs → Answers w at (step_in next byte f fs) result self.new }
    {
        if is_space(byte) {
            Ok(())
        } else {
            self.begin(at, byte)
        }
    }

    /// The byte is behind a part.
    fn after(&mut self, at: usize, byte: u8) -> Result<(), JsonFault>
        requires { at < length self.old.bytes.now }
        ensures { IsMode self.old.mode after → (w : List ℕ) (f : Frame) (fs : List Frame)
            → Stays w self.old at byte f fs → Answers w at (step_after byte f fs) result self.new }
    {
        if is_space(byte) {
            Ok(())
        } else if self.builder.top.turn.closes(byte) {
            self.close(at)
        } else if self.builder.top.turn.separates(byte) {
            self.mode = Mode::Next;
            Ok(())
        } else {
            Err(not_json(at))
        }
    }

    fn close(&mut self, at: usize) -> Result<(), JsonFault>
        requires { at < length self.old.bytes.now }
        ensures { (w : List ℕ) (byte : ℕ) (f : Frame) (fs : List Frame)
            → Stays w self.old at byte f fs → Answers w at (close byte f fs) result self.new }
    {
        if !self.builder.close(at + 1)? {
            return Err(not_json(at));
        }
        self.mode = Mode::After;
        Ok(())
    }

    /// The byte begins a part.
    fn begin(&mut self, at: usize, byte: u8) -> Result<(), JsonFault>
        ensures { (w : List ℕ) (f : Frame) (fs : List Frame) → Stays w self.old at byte f fs
            → Answers w at (begin byte f fs) result self.new }
    {
        if byte == b'"' {
            self.begin_token(Mode::Text(Within::Between), at);
            Ok(())
        } else if self.builder.top.turn.takes_values() {
            self.begin_value(at, byte)
        } else {
            Err(not_json(at))
        }
    }

    fn begin_value(&mut self, at: usize, byte: u8) -> Result<(), JsonFault>
        ensures { (w : List ℕ) (f : Frame) (fs : List Frame) → Stays w self.old at byte f fs
            → Answers w at (begin_value byte f fs) result self.new }
    {
        if byte == b'[' {
            return self.open(Turn::Element, at);
        }
        if byte == b'{' {
            return self.open(Turn::Name, at);
        }
        let Some(mode) = token_mode(byte) else {
            return Err(not_json(at));
        };
        self.begin_token(mode, at);
        Ok(())
    }

    fn begin_token(&mut self, mode: Mode, at: usize)
        ensures { self.new ≡ record self.old { mode = mode; start = at } }
    {
        self.mode = mode;
        self.start = at;
    }

    fn open(&mut self, turn: Turn, at: usize) -> Result<(), JsonFault>
        ensures { (w : List ℕ) (byte : ℕ) (f : Frame) (fs : List Frame)
            → Stays w self.old at byte f fs
            → Answers w at (Some (open_at (turn_of turn) byte f fs)) result self.new }
    {
        if self.builder.depth() >= MAX_DEPTH {
            return Err(JsonFault::TooDeep { at: at as u64 });
        }
        self.builder.open(turn, at)?;
        self.mode = Mode::First;
        Ok(())
    }

    /// Puts the text, number or word that ends here.
    fn put(&mut self, kind: Kind, stop: usize) -> Result<(), JsonFault>
        ensures kept { self.new.bytes ≡ self.old.bytes }
        ensures mode { OnOk result (IsMode self.new.mode after) }
        ensures put { OnOk result (Puts self.old.builder self.old.start stop kind self.new.builder) }
        ensures err { IfErr result (λ e. e ≡ fault.Memory) }
    {
        self.builder.put(kind, self.start, stop)?;
        self.mode = Mode::After;
        Ok(())
    }

    /// Most bytes of a text leave the reader as it is.
    fn text(&mut self, within: Within, at: usize, byte: u8) -> Result<(), JsonFault>
        requires inside { at < length self.old.bytes.now }
        requires mode { self.old.mode ≡ mode.Text within }
        ensures { (w : List ℕ) (m : State_mode) (f : Frame) (fs : List Frame)
            → IsMode (mode.Text within) m → Holds w self.old at byte m f fs
            → Answers w at (step_in m byte f fs) result self.new }
    {
        match within {
            Within::Between if is_unescaped(byte) => Ok(()),
            Within::Between if byte == b'"' => self.put(Kind::Text, at + 1),
            _ => self.character(within, at, byte),
        }
    }

    /// The byte is no quotation mark that ends the text.
    fn character(&mut self, within: Within, at: usize, byte: u8) -> Result<(), JsonFault>
        ensures { (w : List ℕ) (m : State_mode) (f : Frame) (fs : List Frame)
            → (within ≡ inside.Between → byte ≡ 0x22 → ⊥) → IsMode (mode.Text within) m
            → Holds w self.old at byte m f fs → Answers w at (step_in m byte f fs) result self.new }
    {
        match within.next(byte) {
            Some(next) => {
                self.mode = Mode::Text(next);
                Ok(())
            }
            None => Err(not_json(at)),
        }
    }

    fn number(&mut self, stage: Stage, at: usize, byte: u8) -> Result<(), JsonFault>
        requires { at < length self.old.bytes.now }
        ensures { (w : List ℕ) (m : State_mode) (f : Frame) (fs : List Frame)
            → IsMode (mode.Number stage) m → Holds w self.old at byte m f fs
            → Answers w at (step_in m byte f fs) result self.new }
    {
        match stage.next(byte) {
            Some(next) => {
                self.mode = Mode::Number(next);
                Ok(())
            }
            None => self.end_number(stage, at, byte),
        }
    }

    /// The number has ended before this byte.
    fn end_number(&mut self, stage: Stage, at: usize, byte: u8) -> Result<(), JsonFault>
        requires { at < length self.old.bytes.now }
        ensures { (w : List ℕ) (m : State_mode) (f : Frame) (fs : List Frame)
            → next_stage stage byte ≡ None → IsMode (mode.Number stage) m
            → Holds w self.old at byte m f fs → Answers w at (step_in m byte f fs) result self.new }
    {
        if !stage.may_end() {
            return Err(not_json(at));
        }
        self.put(Kind::Number, at)?;
        self.after(at, byte)
    }

    fn word(&mut self, word: Word, at: usize, byte: u8) -> Result<(), JsonFault>
        requires { at < length self.old.bytes.now }
        ensures { (w : List ℕ) (m : State_mode) (f : Frame) (fs : List Frame)
            → IsMode (mode.Word word) m → Holds w self.old at byte m f fs
            → Answers w at (step_in m byte f fs) result self.new }
    {
        if byte != word.first() {
            return Err(not_json(at));
        }
        match word.rest() {
            Some(rest) => {
                self.mode = Mode::Word(rest);
                Ok(())
            }
            None => self.put(word.kind(), at + 1),
        }
    }

    /// The tree, where a text may end here.
    pub(crate) fn finish(self) -> Result<Tree<'a>, JsonFault>
        requires { (s : State) × Ends self.bytes.now self s }
        ensures source { IfOk result (λ tree. tree.source ≡ self.entry.bytes.now) }
        ensures value { (s : State) → Ends self.entry.bytes.now self.entry s
            → EndsAs (length self.entry.bytes.now) (value_of s) result }
    {
        match self.mode {
            Mode::After => self.into_tree(),
            Mode::Number(stage) => self.finish_number(stage),
            _ => Err(not_json(self.bytes.len())),
        }
    }

    fn finish_number(mut self, stage: Stage) -> Result<Tree<'a>, JsonFault>
        requires { (s : State) × Ends self.bytes.now self s × IsMode (mode.Number stage) s.mode }
        ensures source { IfOk result (λ tree. tree.source ≡ self.entry.bytes.now) }
        ensures value { (s : State) → Ends self.entry.bytes.now self.entry s
            → IsMode (mode.Number stage) s.mode
            → EndsAs (length self.entry.bytes.now) (value_of s) result }
    {
        let stop = self.bytes.len();
        if !stage.may_end() {
            return Err(not_json(stop));
        }
        self.put(Kind::Number, stop)?;
        self.into_tree()
    }

    fn into_tree(self) -> Result<Tree<'a>, JsonFault>
        requires { (f : Frame) × (fs : List Frame) × Closes self.bytes.now self f fs }
        ensures source { IfOk result (λ tree. tree.source ≡ self.entry.bytes.now) }
        ensures value { (f : Frame) (fs : List Frame) → Closes self.entry.bytes.now self.entry f fs
            → EndsAs (length self.entry.bytes.now) (ended f fs) result }
    {
        if self.builder.depth() > 0 {
            return Err(not_json(self.bytes.len()));
        }
        Ok(Tree {
            bytes: self.bytes,
            nodes: self.builder.nodes,
        })
    }
}

const MAX_DEPTH: usize = 64;

/// What begins with this byte, other than a text or a bracket.
fn token_mode(byte: u8) -> Option<Mode>
    ensures { Begins byte result }
{
    if let Some(stage) = Stage::Start.next(byte) {
        return Some(Mode::Number(stage));
    }
    match byte {
        b'n' => Some(Mode::Word(Word::Ull)),
        b't' => Some(Mode::Word(Word::Rue)),
        b'f' => Some(Mode::Word(Word::Alse)),
        _ => None,
    }
}
