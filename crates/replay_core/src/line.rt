// Reads the lines of a script.
ghost use Rattle.std.specs.Prelude.{◌≡◌, IfOk};
ghost use Rattle.std.specs.List.{list_all};
ghost use Rattle.std.specs.Option.{option_copied};
ghost use Rattle.replay_core.specs.Line.{Split, at_reading, event_line, event_named, event_of, events_line, id_of, is_name, is_name_byte};
ghost use Rattle.replay_core.specs.Line.{is_passed, line_of_kind, numbered_line, read_line, registration_line, split_word, timed_line, word_line};
ghost use Rattle.replay_core.specs.Pieces.{text_of_line};
ghost use Rattle.replay_core.specs.declared.line.Line.TheVariants.{Asks};
ghost use Rattle.requests.specs.declared.requested.Requested.TheVariants as requested;

use crate::bytes::find_byte;
use crate::reply::reply_line;
use kinds::{EventIn, Input};
use lists::{Bytes, Items, Memory};
use requests::{Requested, read_events_request, read_register_request};
use std::alloc::Global;
use text_num::read_u64;

/// What a line of a script says.
#[derive(Drop)]
pub enum Line {
    /// An empty line or a comment, which is passed over.
    Passed,
    /// What a request comes to: an input of the machine, or an answer that is given at once.
    Asks(Requested),
}

/// What stands in a line before the byte that ends it.
pub fn text_of_line(line: &[u8]) -> &[u8]
    ensures { result.now ≡ text_of_line line.now }
{
    match find_byte(line, b'\n') {
        Some(place) => &line[..place],
        None => line,
    }
}

/// Reads a line without the byte that ends it; `None` where it is outside the grammar.
#[tactic(auto, unfolding(crate::specs::Line::read_line))]
pub fn read_line(alloc: Global, text: &[u8]) -> Result<Option<Line>, Memory>
    ensures { IfOk result (λ line. line ≡ read_line text.now) }
{
    match text.first() {
        None | Some(b'#') => Ok(Some(Line::Passed)),
        Some(_) => timed_line(alloc, text),
    }
}

// `MS` and what stands behind it.
fn timed_line(alloc: Global, text: &[u8]) -> Result<Option<Line>, Memory>
    ensures { IfOk result (λ line. line ≡ timed_line text.now) }
{
    let (word, rest) = split_word(text);
    let Ok(at) = read_u64(word) else {
        return Ok(None);
    };
    match rest {
        Some(rest) => line_at(alloc, at, rest),
        None => Ok(None),
    }
}

// What stands behind `MS` and its space.
fn line_at(alloc: Global, at: u64, text: &[u8]) -> Result<Option<Line>, Memory>
    ensures { IfOk result (λ line. line ≡ at_reading at text.now) }
{
    let (kind, rest) = split_word(text);
    match rest {
        Some(rest) => line_of_kind(alloc, at, kind, rest),
        None => Ok(word_line(at, kind)),
    }
}

// A line that is a word alone.
fn word_line(at: u64, word: &[u8]) -> Option<Line>
    ensures { result ≡ word_line at word.now }
{
    if word == b"TICK".as_slice() {
        Some(asks(Input::Tick { at }))
    } else {
        None
    }
}

// A line of a kind, from behind its space on.
fn line_of_kind(alloc: Global, at: u64, kind: &[u8], rest: &[u8]) -> Result<Option<Line>, Memory>
    ensures { IfOk result (λ line. line ≡ line_of_kind at kind.now rest.now) }
{
    if kind == b"REGISTER".as_slice() {
        registration_line(alloc, at, rest)
    } else if kind == b"EVENT".as_slice() {
        event_line(alloc, at, rest)
    } else if kind == b"EVENTS".as_slice() {
        events_line(alloc, at, rest)
    } else if kind == b"REPLY".as_slice() {
        reply_line(alloc, at, rest)
    } else {
        Ok(numbered_line(at, kind, rest))
    }
}

// A line that says no more than a number.
fn numbered_line(at: u64, kind: &[u8], rest: &[u8]) -> Option<Line>
    ensures { result ≡ numbered_line at kind.now rest.now }
{
    let number = read_u64(rest).ok()?;
    if kind == b"FAIL".as_slice() {
        Some(asks(Input::CallFailed { at, call: number }))
    } else if kind == b"CANCEL".as_slice() {
        Some(asks(Input::Cancel { at, run: number }))
    } else {
        None
    }
}

// A line that is an input as it stands.
fn asks(input: Input) -> Line
    ensures { result ≡ Asks (requested.Input input) }
{
    Line::Asks(Requested::Input(input))
}

// The body of a registration.
fn registration_line(alloc: Global, at: u64, body: &[u8]) -> Result<Option<Line>, Memory>
    ensures { IfOk result (λ line. line ≡ registration_line at body.now) }
{
    let requested = read_register_request(alloc, at, body)?;
    Ok(Some(Line::Asks(requested)))
}

// The body of a request of events.
fn events_line(alloc: Global, at: u64, body: &[u8]) -> Result<Option<Line>, Memory>
    ensures { IfOk result (λ line. line ≡ events_line at body.now) }
{
    let requested = read_events_request(alloc, at, body)?;
    Ok(Some(Line::Asks(requested)))
}

// `NAME ID`.
fn event_line(alloc: Global, at: u64, text: &[u8]) -> Result<Option<Line>, Memory>
    ensures { IfOk result (λ line. line ≡ event_line at text.now) }
{
    let (name, rest) = split_word(text);
    match rest {
        Some(id) if is_name(name) && is_name(id) => {
            let mut events = Items::new(alloc);
            events.push(event_named(alloc, name, id)?)?;
            Ok(Some(Line::Asks(Requested::Input(Input::Events { at, events }))))
        }
        _ => Ok(None),
    }
}

// An event without data; the id `-` stands for none.
fn event_named(alloc: Global, name: &[u8], id: &[u8]) -> Result<EventIn, Memory>
    ensures { IfOk result (λ event. event ≡ event_named name.now (id_of id.now)) }
{
    let id = if id == b"-".as_slice() {
        None
    } else {
        Some(Bytes::from_slice(alloc, id)?)
    };
    Ok(EventIn {
        name: Bytes::from_slice(alloc, name)?,
        content: Bytes::from_slice(alloc, b"{}")?,
        id,
        ts: None,
        user: None,
        v: None,
    })
}

/// A text at its first space: the word before it, and what stands behind it, where there is one.
pub fn split_word(text: &[u8]) -> (&[u8], Option<&[u8]>)
    ensures word { result.0.now ≡ (split_word text.now).word }
    ensures rest { option_copied result.1 ≡ (split_word text.now).rest }
{
    match find_byte(text, b' ') {
        Some(place) => (&text[..place], Some(&text[place + 1..])),
        None => (text, None),
    }
}

fn is_name(word: &[u8]) -> bool
    ensures { result ≡ is_name word.now }
{
    !word.is_empty() && are_name_bytes(word)
}

fn are_name_bytes(word: &[u8]) -> bool
    ensures { result ≡ list_all is_name_byte word.now }
{
    word.iter().all(|byte| is_name_byte(*byte))
}

// Printable ASCII without space, `"` and `\`.
fn is_name_byte(byte: u8) -> bool
    ensures { result ≡ is_name_byte byte }
{
    (33..=126).contains(&byte) && byte != b'"' && byte != b'\\'
}
