// `CALL STATUS [noretry=true|false] [retry=TEXT] [BODY]`: what an application answers to a call.
ghost use Rattle.std.specs.Prelude.{◌≡◌, IfOk, None, Some};
ghost use Rattle.std.specs.Option.{option_copied, option_map};
ghost use Rattle.replay_core.specs.Line.{body_or_none, no_retry_of, reply_line, reply_of, reply_to, retry_of, spaced, spaced_byte, status_of};

use crate::line::{Line, split_word};
use kinds::{Input, ReplyIn};
use lists::{Bytes, Memory};
use requests::Requested;
use std::alloc::Global;
use text_num::read_u64;

/// How the word begins that has the text of the field Retry-After.
const RETRY: &[u8] = b"retry=";

/// Reads what stands behind `REPLY` and its space.
pub fn reply_line(alloc: Global, at: u64, text: &[u8]) -> Result<Option<Line>, Memory>
    ensures { IfOk result (λ line. line ≡ reply_line at text.now) }
{
    let (word, rest) = split_word(text);
    let Ok(call) = read_u64(word) else {
        return Ok(None);
    };
    match rest {
        Some(rest) => reply_to(alloc, at, call, rest),
        None => Ok(None),
    }
}

// From the status on.
fn reply_to(alloc: Global, at: u64, call: u64, text: &[u8]) -> Result<Option<Line>, Memory>
    ensures { IfOk result (λ line. line ≡ reply_to at text.now call) }
{
    let (word, rest) = split_word(text);
    let Some(status) = status_of(word) else {
        return Ok(None);
    };
    let reply = reply_of(alloc, status, rest)?;
    Ok(Some(Line::Asks(Requested::Input(Input::Reply { at, call, reply }))))
}

// A number from 100 to 999, in three digits.
fn status_of(word: &[u8]) -> Option<u16>
    ensures { result ≡ status_of word.now }
{
    let status = read_u64(word).ok()?;
    if word.len() == 3 && (100..=999).contains(&status) {
        u16::try_from(status).ok()
    } else {
        None
    }
}

// The fields and the body.
fn reply_of(alloc: Global, status: u16, text: Option<&[u8]>) -> Result<ReplyIn, Memory>
    ensures { IfOk result (λ reply. reply ≡ reply_of status (option_copied text.entry)) }
{
    let (no_retry, text) = no_retry_of(text);
    let (retry, text) = retry_of(alloc, text)?;
    Ok(ReplyIn {
        status,
        no_retry,
        retry,
        body: Bytes::from_slice(alloc, text.unwrap_or(&[]))?,
    })
}

// The word `noretry=true` or `noretry=false`, where it stands first, and what stands behind.
fn no_retry_of(text: Option<&[u8]>) -> (Option<bool>, Option<&[u8]>)
    ensures value { result.0 ≡ (no_retry_of (option_copied text.entry)).value }
    ensures left { option_copied result.1 ≡ (no_retry_of (option_copied text.entry)).left }
{
    let Some(line) = text else {
        return (None, None);
    };
    let (word, rest) = split_word(line);
    if word == b"noretry=true".as_slice() {
        (Some(true), rest)
    } else if word == b"noretry=false".as_slice() {
        (Some(false), rest)
    } else {
        (None, text)
    }
}

// The text of a word `retry=TEXT`, where it stands first, and what stands behind.
fn retry_of(alloc: Global, text: Option<&[u8]>) -> Result<(Option<Bytes>, Option<&[u8]>), Memory>
    ensures value { IfOk result (λ r. r.0 ≡ (retry_of (option_copied text.entry)).value) }
    ensures left { IfOk result (λ r. option_copied r.1 ≡ (retry_of (option_copied text.entry)).left) }
{
    let Some(line) = text else {
        return Ok((None, None));
    };
    let (word, rest) = split_word(line);
    if word.starts_with(RETRY) {
        Ok((Some(spaced(alloc, &word[RETRY.len()..])?), rest))
    } else {
        Ok((None, text))
    }
}

// A text with a space for each `_`.
fn spaced(alloc: Global, text: &[u8]) -> Result<Bytes, Memory>
    ensures { IfOk result (λ t. t ≡ spaced text.now) }
{
    let mut spaced = Bytes::with_room(alloc, text.len())?;
    for byte in text {
        spaced.push(spaced_byte(*byte))?;
    }
    Ok(spaced)
}

fn spaced_byte(byte: u8) -> u8
    ensures { result ≡ spaced_byte byte }
{
    if byte == b'_' { b' ' } else { byte }
}
