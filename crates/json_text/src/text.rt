// What a string stands for, its escapes undone.
ghost use Rattle.std.specs.Prelude.{◌≡◌, ◌++◌, List, ℕ, [], ◌∷◌, ◌<◌, OnOk, OnErr, IfOk, IfSome, bytes_eq, option_map, IsUtf8};
ghost use Rattle.json_text.specs.Grammar.{IsJson};
ghost use Rattle.json_text.specs.Grammar as json;
ghost use Rattle.json_text.specs.Splitting.{SplitsFrom, SplitsAfter, Strips, piece_bytes};
ghost use Rattle.json_text.specs.Text.{IsBegun, text_from, none, backslash, unit, low_unit, inside, text_of, unescaped, quoted, escaped, escaped_byte, hex_value, hex_digit, code_unit, is_high_surrogate, surrogate_pair, short_meaning, character_bytes};

use crate::plain::{inside, plain_text};
use lists::{Bytes, Memory};
use std::alloc::Global;

/// A piece of a text: a byte, or a character by its code.
#[derive(Clone, Copy, Debug)]
enum Piece {
    Byte(u8),
    Code(u32),
}

/// A piece, and the spelling of what is left.
#[derive(Drop)]
struct FirstPiece<'a> {
    piece: Piece,
    rest: &'a [u8],
}

/// The text that a string stands for, given its spelling.
pub(crate) fn unescaped(alloc: Global, spelling: &[u8]) -> Result<Bytes, Memory>
    ensures { IfOk result (λ text. text ≡ unescaped spelling.now) }
{
    match plain_text(spelling) {
        Some(text) => Bytes::from_slice(alloc, text),
        None => unescaped_by_pieces(alloc, spelling),
    }
}

/// The same, where the string may have escapes.
#[inline(never)]
fn unescaped_by_pieces(alloc: Global, spelling: &[u8]) -> Result<Bytes, Memory>
    ensures { IfOk result (λ text. text ≡ unescaped spelling.now) }
{
    let mut text = Bytes::new(alloc);
    let mut rest = inside(spelling);
    while let Some(first) = split(rest) {
        push(&mut text, first.piece)?;
        rest = first.rest;
    }
    Ok(text)
}

/// Whether the string of this spelling stands for the text. Takes no memory.
pub(crate) fn stands_for(spelling: &[u8], text: &[u8]) -> bool
    ensures { result ≡ bytes_eq (unescaped spelling.now) text.now }
{
    match plain_text(spelling) {
        Some(inside) => inside == text,
        None => stands_for_by_pieces(spelling, text),
    }
}

/// The same, where the string may have escapes.
#[inline(never)]
fn stands_for_by_pieces(spelling: &[u8], text: &[u8]) -> bool
    ensures { result ≡ bytes_eq (unescaped spelling.now) text.now }
{
    let mut text = text;
    let mut rest = inside(spelling);
    while let Some(first) = split(rest) {
        let Some(left) = strip(text, first.piece) else {
            return false;
        };
        text = left;
        rest = first.rest;
    }
    text.is_empty()
}

/// The first piece of a text, and the spelling of the rest.
fn split(spelling: &[u8]) -> Option<FirstPiece<'_>>
    ensures { SplitsFrom none spelling.now (option_map (λ s. (s.piece, s.rest.now)) result) }
{
    match spelling {
        [] => None,
        [byte, rest @ ..] if *byte == b'\\' => split_escape(rest),
        [byte, rest @ ..] => Some(FirstPiece {
            piece: Piece::Byte(*byte),
            rest,
        }),
    }
}

/// The same behind a backslash.
fn split_escape(spelling: &[u8]) -> Option<FirstPiece<'_>>
    ensures { SplitsFrom backslash spelling.now (option_map (λ s. (s.piece, s.rest.now)) result) }
{
    match spelling {
        [] => None,
        [byte, rest @ ..] if *byte == b'u' => split_unit(rest),
        [byte, rest @ ..] => Some(FirstPiece {
            piece: Piece::Byte(short_meaning(*byte)),
            rest,
        }),
    }
}

/// The same at the digits of a code unit.
fn split_unit(spelling: &[u8]) -> Option<FirstPiece<'_>>
    ensures { SplitsFrom unit spelling.now (option_map (λ s. (s.piece, s.rest.now)) result) }
{
    match spelling {
        [a, b, c, d, rest @ ..] => split_after(code_unit(*a, *b, *c, *d), rest),
        _ => None,
    }
}

/// The same behind a code unit: a high surrogate has a low one behind it.
fn split_after(code: u32, rest: &[u8]) -> Option<FirstPiece<'_>>
    requires { code < 0x10_0000 }
    ensures { SplitsAfter code rest.now (option_map (λ s. (s.piece, s.rest.now)) result) }
{
    if is_high_surrogate(code) {
        split_low(code, rest)
    } else {
        Some(FirstPiece {
            piece: Piece::Code(code),
            rest,
        })
    }
}

/// The same behind a high surrogate.
fn split_low(high: u32, spelling: &[u8]) -> Option<FirstPiece<'_>>
    requires { high < 0x10_0000 }
    ensures { SplitsFrom (low_unit high) spelling.now (option_map (λ s. (s.piece, s.rest.now)) result) }
{
    match spelling {
        [_, _, a, b, c, d, rest @ ..] => Some(FirstPiece {
            piece: Piece::Code(surrogate_pair(high, code_unit(*a, *b, *c, *d))),
            rest,
        }),
        _ => None,
    }
}

fn code_unit(a: u8, b: u8, c: u8, d: u8) -> u32
    ensures value { result ≡ code_unit a b c d }
    ensures bound { result < 0x10_0000 }
{
    ((hex_value(a) * 16 + hex_value(b)) * 16 + hex_value(c)) * 16 + hex_value(d)
}

fn hex_value(byte: u8) -> u32
    ensures value { result ≡ hex_value byte }
    ensures bound { result < 0x100 }
{
    let byte = u32::from(byte);
    if byte <= 0x39 {
        byte.saturating_sub(0x30)
    } else if byte <= 0x46 {
        byte.saturating_sub(0x37)
    } else {
        byte.saturating_sub(0x57)
    }
}

fn is_high_surrogate(unit: u32) -> bool
    ensures { result ≡ is_high_surrogate unit }
{
    0xd800 <= unit && unit < 0xdc00
}

/// The character of a surrogate pair (RFC 8259, section 7).
fn surrogate_pair(high: u32, low: u32) -> u32
    requires high { high < 0x10_0000 }
    requires low { low < 0x10_0000 }
    ensures { result ≡ surrogate_pair high low }
{
    0x1_0000 + high.saturating_sub(0xd800) * 0x400 + low.saturating_sub(0xdc00)
}

fn short_meaning(byte: u8) -> u8
    ensures { result ≡ short_meaning byte }
{
    match byte {
        b'b' => 0x08,
        b'f' => 0x0c,
        b'n' => b'\n',
        b'r' => b'\r',
        b't' => b'\t',
        _ => byte,
    }
}

fn push(text: &mut Bytes, piece: Piece) -> Result<(), Memory>
    ensures { OnOk result (text.new ≡ text.old ++ piece_bytes piece) }
{
    match piece {
        Piece::Byte(byte) => text.push(byte),
        Piece::Code(code) => match char::from_u32(code) {
            Some(character) => {
                text.extend_from_slice(character.encode_utf8(&mut [0; 4]).as_bytes())
            }
            None => Ok(()),
        },
    }
}

/// What is behind the piece, where it is at the front.
fn strip(text: &[u8], piece: Piece) -> Option<&[u8]>
    ensures { Strips text.now piece (option_map (λ r. r.now) result) }
{
    match piece {
        Piece::Byte(byte) => text.strip_prefix(&[byte]),
        Piece::Code(code) => match char::from_u32(code) {
            Some(character) => text.strip_prefix(character.encode_utf8(&mut [0; 4]).as_bytes()),
            None => Some(text),
        },
    }
}

/// Writes the text as a JSON string at the end: `"` and `\` behind a backslash, and each byte below
/// 0x20 as `\u00` with two lower-case digits. A text in UTF-8 is read back as it is.
pub fn put_text(out: &mut Bytes, text: &[u8]) -> Result<(), Memory>
    ensures ok { OnOk result (out.new ≡ out.old ++ quoted text.now) }
    ensures err { OnErr result (IsBegun out.old (quoted text.now) out.new) }
    ensures reads_back { IsUtf8 text.now → IsJson (quoted text.now) (json.text (quoted text.now))
        × (text_of (json.text (quoted text.now)) ≡ text.now) }
{
    out.push(b'"')?;
    for byte in text {
        put_byte(out, *byte)?;
    }
    out.push(b'"')
}

fn put_byte(out: &mut Bytes, byte: u8) -> Result<(), Memory>
    ensures ok { OnOk result (out.new ≡ out.old ++ escaped_byte byte) }
    ensures err { OnErr result (out.new ≡ out.old) }
{
    match byte {
        b'"' | b'\\' => out.extend_from_slice(&[b'\\', byte]),
        0..=0x1f => out.extend_from_slice(&[
            b'\\',
            b'u',
            b'0',
            b'0',
            hex_digit(byte / 16),
            hex_digit(byte % 16),
        ]),
        _ => out.push(byte),
    }
}

fn hex_digit(digit: u8) -> u8
    requires { digit < 16 }
    ensures { result ≡ hex_digit digit }
{
    if digit < 10 {
        b'0' + digit
    } else {
        0x57 + digit
    }
}
