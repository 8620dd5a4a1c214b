// Strings with their escapes.
ghost use Rattle.std.specs.Prelude.{◌≡◌, ◌++◌, ◌<◌, true, IfOk, OnOk};
ghost use Rattle.std.specs.Char.{is_ascii_hexdigit};
ghost use Rattle.expr.specs.Tokens.{cut_string, next_byte, short_escape, coded_byte, hex_value, plain};
ghost use Rattle.cel_parse.specs.Strings.{byte_of, within_of, bytes_of, end_of};

use lists::{Bytes, Memory};

/// Where a reader stands in a string.
#[derive(Clone, Copy)]
pub enum Within {
    Plain,
    /// Behind a backslash.
    Escaped,
    /// In a `\u` with so many digits to come, and the number that those before write.
    Coded(u8, u32),
}

/// What a byte adds to the string's value.
#[derive(Clone, Copy)]
pub enum Piece {
    Nothing,
    Byte(u8),
    Character(char),
}

/// What a byte does.
#[derive(Clone, Copy)]
pub enum Next {
    Goes(Piece, Within),
    Ends,
    Fails,
}

/// How a string ends.
#[derive(Clone, Copy)]
pub enum End {
    Closed,
    /// With an escape that isn't allowed.
    Wrong,
    Unclosed,
}

/// Adds the value of the string that goes on in the bytes, and gives what follows it.
pub fn read_string<'a>(
    value: &mut Bytes,
    quote: u8,
    bytes: &'a [u8],
) -> Result<(End, &'a [u8]), Memory>
    ensures { IfOk result
        (λ r. cut_string quote value.old plain bytes.now ≡ end_of r.0 value.new r.1.now) }
{
    let mut within = Within::Plain;
    let mut rest = bytes;
    while let Some(byte) = rest.first() {
        match next_byte(quote, within, *byte) {
            Next::Goes(piece, next) => {
                push_piece(value, piece)?;
                within = next;
                rest = &rest[1..];
            }
            Next::Ends => return Ok((End::Closed, &rest[1..])),
            Next::Fails => return Ok((End::Wrong, &rest[..0])),
        }
    }
    Ok((End::Unclosed, rest))
}

fn push_piece(value: &mut Bytes, piece: Piece) -> Result<(), Memory>
    ensures { OnOk result (value.new ≡ value.old ++ bytes_of piece) }
{
    match piece {
        Piece::Nothing => Ok(()),
        Piece::Byte(byte) => value.push(byte),
        Piece::Character(character) => value.extend_from_slice(
            character.encode_utf8(&mut [0; 4]).as_bytes(),
        ),
    }
}

fn next_byte(quote: u8, within: Within, byte: u8) -> Next
    ensures { byte_of result ≡ next_byte quote (within_of within) byte }
{
    match within {
        Within::Plain => {
            if byte == quote {
                return Next::Ends;
            }
            if byte == b'\\' {
                return Next::Goes(Piece::Nothing, Within::Escaped);
            }
            Next::Goes(Piece::Byte(byte), Within::Plain)
        }
        Within::Escaped => short_escape(byte),
        Within::Coded(left, code) => {
            if !byte.is_ascii_hexdigit() {
                return Next::Fails;
            }
            coded_byte(left, code % 4096 * 16 + hex_value(byte))
        }
    }
}

fn short_escape(byte: u8) -> Next
    ensures { byte_of result ≡ short_escape byte }
{
    match byte {
        b'\\' | b'"' | b'\'' => Next::Goes(Piece::Byte(byte), Within::Plain),
        b'n' => Next::Goes(Piece::Byte(b'\n'), Within::Plain),
        b'r' => Next::Goes(Piece::Byte(b'\r'), Within::Plain),
        b't' => Next::Goes(Piece::Byte(b'\t'), Within::Plain),
        b'u' => Next::Goes(Piece::Nothing, Within::Coded(4, 0)),
        _ => Next::Fails,
    }
}

fn coded_byte(left: u8, code: u32) -> Next
    ensures { byte_of result ≡ coded_byte left code }
{
    if left > 1 {
        return Next::Goes(Piece::Nothing, Within::Coded(left - 1, code));
    }
    match char::from_u32(code) {
        Some(character) => Next::Goes(Piece::Character(character), Within::Plain),
        None => Next::Fails,
    }
}

fn hex_value(digit: u8) -> u32
    requires { is_ascii_hexdigit digit ≡ true }
    ensures value { result ≡ hex_value digit }
    ensures below { result < 16 }
{
    if digit <= b'9' {
        u32::from(digit - b'0')
    } else if digit <= b'F' {
        u32::from(digit - 55)
    } else {
        u32::from(digit - 87)
    }
}
