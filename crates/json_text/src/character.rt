// The characters of a string, byte by byte.
ghost use Rattle.std.specs.Prelude.{◌≡◌};
ghost use Rattle.json_text.specs.Steps.{next_within, is_unescaped, after_lead, next_if, in_range, is_hex, is_d, is_short, is_low_digit, is_high_digit};
ghost use Rattle.json_text.specs.declared.character.Within.TheVariants as at;

/// Where a string is: between two characters, or how far inside one.
#[derive(Clone, Copy, Debug, PartialEq, Eq)]
pub(crate) enum Within {
    Between,
    Tail1,
    Tail2,
    Tail3,
    AfterE0,
    AfterEd,
    AfterF0,
    AfterF4,
    Escape,
    Unit,
    AfterD,
    Hex1,
    Hex2,
    Hex3,
    High2,
    High1,
    AfterHigh,
    LowEscape,
    Low,
    LowAfterD,
}

impl Within {
    pub(crate) fn next(self, byte: u8) -> Option<Self>
        ensures { result ≡ next_within self byte }
    {
        match self {
            Within::Between => next_character(byte),
            Within::Tail1 => next_if(in_range(0x80, 0xbf, byte), Within::Between),
            Within::Tail2 => next_if(in_range(0x80, 0xbf, byte), Within::Tail1),
            Within::Tail3 => next_if(in_range(0x80, 0xbf, byte), Within::Tail2),
            Within::AfterE0 => next_if(in_range(0xa0, 0xbf, byte), Within::Tail1),
            Within::AfterEd => next_if(in_range(0x80, 0x9f, byte), Within::Tail1),
            Within::AfterF0 => next_if(in_range(0x90, 0xbf, byte), Within::Tail2),
            Within::AfterF4 => next_if(in_range(0x80, 0x8f, byte), Within::Tail2),
            Within::Escape => after_backslash(byte),
            Within::Unit => first_digit(byte),
            Within::AfterD => second_digit(byte),
            Within::Hex1 => next_if(is_hex(byte), Within::Between),
            Within::Hex2 => next_if(is_hex(byte), Within::Hex1),
            Within::Hex3 => next_if(is_hex(byte), Within::Hex2),
            Within::High2 => next_if(is_hex(byte), Within::High1),
            Within::High1 => next_if(is_hex(byte), Within::AfterHigh),
            Within::AfterHigh => next_if(byte == b'\\', Within::LowEscape),
            Within::LowEscape => next_if(byte == b'u', Within::Low),
            Within::Low => next_if(is_d(byte), Within::LowAfterD),
            Within::LowAfterD => next_if(is_low_digit(byte), Within::Hex2),
        }
    }
}

fn next_character(byte: u8) -> Option<Within>
    ensures { result ≡ next_within at.Between byte }
{
    if is_unescaped(byte) {
        Some(Within::Between)
    } else if byte == b'\\' {
        Some(Within::Escape)
    } else {
        after_lead(byte)
    }
}

/// How a character goes on after its first byte (RFC 3629, section 4).
fn after_lead(byte: u8) -> Option<Within>
    ensures { result ≡ after_lead byte }
{
    match byte {
        0xc2..=0xdf => Some(Within::Tail1),
        0xe0 => Some(Within::AfterE0),
        0xed => Some(Within::AfterEd),
        0xe1..=0xef => Some(Within::Tail2),
        0xf0 => Some(Within::AfterF0),
        0xf1..=0xf3 => Some(Within::Tail3),
        0xf4 => Some(Within::AfterF4),
        _ => None,
    }
}

fn after_backslash(byte: u8) -> Option<Within>
    ensures { result ≡ next_within at.Escape byte }
{
    match byte {
        b'u' => Some(Within::Unit),
        _ => next_if(is_short(byte), Within::Between),
    }
}

fn first_digit(byte: u8) -> Option<Within>
    ensures { result ≡ next_within at.Unit byte }
{
    if is_d(byte) {
        Some(Within::AfterD)
    } else {
        next_if(is_hex(byte), Within::Hex3)
    }
}

fn second_digit(byte: u8) -> Option<Within>
    ensures { result ≡ next_within at.AfterD byte }
{
    if in_range(b'0', b'7', byte) {
        Some(Within::Hex2)
    } else {
        next_if(is_high_digit(byte), Within::High2)
    }
}

fn next_if(test: bool, next: Within) -> Option<Within>
    ensures { result ≡ next_if test next }
{
    if test { Some(next) } else { None }
}

fn in_range(from: u8, to: u8, byte: u8) -> bool
    ensures { result ≡ in_range from to byte }
{
    from <= byte && byte <= to
}

/// A byte that stands for itself in a string.
pub(crate) fn is_unescaped(byte: u8) -> bool
    ensures { result ≡ is_unescaped byte }
{
    0x20 <= byte && byte <= 0x7f && byte != b'"' && byte != b'\\'
}

fn is_hex(byte: u8) -> bool
    ensures { result ≡ is_hex byte }
{
    in_range(b'0', b'9', byte) || in_range(b'A', b'F', byte) || in_range(b'a', b'f', byte)
}

fn is_d(byte: u8) -> bool
    ensures { result ≡ is_d byte }
{
    byte == b'D' || byte == b'd'
}

fn is_short(byte: u8) -> bool
    ensures { result ≡ is_short byte }
{
    byte == b'"'
        || byte == b'\\'
        || byte == b'/'
        || byte == b'b'
        || byte == b'f'
        || byte == b'n'
        || byte == b'r'
        || byte == b't'
}

/// The second digit of a low surrogate.
fn is_low_digit(byte: u8) -> bool
    ensures { result ≡ is_low_digit byte }
{
    in_range(b'C', b'F', byte) || in_range(b'c', b'f', byte)
}

/// The second digit of a high surrogate.
fn is_high_digit(byte: u8) -> bool
    ensures { result ≡ is_high_digit byte }
{
    in_range(b'8', b'9', byte) || in_range(b'A', b'B', byte) || in_range(b'a', b'b', byte)
}
