// The names of steps.
ghost use Rattle.std.specs.Prelude.{◌≡◌, true};
ghost use Rattle.std.specs.List.{list_all};
ghost use Rattle.sha1.specs.Sha1.{sha1};
ghost use Rattle.step_ids.specs.Step.{hashed_text, step_name, is_lower_digit, is_step_name};

use sha1::Sha1;

/// The name of a step: the SHA-1 (FIPS 180-4) of its id in lower-case hexadecimal. `use_number` counts the earlier
/// steps of this run with this id; from 1 on, what is hashed is the id, `:` and that number.
pub fn step_hash(id: &[u8], use_number: u64) -> [u8; 40]
    ensures name { result ≡ step_name id.now use_number }
    // the test below takes every name that is made
    ensures form { is_step_name result ≡ true }
{
    let mut name = [0; 40];
    let _ = hex::encode_to_slice(digest(id, use_number), &mut name);
    name
}

fn digest(id: &[u8], use_number: u64) -> [u8; 20]
    ensures { result ≡ sha1 (hashed_text id.now use_number) }
{
    let mut hasher = Sha1::new();
    hasher.update(id);
    if use_number > 0 {
        let mut digits = itoa::Buffer::new();
        hasher.update(b":");
        hasher.update(digits.format(use_number).as_bytes());
    }
    hasher.finalize()
}

/// Whether a text has the form of a step's name: forty hexadecimal digits in lower case.
pub fn is_step_hash(text: &[u8]) -> bool
    ensures { result ≡ is_step_name text.now }
{
    text.len() == 40 && are_lower_hex(text)
}

// Goes through all bytes, whatever they are, so that many are tested at once.
fn are_lower_hex(text: &[u8]) -> bool
    ensures { result ≡ list_all is_lower_digit text.now }
{
    let mut all = true;
    for byte in text {
        all &= is_lower_hex(*byte);
    }
    all
}

fn is_lower_hex(byte: u8) -> bool
    ensures { result ≡ is_lower_digit byte }
{
    matches!(byte, b'0'..=b'9' | b'a'..=b'f')
}
