// The place of a byte in a text.
ghost use Rattle.std.specs.Prelude.{◌≡◌, ◌==◌, position};

/// The first place of a byte in a text.
pub fn find_byte(text: &[u8], wanted: u8) -> Option<usize>
    ensures { result ≡ position (λ byte. byte == wanted) text.now }
{
    text.iter().position(|byte| *byte == wanted)
}
