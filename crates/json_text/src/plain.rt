// Strings without escapes.
ghost use Rattle.std.specs.Prelude.{◌≡◌, IfSome, option_map};
ghost use Rattle.json_text.specs.Plain.{is_no_escape, is_plain, plain_inside};
ghost use Rattle.json_text.specs.Text.{inside, unescaped};

/// What stands between the quotes of a string, where it has no escape and so stands for itself.
pub(crate) fn plain_text(spelling: &[u8]) -> Option<&[u8]>
    ensures place { option_map (λ text. text.now) result ≡ plain_inside spelling.now }
    ensures text { IfSome result (λ text. text.now ≡ unescaped spelling.now) }
{
    let text = inside(spelling);
    if is_plain(text) { Some(text) } else { None }
}

/// What stands between the quotes of a string.
pub(crate) fn inside(spelling: &[u8]) -> &[u8]
    ensures { result.now ≡ inside spelling.now }
{
    match spelling {
        [_, inside @ .., _] => inside,
        _ => &[],
    }
}

fn is_plain(text: &[u8]) -> bool
    ensures { result ≡ is_plain text.now }
{
    text.iter().all(|byte| is_no_escape(*byte))
}

fn is_no_escape(byte: u8) -> bool
    ensures { result ≡ is_no_escape byte }
{
    byte != b'\\'
}
