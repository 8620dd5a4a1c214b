// Strings of an event's text that stand for themselves.
ghost use Rattle.std.specs.Prelude.{◌≡◌, IfSome};
ghost use Rattle.json_text.specs.Text.{inside, unescaped};

/// The text that a string of this spelling stands for, where it has no escapes.
pub(crate) fn plain(spelling: &[u8]) -> Option<&[u8]>
    ensures { IfSome result (λ t. t.now ≡ unescaped spelling.now) }
{
    let inside = inside(spelling);
    if inside.contains(&b'\\') {
        None
    } else {
        Some(inside)
    }
}

fn inside(spelling: &[u8]) -> &[u8]
    ensures { result.now ≡ inside spelling.now }
{
    match spelling {
        [_, inside @ .., _] => inside,
        _ => &[],
    }
}
