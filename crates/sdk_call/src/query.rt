// The query of a call.
ghost use Rattle.std.specs.Prelude.{◌≡◌, ◌++◌, ◌≤◌, ◌<◌, ◌+◌, ◌∷◌, [], IfOk, OnOk, length, filter, if◌then◌else◌};
ghost use Rattle.std.specs.Option.{option_map};
ghost use Rattle.sdk_call.specs.Query.{until, cut_at, pieces, is_kept, call_query, ended, pieces_left, bytes_left, behind_first};

use lists::{Bytes, Memory};

/// Adds the query of a call: the pieces of the registered query but for the two that each call has its
/// own of, and these.
pub(crate) fn push_query(
    text: &mut Bytes,
    query: &[u8],
    id: &[u8],
    target: &[u8],
) -> Result<(), Memory>
    ensures { OnOk result (text.new ≡ text.old ++ call_query query.now id.now target.now) }
{
    push_kept(text, query)?;
    text.extend_from_slice(b"fnId=")?;
    text.extend_from_slice(id)?;
    text.extend_from_slice(b"&stepId=")?;
    text.extend_from_slice(target)?;
    Ok(())
}

/// Adds the pieces that are kept, each with a `&` behind it.
fn push_kept(text: &mut Bytes, query: &[u8]) -> Result<(), Memory>
    ensures { OnOk result (text.new ≡ text.old ++ ended (filter is_kept (pieces query.now))) }
{
    let mut left = if query.is_empty() { None } else { Some(query) };
    while let Some(rest) = left {
        left = push_piece(text, rest)?;
    }
    Ok(())
}

/// Adds the first piece of what is left of a query, where it is kept, and gives what is left behind it.
fn push_piece<'a>(text: &mut Bytes, rest: &'a [u8]) -> Result<Option<&'a [u8]>, Memory>
    ensures text { IfOk result
        (λ left. text.new ++ ended (filter is_kept (pieces_left (option_map (λ t. t.now) left))) ≡
        text.old ++ ended (filter is_kept (cut_at 38 rest.now))) }
    ensures fewer { IfOk result
        (λ left. bytes_left (option_map (λ t. t.now) left) < length rest.now + 1) }
{
    let end = until(rest, b'&');
    let (piece, behind) = rest.split_at(end);
    push_own(text, piece)?;
    Ok(behind_first(behind))
}

/// Adds a piece, where it is kept, with a `&` behind it.
fn push_own(text: &mut Bytes, piece: &[u8]) -> Result<(), Memory>
    ensures { OnOk result
        (text.new ≡ (if is_kept piece.now then text.old ++ piece.now ++ 38 ∷ [] else text.old)) }
{
    if is_kept(piece) {
        text.extend_from_slice(piece)?;
        text.push(b'&')?;
    }
    Ok(())
}

/// What stands behind the first byte, where there is one.
fn behind_first(text: &[u8]) -> Option<&[u8]>
    ensures value { option_map (λ t. t.now) result ≡ behind_first text.now }
    ensures fewer { bytes_left (option_map (λ t. t.now) result) ≤ length text.now }
{
    match text.split_first() {
        Some((_, behind)) => Some(behind),
        None => None,
    }
}

/// Whether a piece names neither of the two.
fn is_kept(piece: &[u8]) -> bool
    ensures { result ≡ is_kept piece.now }
{
    let (name, _) = piece.split_at(until(piece, b'='));
    !(name == b"fnId".as_slice() || name == b"stepId".as_slice())
}

/// How many bytes stand before the first one of this kind.
fn until(text: &[u8], byte: u8) -> usize
    ensures value { result ≡ until byte text.now }
    ensures within { result ≤ length text.now }
{
    for (index, found) in text.iter().enumerate() {
        if *found == byte {
            return index;
        }
    }
    text.len()
}
