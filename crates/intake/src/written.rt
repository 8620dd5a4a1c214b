// The text that an accepted event goes on as.
ghost use Rattle.std.specs.Prelude.{◌≡◌, ◌++◌, IfOk, OnOk};
ghost use Rattle.intake.specs.Events.{event_text, further_member, id_text, ts_text};

use json_text::put_text;
use kinds::EventIn;
use lists::{Bytes, Memory};
use std::alloc::Global;

/// The text that an accepted event goes on as, with its number and its moment in milliseconds since
/// 1970: `{"name":N,"data":D,"id":I,"ts":T,"user":U,"v":V}`, the last two only where the source has
/// them. It is kept as long as the event, and has no more room than its length.
pub fn event_text(alloc: Global, event: &EventIn, number: u64, moment: u64) -> Result<Bytes, Memory>
    ensures { IfOk result (λ text. text ≡ event_text number moment event.now) }
{
    let grown = grown_text(alloc, event, number, moment)?;
    Bytes::from_slice(alloc, grown.as_slice())
}

/// The text in the room that it came to as it grew, up to twice its length.
#[tactic(auto, unfolding(crate::specs::Events::event_text))]
fn grown_text(alloc: Global, event: &EventIn, number: u64, moment: u64) -> Result<Bytes, Memory>
    ensures { IfOk result (λ text. text ≡ event_text number moment event.now) }
{
    let mut text = Bytes::from_slice(alloc, b"{\"name\":")?;
    put_text(&mut text, event.name.as_slice())?;
    text.extend_from_slice(b",\"data\":")?;
    text.extend_from_slice(event.content.as_slice())?;
    text.extend_from_slice(b",\"id\":")?;
    put_id(&mut text, number, &event.id)?;
    text.extend_from_slice(b",\"ts\":")?;
    put_ts(&mut text, moment, &event.ts)?;
    put_further(&mut text, b"user", &event.user)?;
    put_further(&mut text, b"v", &event.v)?;
    text.extend_from_slice(b"}")?;
    Ok(text)
}

/// Adds the source's id, or the event's own.
fn put_id(text: &mut Bytes, number: u64, id: &Option<Bytes>) -> Result<(), Memory>
    ensures { OnOk result (text.new ≡ text.old ++ id_text number id.now) }
{
    match id {
        Some(id) => put_text(text, id.as_slice()),
        None => {
            text.extend_from_slice(b"\"evt-")?;
            text.push_decimal(number)?;
            text.extend_from_slice(b"\"")
        }
    }
}

/// Adds the source's time, or the moment, in milliseconds since 1970.
fn put_ts(text: &mut Bytes, moment: u64, ts: &Option<Bytes>) -> Result<(), Memory>
    ensures { OnOk result (text.new ≡ text.old ++ ts_text moment ts.now) }
{
    match ts {
        Some(ts) => text.extend_from_slice(ts.as_slice()),
        None => text.push_decimal(moment),
    }
}

/// Adds a member behind the others, where there is a value.
fn put_further(text: &mut Bytes, name: &[u8], value: &Option<Bytes>) -> Result<(), Memory>
    ensures { OnOk result (text.new ≡ text.old ++ further_member name.now value.now) }
{
    let Some(value) = value else {
        return Ok(());
    };
    text.extend_from_slice(b",\"")?;
    text.extend_from_slice(name)?;
    text.extend_from_slice(b"\":")?;
    text.extend_from_slice(value.as_slice())
}
