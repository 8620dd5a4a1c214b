// Events of users.
ghost use Rattle.std.specs.Prelude.{◌≡◌, ◌∷◌, ◌++◌, [], IfOk, codes, decimal};
ghost use Rattle.generator.specs.Inputs.{event, event_input};

use kinds::{EventIn, Input};
use lists::{Bytes, Items, Memory};
use std::alloc::Global;

/// The event of a user, from 0 to 6, that is this many in the order of events, from 1.
pub fn event_input(alloc: Global, user: u64, index: u32) -> Result<Input, Memory>
    ensures { IfOk result (λ input. input ≡ event_input user index) }
{
    let mut events = Items::new(alloc);
    events.push(event(alloc, user, index)?)?;
    Ok(Input::Events {
        at: 10 * u64::from(index),
        events,
    })
}

fn event(alloc: Global, user: u64, index: u32) -> Result<EventIn, Memory>
    ensures { IfOk result (λ e. e ≡ event user index) }
{
    Ok(EventIn {
        name: Bytes::from_slice(alloc, b"x")?,
        content: content(alloc, user)?,
        id: Some(id(alloc, index)?),
        ts: None,
        user: None,
        v: None,
    })
}

// `{"u":USER}`.
fn content(alloc: Global, user: u64) -> Result<Bytes, Memory>
    ensures { IfOk result (λ text. text ≡ codes "{\"u\":" ++ decimal user ++ codes "}") }
{
    let mut text = Bytes::from_slice(alloc, b"{\"u\":")?;
    text.push_decimal(user)?;
    text.push(b'}')?;
    Ok(text)
}

// `gINDEX`.
fn id(alloc: Global, index: u32) -> Result<Bytes, Memory>
    ensures { IfOk result (λ text. text ≡ codes "g" ++ decimal index) }
{
    let mut text = Bytes::from_slice(alloc, b"g")?;
    text.push_decimal(u64::from(index))?;
    Ok(text)
}
