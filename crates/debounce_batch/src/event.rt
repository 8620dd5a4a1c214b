// What an event does to one window.
ghost use Rattle.std.specs.Prelude.{◌≡◌, ◌≤◌, ◌∷◌, ◌++◌, [], true, Some, IfOk, length};
ghost use Rattle.std.specs.Option.{IfSome};
ghost use Rattle.kinds.specs.declared.window.Offered.TheVariants.{Waits, Full};
ghost use Rattle.kinds.specs.Windows.{number_of, kind_of, due_of, events_of, debounce_due, opened, joined, is_full, has_room, IsRule, IsDated, last_moment, longest_span};

use kinds::{Debounce, Numbers, Offered, Window, WindowRule};
use lists::{Bytes, Memory};
use std::alloc::Global;

/// When a debounce is due whose last event came at `t` and whose first came at `first`.
fn debounce_due(rule: &Debounce, first: u64, t: u64) -> u64
    requires period { rule.now.period ≤ longest_span }
    requires timeout { IfSome rule.now.timeout (λ timeout. timeout ≤ longest_span) }
    requires first { first ≤ last_moment }
    requires moment { t ≤ last_moment }
    ensures { result ≡ debounce_due rule.now first t }
{
    let due = t + rule.period;
    match rule.timeout {
        Some(timeout) => due.min(first + timeout),
        None => due,
    }
}

/// The window that an event opens.
pub(crate) fn opened(
    alloc: Global,
    rule: &WindowRule,
    version: u64,
    value: &Bytes,
    event: u64,
    t: u64,
    number: u64,
) -> Result<Window, Memory>
    requires rule { IsRule rule.now }
    requires moment { t ≤ last_moment }
    ensures window { IfOk result (λ w. w ≡ opened rule.now version value.now event t number) }
    ensures dated { IfOk result IsDated }
{
    let value = value.clone()?;
    match rule {
        WindowRule::Debounce(rule) => Ok(Window::Debounce {
            number,
            version,
            value,
            event,
            first: t,
            due: debounce_due(rule, t, t),
        }),
        WindowRule::Batch(rule) => Ok(Window::Batch {
            number,
            version,
            value,
            events: only(alloc, event)?,
            due: t + rule.timeout,
        }),
    }
}

fn only(alloc: Global, event: u64) -> Result<Numbers, Memory>
    ensures { IfOk result (λ events. events ≡ event ∷ []) }
{
    let mut events = Numbers::new(alloc);
    events.push(event)?;
    Ok(events)
}

/// The window after one event more, of the rule's kind.
pub(crate) fn joined(
    rule: &WindowRule,
    event: u64,
    t: u64,
    window: &Window,
) -> Result<Window, Memory>
    requires rule { IsRule rule.now }
    requires moment { t ≤ last_moment }
    requires dated { IsDated window.now }
    requires room { has_room rule.now (Some window.now) ≡ true }
    ensures window { IfOk result (λ w. w ≡ joined rule.now event t window.now) }
    ensures dated { IfOk result IsDated }
{
    match window {
        Window::Debounce {
            number,
            version,
            value,
            first,
            ..
        } => Ok(Window::Debounce {
            number: *number,
            version: *version,
            value: value.clone()?,
            event,
            first: *first,
            due: match rule {
                WindowRule::Debounce(rule) => debounce_due(rule, *first, t),
                WindowRule::Batch(_) => unreachable!(),
            },
        }),
        Window::Batch {
            number,
            version,
            value,
            events,
            due,
        } => Ok(Window::Batch {
            number: *number,
            version: *version,
            value: value.clone()?,
            events: with_event(events, event)?,
            due: *due,
        }),
    }
}

fn with_event(events: &Numbers, event: u64) -> Result<Numbers, Memory>
    ensures { IfOk result (λ all. all ≡ events.now ++ event ∷ []) }
{
    let mut all = events.clone()?;
    all.push(event)?;
    Ok(all)
}

/// Whether a window has all the events that its rule has room for.
pub(crate) fn is_full(rule: &WindowRule, window: &Window) -> bool
    ensures { result ≡ is_full rule.now window.now }
{
    match rule {
        WindowRule::Debounce(_) => false,
        WindowRule::Batch(rule) => count(window) >= usize::from(rule.size),
    }
}

fn count(window: &Window) -> usize
    ensures { result ≡ length (events_of window.now) }
{
    match window {
        Window::Debounce { .. } => 1,
        Window::Batch { events, .. } => events.len(),
    }
}

/// What the sender of an event is told while its window is open.
pub(crate) fn waits(window: &Window) -> Offered
    ensures { result ≡ Waits (number_of window.now) (due_of window.now) }
{
    match window {
        Window::Debounce { number, due, .. } | Window::Batch { number, due, .. } => Offered::Waits {
            number: *number,
            due: *due,
        },
    }
}

/// What the sender of the event is told that closes a batch.
pub(crate) fn closed(window: Window) -> Offered
    requires { kind_of window ≡ 1 }
    ensures { result ≡ Full (number_of window) (events_of window) }
{
    match window {
        Window::Debounce { .. } => unreachable!(),
        Window::Batch { number, events, .. } => Offered::Full { number, events },
    }
}
