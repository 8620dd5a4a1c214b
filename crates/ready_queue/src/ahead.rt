// The next moment at which an item may be issued.
ghost use Rattle.std.specs.Prelude.{◌≡◌, ◌≤◌, ℕ, true};
ghost use Rattle.std.specs.List.{AllByRecursion};
ghost use Rattle.std.specs.Ordering.{nat_cmp};
ghost use Rattle.kinds.specs.Cells.{last_moment};
ghost use Rattle.kinds.specs.Queue.{next_item};
ghost use Rattle.ready_queue.specs.Ahead.{reached, IsFurther, Covers, CoversAll, CoversEach};
ghost use Rattle.ready_queue.specs.Ahead.{AreHeld, AreDue};
ghost use Rattle.ready_queue.specs.Held.{Group, holds};
ghost use Rattle.ready_queue.specs.Parking.{is_in, IsHeldTill, IsListedIn};

use crate::item::Group;
use crate::listed::Listed;
use crate::lot::Lot;
use crate::moment::{moment_of, sooner};
use concurrency_keys::ConcurrencyKeys;
use std::collections::{BTreeMap, BTreeSet};
use throttle::Starts;

/// What was found doesn't come after the moment.
fn reached(best: Option<u64>, moment: u64) -> bool
    ensures { result ≡ reached best moment }
{
    match best {
        Some(found) => found <= moment,
        None => false,
    }
}

/// The sooner of what was found and of the next moment of a group's first item.
fn look(
    listed: &Listed,
    group: &Group,
    t: u64,
    cells: &ConcurrencyKeys,
    throttle: &Starts,
    best: Option<u64>,
) -> Option<u64>
    requires { AreDue listed.now.items listed.now.ready t }
    ensures further { IsFurther cells.now throttle.now t listed.now.items best result }
    ensures covers { (s n : ℕ) → holds listed.now.ready.held group.now s n ≡ true
        → Covers cells.now throttle.now result group.now }
{
    let Some(item) = listed.first_of(group) else {
        return best;
    };
    sooner(best, moment_of(item, t, cells, throttle))
}

/// The same of all groups.
fn least_of_all(
    listed: &Listed,
    t: u64,
    cells: &ConcurrencyKeys,
    throttle: &Starts,
    first: Option<u64>,
) -> Option<u64>
    requires { AreDue listed.now.items listed.now.ready t }
    ensures further { IsFurther cells.now throttle.now t listed.now.items first result }
    ensures covers { CoversEach cells.now throttle.now listed.now.ready result }
{
    let mut best = first;
    for (group, _) in listed.names().iter() {
        best = look(listed, group, t, cells, throttle, best);
    }
    best
}

/// The least of the items' next moments. Looks at the first due to come and once at each group, where
/// the groups have what is due at the moment and nothing else, and else at all items.
pub(crate) fn next_of(
    listed: &Listed,
    t: u64,
    cells: &ConcurrencyKeys,
    throttle: &Starts,
) -> Option<u64>
    requires { t ≤ last_moment }
    ensures { result ≡ next_item cells.now throttle.now t listed.now.items }
{
    match listed.ripe(t) {
        Some(ahead) => least_of_all(listed, t, cells, throttle, ahead.due),
        None => listed.next(t, cells, throttle),
    }
}

/// The same of groups that are held till a moment, up to the first at which this was reached.
fn look_all(
    listed: &Listed,
    groups: &BTreeSet<Group>,
    moment: u64,
    t: u64,
    cells: &ConcurrencyKeys,
    throttle: &Starts,
    best: Option<u64>,
) -> Option<u64>
    requires due { AreDue listed.now.items listed.now.ready t }
    requires held { AllByRecursion (IsHeldTill throttle.now moment) groups.now.keys }
    ensures further { IsFurther cells.now throttle.now t listed.now.items best result }
    ensures covers { CoversAll cells.now throttle.now listed.now.ready
        (λ k. is_in k groups.now.keys ≡ true) result }
{
    let mut found = best;
    for group in groups.iter() {
        if reached(found, moment) {
            return found;
        }
        found = look(listed, group, t, cells, throttle, found);
    }
    found
}

/// The same of all groups that are held till moments, up to the first moment at which this was reached.
pub(crate) fn least_parked(
    listed: &Listed,
    later: &BTreeMap<u64, Lot>,
    t: u64,
    cells: &ConcurrencyKeys,
    throttle: &Starts,
    first: Option<u64>,
) -> Option<u64>
    requires due { AreDue listed.now.items listed.now.ready t }
    requires held { AreHeld throttle.now later.now.entries }
    ensures further { IsFurther cells.now throttle.now t listed.now.items first result }
    ensures covers { CoversAll cells.now throttle.now listed.now.ready
        (IsListedIn nat_cmp later.now.entries) result }
{
    let mut best = first;
    for (moment, groups) in later.iter() {
        if reached(best, *moment) {
            return best;
        }
        best = look_all(listed, groups.set(), *moment, t, cells, throttle, best);
    }
    best
}
