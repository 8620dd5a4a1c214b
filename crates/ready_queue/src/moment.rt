// When one item may next be issued.
ghost use Rattle.std.specs.Prelude.{◌≡◌};
ghost use Rattle.kinds.specs.Cells.{IsStart};
ghost use Rattle.kinds.specs.Queue.{moment_of, sooner};

use concurrency_keys::ConcurrencyKeys;
use kinds::Item;
use throttle::Starts;

/// When the item may next be issued: at its due, where this is to come, and else at the release of its
/// start, where it waits for one and its cells are free.
pub(crate) fn moment_of(
    item: &Item,
    t: u64,
    cells: &ConcurrencyKeys,
    throttle: &Starts,
) -> Option<u64>
    requires { IsStart item.now.start }
    ensures { result ≡ moment_of cells.now throttle.now t item.now }
{
    if item.due > t {
        return Some(item.due);
    }
    match &item.start {
        Some(start) => {
            if cells.free(&item.cells) {
                Some(throttle.release_moment(start.get()))
            } else {
                None
            }
        }
        None => None,
    }
}

pub(crate) fn sooner(a: Option<u64>, b: Option<u64>) -> Option<u64>
    ensures { result ≡ sooner a b }
{
    match (a, b) {
        (Some(a), Some(b)) => Some(a.min(b)),
        (Some(a), None) => Some(a),
        (None, b) => b,
    }
}
