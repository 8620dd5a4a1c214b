// The dues beside a list.
ghost use Rattle.std.specs.Prelude.{◌≡◌, find, None, OnOk, OnErr};
ghost use Rattle.std.specs.List.{slice_get};
ghost use Rattle.lists.specs.Entries.{has};
ghost use Rattle.kinds.specs.Stores.{due_number};
ghost use Rattle.timers.specs.Dues.{put_due};

use kinds::Due;
use lists::Memory;
use timers::Timers;

/// Adds a due, where there is one.
pub(crate) fn put_due(
    dues: &mut Timers,
    due: Option<u64>,
    number: u64,
    run: u64,
) -> Result<(), Memory>
    requires { find (has due_number number) dues.old ≡ None }
    ensures ok { OnOk result (dues.new ≡ put_due due number run dues.old) }
    ensures err { OnErr result (dues.new ≡ dues.old) }
{
    match due {
        Some(due) => dues.put(due, number, run),
        None => Ok(()),
    }
}

/// The least by due and number.
pub(crate) fn first_of(dues: &Timers) -> Option<Due>
    ensures { result ≡ slice_get dues.now 0 }
{
    let mut entries = dues.entries();
    match entries.next() {
        Some(due) => Some(*due),
        None => None,
    }
}
