// A part that few runs have.
ghost use Rattle.std.specs.Prelude.{◌≡◌, IfOk};
ghost use Rattle.runs.specs.Boxed.{unboxed};

use lists::Memory;
use std::alloc::Global;

/// Puts it on the heap, where a run has it.
pub(crate) fn boxed<T: Drop>(alloc: Global, part: Option<T>) -> Result<Option<Box<T>>, Memory>
    ensures { IfOk result (λ boxed. unboxed boxed ≡ part) }
{
    match part {
        Some(part) => Ok(Some(Box::new(alloc, part)?)),
        None => Ok(None),
    }
}
