// Results of steps as they go on to later calls.
ghost use Rattle.std.specs.Prelude.{◌≡◌, IfOk};
ghost use Rattle.run_model.specs.Recording.{data_result, error_result};

use kinds::Numbers;
use lists::{Bytes, Memory};
use std::alloc::Global;

/// The result of a step that gave data.
pub(crate) fn data_result(alloc: Global, value: &[u8]) -> Result<Bytes, Memory>
    ensures { IfOk result (λ text. text ≡ data_result value.now) }
{
    let mut result = Bytes::with_room(alloc, value.len().saturating_add(9))?;
    result.extend_from_slice(b"{\"data\":")?;
    result.extend_from_slice(value)?;
    result.push(b'}')?;
    Ok(result)
}

/// The result of a step that failed.
pub(crate) fn error_result(alloc: Global, error: &[u8]) -> Result<Bytes, Memory>
    ensures { IfOk result (λ text. text ≡ error_result error.now) }
{
    let mut result = Bytes::with_room(alloc, error.len().saturating_add(10))?;
    result.extend_from_slice(b"{\"error\":")?;
    result.extend_from_slice(error)?;
    result.push(b'}')?;
    Ok(result)
}

/// A copy of numbers.
pub(crate) fn copied(alloc: Global, numbers: &[u64]) -> Result<Numbers, Memory>
    ensures { IfOk result (λ copy. copy ≡ numbers.now) }
{
    let mut copy = Numbers::new(alloc);
    for number in numbers {
        copy.push(*number)?;
    }
    Ok(copy)
}
