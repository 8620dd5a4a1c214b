// Results that the server makes of errors.
ghost use Rattle.std.specs.Prelude.{◌≡◌, IfOk};
ghost use Rattle.runs.specs.Changes.{error_result, state_too_large};

use kinds::error_object;
use lists::{Bytes, Memory};
use std::alloc::Global;

/// The result of a step that failed, as later calls get it: `{"error":ERROR}`.
pub fn error_result(alloc: Global, error: &[u8]) -> Result<Bytes, Memory>
    ensures { IfOk result (λ text. text ≡ error_result error.now) }
{
    let mut text = Bytes::from_slice(alloc, b"{\"error\":")?;
    text.extend_from_slice(error)?;
    text.extend_from_slice(b"}")?;
    Ok(text)
}

/// What is recorded in place of a result that is too large.
#[tactic(auto, unfolding(crate::specs::Changes::state_too_large))]
pub(crate) fn state_too_large(alloc: Global) -> Result<Bytes, Memory>
    ensures { IfOk result (λ text. text ≡ state_too_large) }
{
    let error = error_object(alloc, b"run state too large")?;
    error_result(alloc, error.as_slice())
}
