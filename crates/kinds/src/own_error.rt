// The error object of the server's own errors.
ghost use Rattle.std.specs.Prelude.{◌≡◌, IfOk};
ghost use Rattle.kinds.specs.ErrorObject.{error_object};

use lists::{Bytes, Memory};
use std::alloc::Global;

/// The error that the server itself gives a step or a run: `{"name":"Error","message":"MESSAGE"}`. The
/// message has no `"`, `\` or control byte.
pub fn error_object(alloc: Global, message: &[u8]) -> Result<Bytes, Memory>
    ensures { IfOk result (λ text. text ≡ error_object message.now) }
{
    let mut text = Bytes::from_slice(alloc, b"{\"name\":\"Error\",\"message\":\"")?;
    text.extend_from_slice(message)?;
    text.extend_from_slice(b"\"}")?;
    Ok(text)
}
