// A registration, to an input or an answer.
ghost use Rattle.std.specs.Prelude.{◌≡◌, Some, IfOk};
ghost use Rattle.requests.specs.Requests.{register_request};

use crate::Requested;
use kinds::Input;
use lists::Memory;
use registry::read_app;
use std::alloc::Global;

/// Reads a registration, with the clock reading that it came at, in milliseconds since 1970. A body that is
/// refused is answered at once.
pub fn read_register_request(alloc: Global, at: u64, body: &[u8]) -> Result<Requested, Memory>
    ensures { IfOk result (λ requested. register_request at body.now ≡ Some requested) }
{
    match read_app(alloc, body) {
        Ok(app) => Ok(Requested::Input(Input::Register { at, app })),
        Err(fault) => Ok(Requested::Answered(fault.answer(alloc)?)),
    }
}
