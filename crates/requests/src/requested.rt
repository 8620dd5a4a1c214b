// What a request comes to.
use kinds::{Input, Out};

/// What a request comes to.
#[derive(Drop)]
pub enum Requested {
    /// An input, which the machine still may refuse.
    Input(Input),
    /// An answer that is given at once: the body is refused, or asks for nothing.
    Answered(Out),
}
