// A current function.
use kinds::Function;
use lists::Bytes;

/// A function that is current: its version, from 1, which no other function ever has, and the name of the
/// application that registered it.
#[derive(Drop)]
pub struct FunctionEntry {
    /// From 1.
    pub version: u64,
    /// The name of the application.
    pub app: Bytes,
    /// The function as it was registered.
    pub function: Function,
}
