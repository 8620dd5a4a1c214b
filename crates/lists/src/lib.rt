//! Byte strings and lists that contracts see as the lists of their items, and the one answer that is
//! always free. Every crate that keeps bytes stands on this one, and this one on std and `itoa` alone.
#![tactic(auto)]

mod bytes;
mod items;
mod memory;

pub use bytes::Bytes;
pub use items::Items;
pub use memory::Memory;

#[cfg(test)]
mod tests;
