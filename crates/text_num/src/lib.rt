//! Numbers as texts: whole numbers, durations, and decimals as multiples of 10^-18.
//! Stands on `itoa` alone, takes no memory, and promises the value or the fault of each text by the
//! text's grammar.
#![tactic(auto)]

mod digits;
mod duration;
mod fault;
mod laws;
mod mantissa;
mod number;
mod units;

pub use digits::{read_u64, split_digits, split_fraction};
pub use duration::read_duration;
pub use fault::NumFault;
pub use laws::units_of_a_number;
pub use units::{put_units, read_units};

#[cfg(test)]
mod tests;
