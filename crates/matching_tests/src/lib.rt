//! Examples of `wait_index` and `cancel_rules`, in one crate of their own: what both need is there once.
#![tactic(auto)]

#[cfg(test)]
mod cancelling;
#[cfg(test)]
mod matcher;
#[cfg(test)]
mod waiting;
