//! Examples of `rig`, in a crate of their own: so its proof isn't made a second time with them.
#![tactic(auto)]

#[cfg(test)]
mod disk_tests;
#[cfg(test)]
mod tests;
