//! Examples of `admission`, in a crate of their own: so its proof isn't made a second time with them.
#![tactic(auto)]

#[cfg(test)]
mod tests;
