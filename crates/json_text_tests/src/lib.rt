//! Examples of `json_text`, in a crate of their own so that its proof isn't made twice.
#![tactic(auto)]

#[cfg(test)]
mod tests;
