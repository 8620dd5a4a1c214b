//! Examples of the run of generated inputs: it is compared with the run of a script that has the same inputs.
#![tactic(auto)]

#[cfg(test)]
mod tests;
