//! Tests of the crates that know no policy, by what a caller sees.
#![tactic(auto)]

#[cfg(test)]
mod tests;
