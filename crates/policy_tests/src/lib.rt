//! Tests of the parts of a policy and of the policy, by what a caller sees.
#![tactic(auto)]

#[cfg(test)]
mod tests;
