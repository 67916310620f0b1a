//! Tests of members, their groups and what they read and write, by what a caller sees.
#![tactic(auto)]

#[cfg(test)]
mod tests;
