//! Tests of the program, but for its standard streams, and of one member by calls and by lines, by what a caller sees.
#![tactic(auto)]

#[cfg(test)]
mod tests;
