//! A box as its address and the right to it, for those who keep a value where no box can lie.
#![tactic(auto)]

pub mod loose;

pub use loose::Loose;
