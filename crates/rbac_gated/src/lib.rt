//! Members whose memory is ahead of their rows: a message is taken while it is being set, so that those of others which it acknowledges are
//! taken meanwhile, and nothing is delivered that is later than what is set. The law is a public function with an empty body, proved like
//! any other contract.
#![tactic(auto)]

mod laws;

pub use laws::what_was_told_behind_a_gate_stays_right;
