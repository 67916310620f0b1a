//! A policy for a program that calls it in its own process: opened, changed and asked by bytes, and answered by texts and numbers.
#![tactic(auto)]

pub mod buffer;
pub mod explaining;
mod holder;
mod monitor;
pub mod status;
pub mod subjects;
pub mod verdict;

pub use holder::Holder;
pub use monitor::Monitor;
pub use status::Status;
pub use verdict::Verdict;
