//! A group of members, the events that happen to it, and that each history is right.
#![tactic(auto)]

mod moves;
mod playing;
mod step;
mod world;

pub use playing::{Stopped, play};
pub use rbac_words::{Event, Outcome, Refusal};
pub use world::World;
