//! The commands that a member of a group holds back until no command with a smaller stamp can come (Lamport 1978,
//! "Ordering the Events Totally": the request queue).
#![tactic(auto)]

mod held_queue;
mod holdback;
mod list_held;
mod passing;

pub use held_queue::HeldQueue;
pub use holdback::Holdback;
pub use list_held::ListHeld;
pub use rbac_words::Submission as Held;
