//! The policy of ANSI INCITS 359-2004, and what each command answers and changes.
#![tactic(auto)]

mod authorization;
mod both;
mod breaking;
mod counting;
mod ending;
mod gains;
mod gathered;
mod hindrance;
mod named;
mod policy;
mod tables;
mod touched;

pub use gathered::Ground;
pub use hindrance::{Hindrance, Obstacle};
pub use named::{Counted, Named};
pub use policy::Policy;
pub use rbac_review::Subjects;
pub use rbac_separation::RoleSet;
pub use rbac_sessions::Session;
