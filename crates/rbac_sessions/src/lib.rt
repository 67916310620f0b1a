//! The sessions of a policy: each by its name, with its owner and its active roles.
#![tactic(auto)]

mod change;
mod plan;
mod session;
mod sessions;

pub use plan::{Change, Plan};
pub use session::Session;
pub use sessions::{SessionTest, Sessions};
