//! The users and roles of a policy, the pairs of both (UA) and the permissions that are granted to roles (PA).
#![tactic(auto)]

mod change;
mod granting;
mod plan;
mod removal;
mod role_sets;

pub use change::Change;
pub use plan::Plan;
pub use role_sets::RoleSets;
