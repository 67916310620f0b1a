//! The role hierarchy: the roles, the declared pairs of roles (RH), and what roles inherit.
#![tactic(auto)]

mod bit_order;
mod change;
mod descendant;
pub mod laws;
mod list_order;
mod order;
mod plan;
mod removal;
mod rows;
mod seniors;
mod walk;

pub use bit_order::BitOrder;
pub use change::Change;
pub use list_order::ListOrder;
pub use order::RoleOrder;
pub use plan::Plan;

/// The hierarchy that a policy keeps.
pub type Hierarchy = BitOrder;
