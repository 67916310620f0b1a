//! Why a policy answers as it does: what grants an access, and what stands in the way of a command; and what it holds of one role or user.
#![tactic(auto)]

mod after;
mod authorized;
mod chain;
mod explaining;
mod granted;
mod lists;
mod pairs;
mod told;
mod walk;

pub use authorized::authorized_roles;
pub use chain::Chain;
pub use explaining::hindrance;
pub use granted::reason;
pub use lists::{assignments_of, declarations_of, juniors, permissions_of, seniors};
pub use told::{Explained, Explanation, Reason};
