//! Separation of duty: named sets of roles, each with a number, that constrain which roles may come together.
#![tactic(auto)]

mod change;
mod count_plan;
mod counts;
mod numbered;
mod role_set;
mod row;
mod set_plan;
mod set_table;

pub use count_plan::{CountPlan, Numbering};
pub use counts::Counts;
pub use role_set::RoleSet;
pub use row::{Row, number_at};
pub use set_plan::{SetChange, SetPlan};
pub use set_table::SetTable;
