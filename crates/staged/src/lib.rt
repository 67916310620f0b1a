//! Changes in two halves: a plan, which may want memory and changes nothing, and its commit, which makes the changes and wants none.
#![tactic(auto)]

mod entries;
mod entry_map;
mod plan;
mod staged;
mod steps;

pub use entries::{EntryChange, Found};
pub use plan::Plan;
pub use staged::{Staged, commit, make_plan};
