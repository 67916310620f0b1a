//! What lines leave: client lines applied to one policy, a schedule told or drawn line by line, and the commands that lead from one
//! policy to another.
#![tactic(auto)]

mod applying;
mod leading;
mod reading;
mod tracing;

pub use applying::Served;
pub use leading::{LeadingRefusal, commands_between};
pub use reading::{apply_lines, draw_lines, trace_lines};
pub use tracing::Drawn;
