//! What is wrong with a founding file and with lines, each fault at its place: for a person who has to mend them. Whether a file or a
//! line is taken is decided by those that read it; here it is told what to look at.
#![tactic(auto)]

mod client_lines;
mod expected;
mod finding;
mod founding;
mod line;
mod members;
mod places;
mod policy;
mod schedule_lines;
mod toml_values;

pub use client_lines::{ClientLines, lint_client_lines};
pub use finding::{Finding, Place, findings_text};
pub use founding::lint_founding;
pub use policy::lint_policy;
pub use schedule_lines::{ScheduleLines, lint_schedule_lines};
