//! One member of a group by lines: each line asks it for one thing, and is answered by one.
#![tactic(auto)]

mod answering;
mod asked;
mod laws;
mod reading;
mod running;
mod text;

pub use asked::{Asked, Brought, Question, Submission};
pub use laws::{each_sent_message_can_be_received, members_by_lines_are_right};
pub use reading::read_asked;
pub use running::run_member;
