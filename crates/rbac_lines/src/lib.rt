//! Lines of JSON as events, what came of them as lines of JSON, and a whole input played on a world; and client lines, which a
//! desk answers.
#![tactic(auto)]

mod conversing;
mod desk;
mod playing;
pub mod reading;
mod refusal;
mod running;
mod text;

pub use conversing::converse;
pub use desk::Desk;
pub use line_engine::{RunFault, Summary, Watched, watch};
pub use rbac_founding::{Founding, FoundingRefusal, read_founding, sample_founding};
pub use rbac_text::{LineRefusal, Scratch, put_answer, read_client, read_command};
pub use reading::{kept_line_asks_the_same, read_line};
pub use refusal::DeskRefusal;
pub use running::{MOST_READS, run};
pub use text::{put_refused, put_refused_line, refuse};
