//! A command and an answer as texts: what is read of a command's JSON object, and what is written.
#![tactic(auto)]

mod answer;
mod arrays;
pub mod keys;
mod law;
mod lines;
pub mod names;
pub mod pieces;
pub mod reading;
mod refusal;
mod writing;

pub use answer::{put_answer, put_subjects};
pub use law::{what_is_read_is_asked, written_command_is_read};
pub use lent_json::Scratch;
pub use lines::{COMMAND_ROOM, client_lines};
pub use reading::{read_asked, read_client, read_command};
pub use refusal::LineRefusal;
pub use writing::{command_word, put_command, put_commands};
