//! Commands as texts.

mod by_kind;
mod command;
mod command_array;
mod fields;
mod reviews;

pub use command::{command_word, put_command};
pub use command_array::put_commands;
