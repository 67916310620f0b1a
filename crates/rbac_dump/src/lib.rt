//! A policy told as commands: its dump, as the commands are called that make what a database holds again, and these as
//! client lines. A restart that plays them forgets nothing, without the history that led to the policy.
#![tactic(auto)]

mod dump;
mod dump_text;
pub mod laws;
mod parts;
mod telling;

pub use dump::commands_of;
pub use dump_text::dump_lines;
