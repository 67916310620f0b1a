//! What is read of messages and commands, what is written of messages and records, and that the one gives back the other.

mod bounds;
mod reading;
mod refusals;
mod writing;
