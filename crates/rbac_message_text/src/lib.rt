//! A message between members, and a record of a history, as texts; and what is read of a message's text.
#![tactic(auto)]

mod reading;
mod record;
mod stamp;
mod writing;

pub use rbac_text::{LineRefusal, Scratch};
pub use reading::{LONGEST_MESSAGE, message_of, read_commands, read_message, read_shared};
pub use record::put_record;
pub use stamp::put_stamp;
pub use writing::{put_acknowledgement, put_batch, put_message};

#[cfg(test)]
mod tests;
