//! One member of a group for a program that brings it the messages of the others: stepped by bytes and numbers, each step with a number,
//! and what it sent and delivered, or would send, as texts.
#![tactic(auto)]

mod holder;
mod kept;
mod laws;
mod observing;
pub mod reviews;
mod status;
pub mod steps;
pub mod texts;
mod waiting;

pub use holder::MemberHolder;
pub use kept::KeptMember;
pub use laws::{
    an_observing_place_sends_nothing, each_sent_message_can_be_read,
    members_that_are_called_are_right, what_an_observer_shows_is_right,
    what_was_told_by_rows_stays_right,
};
pub use status::MemberStatus;
pub use waiting::{Waiting, waits_of};
