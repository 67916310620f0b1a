//! The law of the order: what follows of the definitions of messages and worlds alone, for any number of members (Lamport
//! 1978, "Ordering the Events Totally"). Each public function has an empty body, and its contract is a law, proved like any
//! other contract.
#![tactic(auto)]

mod histories;
mod members;
mod own;
mod stamps;
mod worlds;

pub use histories::{
    a_list_of_each_members_commands_is_right, all_commands_rise, histories_of_a_group_are_right,
    the_senders_commands_are_in_a_history,
};
pub use members::{
    each_move_keeps_a_group, each_move_keeps_a_member, what_members_keep_of_the_last_delivery,
    what_was_heard_is_known,
};
pub use own::a_member_takes_its_own_messages;
pub use stamps::{sorting_by_stamp, stamps_are_totally_ordered};
pub use worlds::{
    a_founding_is_right, a_refusal_changes_nothing, all_that_was_read_is_delivered,
    each_step_keeps_a_group, events_are_played_in_turn, histories_are_always_right,
    histories_are_one,
};
