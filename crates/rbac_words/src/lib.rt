//! The words of the order: stamps, messages, records, events and groups, and with them all words of a policy. Its `specs/` are the
//! book of the order, that every crate of members cites.
#![tactic(auto)]

pub mod commands;
pub mod event;
pub mod group;
pub mod limits;
pub mod message;
pub mod record;
pub mod shared_command;
pub mod stamp;

pub use commands::Commands;
pub use event::{Event, Outcome, Refusal};
pub use group::{Group, GroupRefusal};
pub use message::{Message, Submission};
pub use rbac_terms::{
    Answer, Command, Denial, HierarchyKind, Name, NameRefusal, NameSet, PermissionSet, Review,
    Separation, Vocabulary, VocabularyRefusal,
};
pub use record::Record;
pub use shared_command::SharedCommand;
pub use stamp::Stamp;
