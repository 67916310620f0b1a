//! The words of a policy: names, sets of names, vocabulary, commands, reviews and answers. Its `specs/` are the book of what a
//! policy answers, that every crate above cites.
#![tactic(auto)]

pub mod answer;
pub mod command;
pub mod hierarchy_kind;
pub mod limits;
pub mod name;
pub mod name_set;
pub mod permission_set;
pub mod review;
pub mod separation;
pub mod vocabulary;

pub use answer::{Answer, Denial};
pub use command::Command;
pub use hierarchy_kind::HierarchyKind;
pub use name::{LentName, Name, NameRefusal};
pub use name_set::NameSet;
pub use permission_set::PermissionSet;
pub use review::Review;
pub use separation::Separation;
pub use vocabulary::{Vocabulary, VocabularyRefusal};
