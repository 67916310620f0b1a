//! The reviews of a policy: what its sets list, over the parts of a policy that are lent together. Each list is a set of what
//! exists, so it is sorted and without repeats; a review of what does not exist lists nothing.
#![tactic(auto)]

mod hashed;
mod operations;
mod parts;
mod permissions;
mod sessions;
mod sets;
mod subjects;
mod users;

pub use parts::Parts;
pub use subjects::Subjects;
