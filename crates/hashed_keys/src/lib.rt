//! Maps in which an entry is found by its key's digest, and that list their entries in the order of their keys.
#![tactic(auto)]

mod hints;
mod key_set;
mod map;
mod pairs;

pub use key_set::KeySet;
pub use map::{EachChange, HashedMap};
pub use pairs::HashedPairs;
