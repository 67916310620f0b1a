//! A number for each key, by which it is looked for first. Keys of one digest may differ.
#![tactic(auto)]

mod digest;

pub use digest::{Digest, mixed};
