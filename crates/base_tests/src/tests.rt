//! What each crate below shows its callers.

mod board;
mod hashed;
mod keys;
mod lent_values;
mod plans;
mod refusals;
mod relations;
mod runs;
mod words;
