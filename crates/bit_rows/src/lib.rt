//! A relation on numbers, as a row of bits for each number.
#![tactic(auto)]

mod relation;
mod row;
mod rows;

pub use relation::Relation;
