//! How much a founding file may hold beside what a group and a vocabulary may.

/// The most bytes that a file has.
pub const LONGEST_FILE: usize = 1_048_576;
