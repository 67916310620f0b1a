//! How much there may be of each thing. Here the code has its limits, and nowhere else; contracts cite the book's own numbers.

/// The most bytes of a name.
pub const LONGEST_NAME: usize = 64;

pub const MOST_USERS: usize = 4_096;

pub const MOST_ROLES: usize = 1_024;

pub const MOST_SESSIONS: usize = 8_192;

/// Of each kind of separation.
pub const MOST_SETS: usize = 256;

pub const MOST_OPERATIONS: usize = 256;

pub const MOST_OBJECTS: usize = 4_096;

pub const MOST_PERMISSIONS: usize = 16_384;
