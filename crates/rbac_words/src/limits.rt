//! How much there may be of each thing of a group. Here the code has these limits, and nowhere else; contracts cite the book's
//! own numbers.

pub const MOST_MEMBERS: u32 = 8;

/// The largest whole number below 2^53.
pub const LAST_CLOCK: u64 = 9_007_199_254_740_991;

/// The most commands of one message.
pub const MOST_COMMANDS: usize = 64;

/// The most messages that a member may ever send, of which a founding may allow fewer.
pub const MOST_SENT: u32 = 65_536;
