//! Rows of cells that are set once and that any thread may read, and marks: what is known of the first cells of one row.
//!
//! A member of a replicated group shows what it sent and what it delivered on rows of its own. Others read them in order and
//! keep a mark of each. No call waits, and none takes a lock.
#![tactic(auto)]

mod block;
mod mark;
mod refusal;
mod row;
mod sight;

pub use mark::Mark;
pub use refusal::SetRefusal;
pub use row::Row;
