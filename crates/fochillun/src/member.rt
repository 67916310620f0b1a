//! One member of a group in a place that the caller owns.

pub(crate) mod calls;
pub(crate) mod place;
mod slot;
