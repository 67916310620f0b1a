//! Why a cell was not set.

use std::fmt;
use std::fmt::{Debug, Formatter};
use thiserror::Error;

/// Why a cell was not set, in the order of the checks. The box comes back.
#[derive(Drop, Error)]
pub enum SetRefusal<T> {
    /// The row has no such place.
    #[error("the row has no such place")]
    RowFull(Box<T>),
    /// The cell holds a value already, which may be one that the mark does not know.
    #[error("the cell holds a value already")]
    Taken(Box<T>),
    /// The mark can't grow, or the cell's block gets no memory. This is found out before the cell is tried, so the cell may hold
    /// a value too.
    #[error("no memory")]
    NoMemory(Box<T>),
}

// What is in the box is not shown, so that it need not be `Debug`.
impl<T> Debug for SetRefusal<T> {
    fn fmt<W: fmt::Write>(&self, f: &mut Formatter<W>) -> fmt::Result {
        f.write_str(match self {
            SetRefusal::RowFull(_) => "RowFull(..)",
            SetRefusal::Taken(_) => "Taken(..)",
            SetRefusal::NoMemory(_) => "NoMemory(..)",
        })
    }
}
