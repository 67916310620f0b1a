//! What is told of the policy that lines leave, or of the lines themselves.

mod differing;
mod folder;
mod lines;
mod question;

pub(crate) use differing::differ;
pub(crate) use folder::dump_to;
pub(crate) use lines::{draw, trace};
pub(crate) use question::tell;
