//! The versions of the founding file.

/// A version of the founding file: the first has no word on the role hierarchy, which is general; the second names its kind.
#[derive(Clone, Copy, Drop)]
pub(crate) enum Version {
    First,
    Second,
}
