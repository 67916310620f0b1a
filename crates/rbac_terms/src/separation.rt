//! The two kinds of separation of duty.

/// A kind of separation of duty (ANSI INCITS 359-2004, 5.3): static (SSD), of what a user is authorized for, or dynamic (DSD),
/// of what is active in a session.
#[derive(Clone, Copy, Debug, PartialEq, Eq, Drop)]
pub enum Separation {
    Static,
    Dynamic,
}
