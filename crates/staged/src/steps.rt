//! Steps, of which one alone takes no memory but its own.

// Most plans have one step.
#[derive(Drop)]
pub enum Steps<T> {
    Empty,
    One(T),
    Several(Vec<T>),
}
