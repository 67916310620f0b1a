//! Changes of a role hierarchy.
use rbac_terms::Name;

/// One change of a role hierarchy.
#[derive(Clone, Copy)]
pub enum Change<'a> {
    AddRole {
        role: &'a Name,
    },
    RemoveRole {
        role: &'a Name,
    },
    Declare {
        ascendant: &'a Name,
        descendant: &'a Name,
    },
    Retract {
        ascendant: &'a Name,
        descendant: &'a Name,
    },
}

// A change with names of its own, where it puts them into the hierarchy.
#[derive(Drop)]
pub enum Step<'a> {
    AddRole {
        role: Name,
    },
    RemoveRole {
        role: &'a Name,
    },
    Declare {
        ascendant: Name,
        descendant: Name,
    },
    Retract {
        ascendant: &'a Name,
        descendant: &'a Name,
    },
}
