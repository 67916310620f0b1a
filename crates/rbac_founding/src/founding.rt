//! What a world is founded with.
use rbac_words::{Group, Vocabulary};

/// The numbers of a group, and the vocabulary of its policy.
#[derive(Drop)]
pub struct Founding {
    pub group: Group,
    pub vocabulary: Vocabulary,
}
