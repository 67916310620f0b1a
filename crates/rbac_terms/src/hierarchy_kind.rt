//! The two kinds of role hierarchy.
ghost use Rattle.std.specs.Prelude.{◌≡◌};
ghost use Rattle.rbac_terms.specs.Vocabulary.{is_limited};

/// A kind of role hierarchy (ANSI INCITS 359-2004, 5.2), fixed by the vocabulary: general, where a role may have any number of
/// declared descendants, or limited, where it has at most one.
#[derive(Clone, Copy, Debug, PartialEq, Eq, Drop)]
pub enum HierarchyKind {
    General,
    Limited,
}

impl HierarchyKind {
    /// Whether a role has at most one declared descendant.
    pub fn is_limited(self) -> bool
        ensures { result ≡ is_limited self }
    {
        matches!(self, HierarchyKind::Limited)
    }
}
