//! The parts of a policy that a review looks at.
ghost use Rattle.std.specs.Prelude.{◌≡◌};
ghost use Rattle.rbac_terms.specs.Constraints.{sets_of};

use rbac_hierarchy::Hierarchy;
use rbac_rolesets::RoleSets;
use rbac_separation::SetTable;
use rbac_sessions::Sessions;
use rbac_terms::{Separation, Vocabulary};

/// Users and roles with their pairs and grants, the hierarchy, the sets of separation, the sessions and the vocabulary of a
/// policy, lent together.
#[derive(Drop)]
pub struct Parts<'a> {
    pub sets: &'a RoleSets,
    pub hierarchy: &'a Hierarchy,
    pub static_sets: &'a SetTable,
    pub dynamic_sets: &'a SetTable,
    pub sessions: &'a Sessions,
    pub vocabulary: &'a Vocabulary,
}

impl Parts<'_> {
    ghost use Rattle.rbac_review.specs.Parts.{state_of};

    // The sets of a kind.
    pub(crate) fn sets_of(&self, kind: Separation) -> &SetTable
        ensures { result.now.content ≡ sets_of kind (state_of self.now) }
    {
        match kind {
            Separation::Static => self.static_sets,
            Separation::Dynamic => self.dynamic_sets,
        }
    }
}
