//! Whether a role has a descendant among the declared pairs.
ghost use Rattle.std.specs.Prelude.{◌≡◌};
ghost use Rattle.rbac_terms.specs.Inheritance.{has_descendant};

use rbac_terms::Name;
use sorted_keys::SortedSet;

// Whether the role is the ascendant of one of the pairs: they are sorted by it.
pub(crate) fn has_descendant(declared: &SortedSet<(Name, Name)>, role: &Name) -> bool
    ensures { result ≡ has_descendant role.now declared.now.content }
{
    !declared.beginning_with(role).is_empty()
}
