//! Which pairs stay where a pair or a role is taken out.
ghost use Rattle.std.specs.Prelude.{◌≡◌, ◌||◌, not};
ghost use Rattle.std.specs.Ordering.{eq_by_cmp};
ghost use Rattle.rbac_terms.specs.Name.{pair_cmp};
ghost use Rattle.rbac_terms.specs.Relations.{begins_with, ends_with};

use rbac_terms::Name;
use sorted_keys::KeyTest;

/// The pairs of other roles.
#[derive(Drop)]
pub(crate) struct OtherPairs<'a> {
    pub role: &'a Name,
}

impl KeyTest<(Name, Name)> for OtherPairs<'_> {
    ghost passes = { λ others pair. not (begins_with others.role.now pair || ends_with others.role.now pair) };

    fn test(&self, pair: &(Name, Name)) -> bool {
        !(self.role.cmp(&pair.0).is_eq() || self.role.cmp(&pair.1).is_eq())
    }
}

/// The pairs but for one.
#[derive(Drop)]
pub(crate) struct OtherPair<'a> {
    pub ascendant: &'a Name,
    pub descendant: &'a Name,
}

impl KeyTest<(Name, Name)> for OtherPair<'_> {
    ghost passes = { λ other pair. not (eq_by_cmp pair_cmp (other.ascendant.now, other.descendant.now) pair) };

    fn test(&self, pair: &(Name, Name)) -> bool {
        !(self.ascendant.cmp(&pair.0).is_eq() && self.descendant.cmp(&pair.1).is_eq())
    }
}
