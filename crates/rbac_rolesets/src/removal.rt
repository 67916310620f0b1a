//! Which pairs stay where a user or a role is taken out.
ghost use Rattle.std.specs.Prelude.{◌≡◌, not};
ghost use Rattle.std.specs.Ordering.{eq_by_cmp};
ghost use Rattle.rbac_terms.specs.Name.{name_cmp};
ghost use Rattle.rbac_terms.specs.Relations.{begins_with, ends_with};

use rbac_terms::Name;
use sorted_keys::KeyTest;

/// The pairs of other users.
#[derive(Drop)]
pub(crate) struct OtherUsers<'a> {
    pub user: &'a Name,
}

impl<A> KeyTest<(Name, A)> for OtherUsers<'_> {
    ghost passes = { λ others pair. not (begins_with others.user.now pair) };

    fn test(&self, pair: &(Name, A)) -> bool {
        self.user.cmp(&pair.0).is_ne()
    }
}

/// The pairs of other roles.
#[derive(Drop)]
pub(crate) struct OtherRoles<'a> {
    pub role: &'a Name,
}

impl<A> KeyTest<(A, Name)> for OtherRoles<'_> {
    ghost passes = { λ others pair. not (ends_with others.role.now pair) };

    fn test(&self, pair: &(A, Name)) -> bool {
        self.role.cmp(&pair.1).is_ne()
    }
}

/// The other roles.
#[derive(Drop)]
pub(crate) struct AnotherRole<'a> {
    pub role: &'a Name,
}

impl KeyTest<Name> for AnotherRole<'_> {
    ghost passes = { λ another name. not (eq_by_cmp name_cmp another.role.now name) };

    fn test(&self, name: &Name) -> bool {
        self.role.cmp(name).is_ne()
    }
}
