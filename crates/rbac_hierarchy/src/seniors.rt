//! Which roles inherit a role.
ghost use Rattle.std.specs.Prelude.{◌≡◌};
ghost use Rattle.rbac_terms.specs.Inheritance.{inherits};

use crate::order::RoleOrder;
use rbac_terms::Name;
use sorted_keys::KeyTest;

/// The roles that inherit a role.
#[derive(Drop)]
pub(crate) struct SeniorsOf<'a, O: RoleOrder> {
    pub order: &'a O,
    pub role: &'a Name,
}

impl<O: RoleOrder> KeyTest<Name> for SeniorsOf<'_, O> {
    ghost passes = { λ seniors senior. let h = O.content seniors.order.now in inherits h.roles h.declared senior seniors.role.now };

    fn test(&self, senior: &Name) -> bool {
        self.order.inherits(senior, self.role)
    }
}
