//! The operations that a role or a user may perform on an object.
ghost use Rattle.std.specs.Prelude.{◌≡◌, ◌&&◌, IfOk, filter};
ghost use Rattle.sorted_keys.specs.Keys.{has};
ghost use Rattle.rbac_terms.specs.Name.{pair_cmp};
ghost use Rattle.rbac_terms.specs.Reviews.{operations_on, role_operations, user_operations};
ghost use Rattle.rbac_review.specs.Among.{is_granted_to_one as granted_to_one};

use crate::parts::Parts;
use crate::permissions::is_granted_to_one;
use rbac_hierarchy::RoleOrder;
use rbac_rolesets::RoleSets;
use rbac_terms::{Name, NameSet, Vocabulary};
use sorted_keys::KeyTest;
use std::alloc::{AllocError, Global};

// The operations on an object that are permissions, and granted to one of the roles.
#[derive(Drop)]
struct OperationsOn<'a> {
    object: &'a Name,
    sets: &'a RoleSets,
    roles: &'a NameSet,
    vocabulary: &'a Vocabulary,
}

impl KeyTest<Name> for OperationsOn<'_> {
    ghost passes = { λ t operation. granted_to_one t.roles.now t.sets.now.content.granted (operation, t.object.now) && has pair_cmp (operation, t.object.now) t.vocabulary.now.permissions };

    fn test(&self, operation: &Name) -> bool {
        is_granted_to_one(self.sets, self.roles, operation, self.object)
            && self.vocabulary.has_permission(operation, self.object)
    }
}

// The operations on the object that are granted to one of the roles.
fn operations_of(
    alloc: Global,
    vocabulary: &Vocabulary,
    sets: &RoleSets,
    roles: &NameSet,
    object: &Name,
) -> Result<NameSet, AllocError>
    ensures { let v = vocabulary.now in IfOk result (λ operations. operations ≡ operations_on object.now (filter (granted_to_one roles.now sets.now.content.granted) v.permissions) v.operations) }
{
    let operations = OperationsOn {
        object,
        sets,
        roles,
        vocabulary,
    };
    vocabulary.operations_where(alloc, &operations)
}

impl Parts<'_> {
    ghost use Rattle.rbac_review.specs.Parts.{state_of};

    /// The operations on the object among the permissions of the role (ANSI INCITS 359-2004, 6.1.4 and 6.2:
    /// RoleOperationsOnObject).
    ///
    /// # Errors
    /// `AllocError` where there is no memory for it.
    pub fn role_operations_on_object(
        &self,
        alloc: Global,
        role: &Name,
        object: &Name,
    ) -> Result<NameSet, AllocError>
        ensures { IfOk result (λ operations. operations ≡ role_operations (state_of self.now) role.now object.now) }
    {
        let juniors = self.hierarchy.juniors(alloc, role)?;
        operations_of(alloc, self.vocabulary, self.sets, &juniors, object)
    }

    /// The operations on the object among the permissions of the user (6.1.4 and 6.2: UserOperationsOnObject).
    ///
    /// # Errors
    /// `AllocError` where there is no memory for it.
    pub fn user_operations_on_object(
        &self,
        alloc: Global,
        user: &Name,
        object: &Name,
    ) -> Result<NameSet, AllocError>
        ensures { IfOk result (λ operations. operations ≡ user_operations (state_of self.now) user.now object.now) }
    {
        let roles = self.authorized_roles(alloc, user)?;
        operations_of(alloc, self.vocabulary, self.sets, &roles, object)
    }
}
