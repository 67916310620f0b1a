//! Who is authorized for a role, and what a session may do.
ghost use Rattle.std.specs.Prelude.{◌≡◌, not, length};
ghost use Rattle.rbac_decide.specs.Words.{first_where, option_copied, has, inherits_in, is_authorized as is_authorized_in, reply, name_cmp, CheckAccess};

use crate::authorization::{first_unauthorized, is_authorized};
use crate::policy::Policy;
use rbac_hierarchy::RoleOrder;
use rbac_terms::{Answer, Name};

impl Policy {
    /// Whether it is one of the roles.
    pub(crate) fn has_role(&self, role: &Name) -> bool
        ensures { result ≡ has name_cmp role.now self.now.roles }
    {
        self.tables.sets.has_role(role)
    }

    /// How many roles there are.
    pub(crate) fn role_count(&self) -> usize
        ensures { result ≡ length self.now.roles }
    {
        self.tables.sets.role_count()
    }

    /// Whether the senior inherits the junior.
    pub(crate) fn inherits(&self, senior: &Name, junior: &Name) -> bool
        ensures { result ≡ inherits_in self.now senior.now junior.now }
    {
        self.tables.hierarchy.inherits(senior, junior)
    }

    /// Whether the user is authorized for the role.
    pub(crate) fn is_authorized(&self, user: &Name, role: &Name) -> bool
        ensures { result ≡ is_authorized_in self.now user.now role.now }
    {
        is_authorized(&self.tables.sets, &self.tables.hierarchy, user, role)
    }

    /// The first of the roles that the user is not authorized for.
    pub(crate) fn first_unauthorized<'a>(&self, user: &Name, roles: &'a [Name]) -> Option<&'a Name>
        ensures { option_copied result ≡ first_where (λ role. not (is_authorized_in self.now user.now role)) roles.now }
    {
        first_unauthorized(&self.tables.sets, &self.tables.hierarchy, user, roles)
    }

    /// The answer to CheckAccess.
    pub(crate) fn check_access(&self, session: &Name, operation: &Name, object: &Name) -> Answer
        ensures { result ≡ reply (CheckAccess session.now operation.now object.now) self.now }
    {
        match self.check(session, operation, object) {
            Ok(true) => Answer::Granted,
            Ok(false) => Answer::Refused,
            Err(denial) => Answer::Denied(denial),
        }
    }
}
