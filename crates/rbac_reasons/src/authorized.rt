//! Who is authorized for which roles.
ghost use Rattle.std.specs.Prelude.{◌≡◌, ◌||◌, IfOk};
ghost use Rattle.std.specs.List.{filter};
ghost use Rattle.sorted_keys.specs.Keys.{has};
ghost use Rattle.rbac_terms.specs.Name.{Name as NameValue, name_cmp};
ghost use Rattle.rbac_terms.specs.Authorization.{is_authorized};

use crate::pairs::seconds;
use crate::walk::reached;
use rbac_decide::Policy;
use rbac_terms::{Name, NameSet};
use std::alloc::{AllocError, Global};

/// The roles that a user is authorized for, as a set.
///
/// # Errors
/// `AllocError` where there is no memory for it.
pub fn authorized_roles(alloc: Global, policy: &Policy, user: &Name) -> Result<NameSet, AllocError>
    ensures { IfOk result (λ roles. (role : NameValue) → has name_cmp role roles ≡ is_authorized policy.now user.now role) }
{
    policy.invariants();
    let starts = seconds(alloc, policy.assignments(), user)?;
    reached(alloc, policy.declarations(), &starts)
}

/// Those of the names that are among these or those.
pub(crate) fn among(
    alloc: Global,
    names: &NameSet,
    these: &NameSet,
    those: &NameSet,
) -> Result<NameSet, AllocError>
    ensures { IfOk result (λ kept. kept ≡ filter (λ name. has name_cmp name these.now || has name_cmp name those.now) names.now) }
{
    let mut kept = NameSet::new(alloc);
    for name in names.names() {
        if these.contains(name) || those.contains(name) {
            kept.add_copy(name)?;
        }
    }
    let _in_order = kept.names();
    Ok(kept)
}
