//! Who is authorized for a role, and which roles have a permission, by the sets of a policy.
ghost use Rattle.std.specs.Prelude.{◌≡◌, ◌&&◌, ◌||◌, not, map, count_by, IfOk, OnOk};
ghost use Rattle.rbac_decide.specs.Words.{list_all, list_any, first_where, option_copied, has, is_authorized, is_entitled, inherits, Name as NameValue};
ghost use Rattle.rbac_decide.specs.Words.{name_cmp};
ghost use Rattle.rbac_decide.specs.Tables.{state_of_roles};

use rbac_hierarchy::{Hierarchy, RoleOrder};
use rbac_rolesets::RoleSets;
use rbac_terms::{Name, NameSet};
use sorted_keys::KeyTest;
use std::alloc::{AllocError, Global};

// Whether the role of one of the assignments inherits the role.
fn some_inherits(hierarchy: &Hierarchy, assignments: &[(Name, Name)], role: &Name) -> bool
    ensures { let h = hierarchy.now.content in result ≡ list_any (λ pair. inherits h.roles h.declared pair.1 role.now) assignments.now }
{
    assignments
        .iter()
        .any(|pair| hierarchy.inherits(&pair.1, role))
}

/// Whether the senior inherits one of the roles.
pub(crate) fn inherits_one_of(hierarchy: &Hierarchy, senior: &Name, roles: &[Name]) -> bool
    ensures { let h = hierarchy.now.content in result ≡ list_any (inherits h.roles h.declared senior.now) roles.now }
{
    roles.iter().any(|role| hierarchy.inherits(senior, role))
}

/// Whether one of the roles inherits one of those that something is granted to.
pub(crate) fn some_inherits_some(hierarchy: &Hierarchy, roles: &[Name], grants: &[Name]) -> bool
    ensures { let h = hierarchy.now.content in result ≡ list_any (λ role. list_any (inherits h.roles h.declared role) grants.now) roles.now }
{
    roles
        .iter()
        .any(|role| inherits_one_of(hierarchy, role, grants))
}

/// Whether the user is authorized for the role: it is assigned one that inherits it.
pub(crate) fn is_authorized(
    sets: &RoleSets,
    hierarchy: &Hierarchy,
    user: &Name,
    role: &Name,
) -> bool
    ensures { result ≡ is_authorized (state_of_roles sets.now.content hierarchy.now.content) user.now role.now }
{
    some_inherits(hierarchy, sets.assignments_of(user), role)
}

// Whether the roles of the assignments inherit each of the roles.
fn all_inherited(hierarchy: &Hierarchy, assignments: &[(Name, Name)], roles: &[Name]) -> bool
    ensures { let h = hierarchy.now.content in result ≡ list_all (λ role. list_any (λ pair. inherits h.roles h.declared pair.1 role) assignments.now) roles.now }
{
    roles
        .iter()
        .all(|role| some_inherits(hierarchy, assignments, role))
}

/// Whether the user is authorized for each of the roles. The user's assignments are found once.
pub(crate) fn is_authorized_for_all(
    sets: &RoleSets,
    hierarchy: &Hierarchy,
    user: &Name,
    roles: &[Name],
) -> bool
    ensures { result ≡ list_all (is_authorized (state_of_roles sets.now.content hierarchy.now.content) user.now) roles.now }
{
    all_inherited(hierarchy, sets.assignments_of(user), roles)
}

/// Adds those of the names that pass a test.
pub(crate) fn add_where<T: KeyTest<Name>>(
    kept: &mut NameSet,
    names: &NameSet,
    test: &T,
) -> Result<(), AllocError>
    ensures { OnOk result ((r : NameValue) → has name_cmp r kept.new ≡ (has name_cmp r kept.old || (has name_cmp r names.now && T.passes test.now r))) }
{
    for name in names.names() {
        if test.test(name) {
            kept.add_copy(name)?;
        }
    }
    Ok(())
}

/// Those of the names that pass a test.
pub(crate) fn names_where<T: KeyTest<Name>>(
    alloc: Global,
    names: &NameSet,
    test: &T,
) -> Result<NameSet, AllocError>
    ensures { IfOk result (λ kept. (r : NameValue) → has name_cmp r kept ≡ (has name_cmp r names.now && T.passes test.now r)) }
{
    let mut kept = NameSet::new(alloc);
    add_where(&mut kept, names, test)?;
    Ok(kept)
}

// The first of the roles that the role of no assignment inherits.
fn first_not_inherited<'r>(
    hierarchy: &Hierarchy,
    assignments: &[(Name, Name)],
    roles: &'r [Name],
) -> Option<&'r Name>
    ensures { let h = hierarchy.now.content in option_copied result ≡ first_where (λ role. not (list_any (λ pair. inherits h.roles h.declared pair.1 role) assignments.now)) roles.now }
{
    roles
        .iter()
        .find(|role| !some_inherits(hierarchy, assignments, role))
}

/// The first of the roles that the user is not authorized for. The user's assignments are found once.
pub(crate) fn first_unauthorized<'r>(
    sets: &RoleSets,
    hierarchy: &Hierarchy,
    user: &Name,
    roles: &'r [Name],
) -> Option<&'r Name>
    ensures { option_copied result ≡ first_where (λ role. not (is_authorized (state_of_roles sets.now.content hierarchy.now.content) user.now role)) roles.now }
{
    first_not_inherited(hierarchy, sets.assignments_of(user), roles)
}

// Of each of the roles whether the role of none of the assignments inherits it.
fn not_inherited(
    alloc: Global,
    hierarchy: &Hierarchy,
    assignments: &[(Name, Name)],
    roles: &[Name],
) -> Result<Vec<bool>, AllocError>
    ensures { let h = hierarchy.now.content in IfOk result (λ fresh. fresh.items ≡ map (λ role. not (list_any (λ pair. inherits h.roles h.declared pair.1 role) assignments.now)) roles.now) }
{
    roles
        .iter()
        .map(|role| !some_inherits(hierarchy, assignments, role))
        .collect(alloc)
}

/// Of each of the roles whether the user is not authorized for it. The user's assignments are found once.
pub(crate) fn fresh_roles(
    alloc: Global,
    sets: &RoleSets,
    hierarchy: &Hierarchy,
    user: &Name,
    roles: &[Name],
) -> Result<Vec<bool>, AllocError>
    ensures { let s = state_of_roles sets.now.content hierarchy.now.content in IfOk result (λ fresh. fresh.items ≡ map (λ role. not (is_authorized s user.now role)) roles.now) }
{
    not_inherited(alloc, hierarchy, sets.assignments_of(user), roles)
}

// How many of the roles the role of one of the assignments inherits.
fn count_inherited(hierarchy: &Hierarchy, assignments: &[(Name, Name)], roles: &[Name]) -> usize
    ensures { let h = hierarchy.now.content in result ≡ count_by (λ role. list_any (λ pair. inherits h.roles h.declared pair.1 role) assignments.now) roles.now }
{
    roles
        .iter()
        .filter(|role| some_inherits(hierarchy, assignments, role))
        .count()
}

/// How many of the roles the user is authorized for.
pub(crate) fn count_authorized(
    sets: &RoleSets,
    hierarchy: &Hierarchy,
    user: &Name,
    roles: &[Name],
) -> usize
    ensures { result ≡ count_by (is_authorized (state_of_roles sets.now.content hierarchy.now.content) user.now) roles.now }
{
    count_inherited(hierarchy, sets.assignments_of(user), roles)
}

/// Whether each of the roles is there, and the owner of a session is authorized for it. Where the owner is, the role is there.
pub(crate) fn is_entitled(
    sets: &RoleSets,
    hierarchy: &Hierarchy,
    owner: &Name,
    active: &NameSet,
) -> bool
    ensures { result ≡ is_entitled (state_of_roles sets.now.content hierarchy.now.content) (record { owner = owner.now; active = active.now }) }
{
    is_authorized_for_all(sets, hierarchy, owner, active.names())
}
