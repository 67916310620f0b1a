//! The rows of juniors.
ghost use Rattle.std.specs.Prelude.{◌≡◌, ◌∷◌, [], filter, IfOk};
ghost use Rattle.std.specs.List.Sorted.{IsStrictlySortedBy};
ghost use Rattle.sorted_keys.specs.Keys.{by_key};
ghost use Rattle.rbac_terms.specs.Name.{name_cmp};
ghost use Rattle.rbac_hierarchy.specs.Rows.{RangesOver, roles_in, rows_over};

use crate::walk::walk;
use rbac_terms::{Name, NameSet};
use sorted_keys::{KeyTest, SortedMap, SortedSet};
use std::alloc::{AllocError, Global};

/// The rows of the same roles over these pairs.
pub(crate) fn renewed_rows(
    alloc: Global,
    rows: &SortedMap<Name, NameSet>,
    declared: &SortedSet<(Name, Name)>,
) -> Result<SortedMap<Name, NameSet>, AllocError>
    requires { RangesOver (roles_in rows.now.content) declared.now.content }
    ensures { IfOk result (λ renewed. renewed.content ≡ rows_over (roles_in rows.now.content) declared.now.content) }
{
    let mut renewed = SortedMap::new(alloc);
    for entry in rows.entries() {
        let names = walk(alloc, &entry.0, declared)?;
        let role = entry.0.copy()?;
        renewed.insert(role, names)?;
    }
    Ok(renewed)
}

/// The roles of the rows that pass a test.
pub(crate) fn roles_where<T: KeyTest<Name>>(
    alloc: Global,
    rows: &[(Name, NameSet)],
    test: &T,
) -> Result<NameSet, AllocError>
    requires { IsStrictlySortedBy (by_key name_cmp) rows.now }
    ensures { IfOk result (λ roles. roles ≡ filter (T.passes test.now) (roles_in rows.now)) }
{
    let mut roles = NameSet::new(alloc);
    for entry in rows {
        if test.test(&entry.0) {
            roles.add_copy(&entry.0)?;
        }
    }
    Ok(roles)
}

/// The row of a role alone.
pub(crate) fn lone_row(alloc: Global, role: &Name) -> Result<NameSet, AllocError>
    ensures { IfOk result (λ names. names ≡ role.now ∷ []) }
{
    let mut names = NameSet::new(alloc);
    names.add(role.copy()?)?;
    Ok(names)
}
