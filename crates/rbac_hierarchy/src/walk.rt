//! The juniors of a role, by a walk over the declared pairs.
ghost use Rattle.std.specs.Prelude.{IfOk, OnOk};
ghost use Rattle.rbac_hierarchy.specs.Walk.{AreJuniors, FindsDescendants};

use rbac_terms::{Name, NameSet};
use sorted_keys::SortedSet;
use std::alloc::{AllocError, Global};

/// The role and the roles to which a chain of pairs leads from it. Each pair is looked at once.
pub(crate) fn walk(
    alloc: Global,
    role: &Name,
    declared: &SortedSet<(Name, Name)>,
) -> Result<NameSet, AllocError>
    ensures { IfOk result (λ names. AreJuniors declared.now.content role.now names) }
{
    let mut found = NameSet::new(alloc);
    found.add(role.copy()?)?;
    let mut pending = Vec::new(alloc);
    pending.push(role.copy()?)?;
    while let Some(ascendant) = pending.pop() {
        let pairs = declared.beginning_with(&ascendant);
        find_descendants(pairs, &mut found, &mut pending)?;
    }
    Ok(found)
}

// Finds the descendants of the pairs. Those that were not found before are pending.
fn find_descendants(
    pairs: &[(Name, Name)],
    found: &mut NameSet,
    pending: &mut Vec<Name>,
) -> Result<(), AllocError>
    ensures { OnOk result (FindsDescendants pairs.now found.old pending.old.items found.new pending.new.items) }
{
    for pair in pairs {
        if !found.contains(&pair.1) {
            found.add(pair.1.copy()?)?;
            pending.push(pair.1.copy()?)?;
        }
    }
    Ok(())
}
