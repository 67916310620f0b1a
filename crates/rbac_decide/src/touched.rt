//! The sets that have one of some roles, gathered once for all users.
ghost use Rattle.std.specs.Prelude.{◌≡◌, ◌&&◌, filter, IfOk};
ghost use Rattle.rbac_decide.specs.Words.{list_any, has, Name as NameValue, name_cmp, is_constrained, Vocabulary as VocabularyValue};
ghost use Rattle.rbac_decide.specs.Breaking.{is_constrained_junior};
ghost use Rattle.rbac_decide.specs.Counting.{cut_to, touched_sets};
ghost use Rattle.rbac_decide.specs.Tables.{state_of};

use crate::authorization::{add_where, names_where};
use crate::tables::Tables;
use rbac_hierarchy::RoleOrder;
use rbac_separation::RoleSet;
use rbac_terms::{Name, NameSet};
use std::alloc::{AllocError, Global};

// So many names are compared one by one sooner than they are searched.
const FEW_NAMES: usize = 8;

// Whether the name is one of these.
fn is_one_of(name: &Name, names: &[Name]) -> bool
    ensures { result ≡ has name_cmp name.now names.now }
{
    names.iter().any(|other| name.cmp(other).is_eq())
}

// Whether the name is in the set.
fn is_among(name: &Name, set: &NameSet) -> bool
    ensures { result ≡ has name_cmp name.now set.now }
{
    if set.len() <= FEW_NAMES {
        is_one_of(name, set.names())
    } else {
        set.contains(name)
    }
}

// Whether one of the names is in the set.
fn some_among(names: &[Name], set: &NameSet) -> bool
    ensures { result ≡ list_any (λ r. has name_cmp r set.now) names.now }
{
    names.iter().any(|name| is_among(name, set))
}

// Whether one of the names is among the others: each of the fewer is looked for.
fn have_common(names: &NameSet, others: &NameSet) -> bool
    ensures { result ≡ list_any (λ r. has name_cmp r others.now) names.now }
{
    if others.len() < names.len() {
        some_among(others.names(), names)
    } else {
        some_among(names.names(), others)
    }
}

/// Whether the set has one of the roles.
pub(crate) fn touches(below: &NameSet, roles: &RoleSet) -> bool
    ensures { result ≡ list_any (λ r. has name_cmp r below.now) roles.now.roles }
{
    have_common(&roles.roles, below)
}

// Those of the roles that are among these.
fn roles_among(alloc: Global, below: &NameSet, roles: &NameSet) -> Result<NameSet, AllocError>
    ensures { IfOk result (λ among. among ≡ filter (λ r. has name_cmp r below.now) roles.now) }
{
    let _roles = roles.names();
    let among = names_where(alloc, roles, below)?;
    let _among = among.names();
    Ok(among)
}

// The set with those of its roles alone that are among these.
fn cut_to(
    alloc: Global,
    below: &NameSet,
    entry: &(Name, RoleSet),
) -> Result<(Name, RoleSet), AllocError>
    ensures { IfOk result (λ cut. cut ≡ (entry.now.0, cut_to below.now entry.now.1)) }
{
    let roles = roles_among(alloc, below, &entry.1.roles)?;
    let set = RoleSet {
        roles,
        cardinality: entry.1.cardinality,
    };
    Ok((entry.0.copy()?, set))
}

/// The sets that have one of the roles, each with such roles alone.
///
/// # Errors
/// `AllocError` where there is no memory for it.
pub(crate) fn touched_sets(
    alloc: Global,
    below: &NameSet,
    sets: &[(Name, RoleSet)],
) -> Result<Vec<(Name, RoleSet)>, AllocError>
    ensures { IfOk result (λ touched. touched.items ≡ touched_sets below.now sets.now) }
{
    let mut touched = Vec::new(alloc);
    for entry in sets {
        if touches(below, &entry.1) {
            touched.push(cut_to(alloc, below, entry)?)?;
        }
    }
    Ok(touched)
}

// The roles of the sets that are among these.
fn constrained_among(
    alloc: Global,
    sets: &[(Name, RoleSet)],
    among: &NameSet,
) -> Result<NameSet, AllocError>
    ensures { IfOk result (λ names. (r : NameValue) → has name_cmp r names ≡ (is_constrained r sets.now && has name_cmp r among.now)) }
{
    let mut names = NameSet::new(alloc);
    for entry in sets {
        add_where(&mut names, &entry.1.roles, among)?;
    }
    Ok(names)
}

/// What a role inherits that some static set counts.
#[derive(Drop)]
pub(crate) struct Constrained {
    /// The roles of static sets that it inherits.
    pub(crate) roles: NameSet,
    /// The sets that have one of these, each with such roles alone.
    pub(crate) sets: Vec<(Name, RoleSet)>,
}

/// What the role inherits that some static set counts. Each static set is looked at once; where there is none nothing is
/// gathered.
///
/// # Errors
/// `AllocError` where there is no memory for it.
pub(crate) fn constrained_below(
    alloc: Global,
    tables: &Tables,
    role: &Name,
) -> Result<Constrained, AllocError>
    ensures roles { IfOk result (λ c. (v : VocabularyValue) (r : NameValue) → has name_cmp r c.roles ≡ is_constrained_junior (state_of tables.now v) role.now r) }
    ensures sets { IfOk result (λ c. c.sets.items ≡ touched_sets c.roles tables.now.static_sets.content) }
{
    if tables.static_sets.len() == 0 {
        return Ok(Constrained {
            roles: NameSet::new(alloc),
            sets: Vec::new(alloc),
        });
    }
    let juniors = tables.hierarchy.juniors(alloc, role)?;
    let sets = touched_sets(alloc, &juniors, tables.static_sets.entries())?;
    let roles = constrained_among(alloc, &sets, &juniors)?;
    Ok(Constrained { roles, sets })
}
