//! The counts that a command may change and that are taken after the change: names and room are planned for each of some static sets
//! with each of some users.
ghost use Rattle.std.specs.Prelude.{◌≡◌, ◌∷◌, [], false, IfOk, IfSome, IfNone, Some};
ghost use Rattle.rbac_decide.specs.Words.{list_any, has, Name as NameValue, name_cmp, numbers_of};
ghost use Rattle.rbac_decide.specs.Counting.{authorized_by, authorized_users_by, juniors_by, touches, is_touched, of_touched, of_set, may_change, IsPlanOf};

use crate::authorization::is_authorized;
use crate::tables::Tables;
use crate::touched::touches;
use rbac_hierarchy::RoleOrder;
use rbac_separation::{CountPlan, Counts, RoleSet};
use rbac_terms::{Command, Name, NameSet, Separation};
use sorted_keys::KeyTest;
use std::alloc::{AllocError, Global};
use std::slice::from_ref;

// The users that are authorized for a role.
#[derive(Drop)]
struct AuthorizedFor<'a> {
    tables: &'a Tables,
    role: &'a Name,
}

impl KeyTest<Name> for AuthorizedFor<'_> {
    ghost passes = { λ authorized user. authorized_by authorized.tables.now user authorized.role.now };

    fn test(&self, user: &Name) -> bool {
        is_authorized(&self.tables.sets, &self.tables.hierarchy, user, self.role)
    }
}

// Whether some of the sets has one of the roles.
fn touches_some(below: &NameSet, sets: &[(Name, RoleSet)]) -> bool
    ensures { result ≡ list_any (λ e. touches below.now (Some e.1)) sets.now }
{
    sets.iter().any(|entry| touches(below, &entry.1))
}

// What the role inherits, where some static set has a role of that. Where there is no static set nothing is gathered.
fn touching_juniors(
    alloc: Global,
    tables: &Tables,
    role: &Name,
) -> Result<Option<NameSet>, AllocError>
    ensures some { IfOk result (λ juniors. IfSome juniors (λ below. below ≡ juniors_by tables.now role.now)) }
    ensures none { IfOk result (λ juniors. IfNone juniors ((set : NameValue) → is_touched (juniors_by tables.now role.now) set tables.now.static_sets.content ≡ false)) }
{
    if tables.static_sets.len() == 0 {
        return Ok(None);
    }
    let below = tables.hierarchy.juniors(alloc, role)?;
    if touches_some(&below, tables.static_sets.entries()) {
        Ok(Some(below))
    } else {
        Ok(None)
    }
}

// The names of those static sets that have one of the roles.
fn touched_names(alloc: Global, tables: &Tables, below: &NameSet) -> Result<Vec<Name>, AllocError>
    ensures { IfOk result (λ names. (s : NameValue) → has name_cmp s names.items ≡ is_touched below.now s tables.now.static_sets.content) }
{
    let mut names = Vec::new(alloc);
    for entry in tables.static_sets.entries() {
        if touches(below, &entry.1) {
            names.push(entry.0.copy()?)?;
        }
    }
    Ok(names)
}

// Plans the counts of nothing. Takes no memory.
fn plan_nothing(alloc: Global, counts: &mut Counts) -> Result<CountPlan, AllocError>
    ensures numbers { numbers_of counts.new ≡ numbers_of counts.old }
    ensures planned { IfOk result (IsPlanOf (λ s u. false) counts.new) }
{
    counts.plan(alloc, &[], &[])
}

// Plans the counts of each static set that has a role that this one inherits, with each user that is authorized for the ascendant.
// Where there is no such set no user is looked at.
fn plan_authorized(
    alloc: Global,
    tables: &Tables,
    ascendant: &Name,
    role: &Name,
    counts: &mut Counts,
) -> Result<CountPlan, AllocError>
    ensures numbers { numbers_of counts.new ≡ numbers_of counts.old }
    ensures planned { IfOk result (IsPlanOf (of_touched tables.now (juniors_by tables.now role.now) (authorized_users_by tables.now ascendant.now)) counts.new) }
{
    match touching_juniors(alloc, tables, role)? {
        Some(below) => {
            let authorized = AuthorizedFor {
                tables,
                role: ascendant,
            };
            let users = tables.sets.users_where(alloc, &authorized)?;
            let sets = touched_names(alloc, tables, &below)?;
            counts.plan(alloc, &sets, users.names())
        }
        None => plan_nothing(alloc, counts),
    }
}

// Plans the counts of each static set that has a role that this one inherits, with the user.
fn plan_user(
    alloc: Global,
    tables: &Tables,
    user: &Name,
    role: &Name,
    counts: &mut Counts,
) -> Result<CountPlan, AllocError>
    ensures numbers { numbers_of counts.new ≡ numbers_of counts.old }
    ensures planned { IfOk result (IsPlanOf (of_touched tables.now (juniors_by tables.now role.now) (user.now ∷ [])) counts.new) }
{
    match touching_juniors(alloc, tables, role)? {
        Some(below) => {
            let sets = touched_names(alloc, tables, &below)?;
            counts.plan(alloc, &sets, from_ref(user))
        }
        None => plan_nothing(alloc, counts),
    }
}

// Plans the counts of a static set with all users.
fn plan_set(
    alloc: Global,
    tables: &Tables,
    kind: Separation,
    set: &Name,
    counts: &mut Counts,
) -> Result<CountPlan, AllocError>
    ensures numbers { numbers_of counts.new ≡ numbers_of counts.old }
    ensures planned { IfOk result (IsPlanOf (of_set kind set.now tables.now) counts.new) }
{
    match kind {
        Separation::Static => counts.plan(alloc, from_ref(set), tables.sets.users()),
        Separation::Dynamic => plan_nothing(alloc, counts),
    }
}

/// Plans the counts of those static sets and users whose count the command may change, other than those that a deletion takes out,
/// and those that were gathered before the change.
///
/// # Errors
/// `AllocError` where there is no memory for it.
pub(crate) fn plan_affected(
    alloc: Global,
    tables: &Tables,
    command: &Command,
    counts: &mut Counts,
) -> Result<CountPlan, AllocError>
    ensures numbers { numbers_of counts.new ≡ numbers_of counts.old }
    ensures planned { IfOk result (IsPlanOf (may_change command.now tables.now) counts.new) }
{
    match command {
        Command::DeassignUser { user, role } => plan_user(alloc, tables, user, role, counts),
        Command::DeleteRole { role } => plan_authorized(alloc, tables, role, role, counts),
        Command::DeleteInheritance {
            ascendant,
            descendant,
        } => plan_authorized(alloc, tables, ascendant, descendant, counts),
        Command::CreateSet { kind, set, .. } => plan_set(alloc, tables, *kind, set, counts),
        Command::AddRoleMember { kind, set, .. } => plan_set(alloc, tables, *kind, set, counts),
        Command::DeleteRoleMember { kind, set, .. } => plan_set(alloc, tables, *kind, set, counts),
        _ => plan_nothing(alloc, counts),
    }
}
