//! The counts that a policy keeps of its static sets, and what a command makes of them. Where users become authorized for more their
//! new counts were gathered when it was decided. Of the other commands names and room are planned, and the counts are taken after the
//! change, from sets that no longer change.
ghost use Rattle.std.specs.Prelude.{◌≡◌, false, not, count_by, IfOk};
ghost use Rattle.rbac_decide.specs.Words.{is_broken_by, numbers_of, ArePlaced};
ghost use Rattle.rbac_decide.specs.Counting.{authorized_by, count_by_tables, breaks_some, gives_roles, AreCountsBy, without_static, remaining};
ghost use Rattle.rbac_decide.specs.Ground.{IsPlannedBy, IsPrepared};

mod affected;

use crate::authorization::count_authorized;
use crate::counting::affected::plan_affected;
use crate::gathered::Ground;
use crate::tables::Tables;
use rbac_separation::{CountPlan, Counts, Numbering, RoleSet};
use rbac_terms::{Command, Name, Separation};
use std::alloc::{AllocError, Global};

// Whether users become authorized for more roles by the command, and for none less.
fn gives_roles(command: &Command) -> bool
    ensures { result ≡ gives_roles command.now }
{
    matches!(
        command,
        Command::AssignUser { .. } | Command::AddInheritance { .. }
    )
}

// For how many roles of a set the user is authorized: fewer than its number, so that the count fits.
fn count_in(tables: &Tables, roles: &RoleSet, user: &Name) -> u32
    requires { is_broken_by (authorized_by tables.now user.now) roles.now ≡ false }
    ensures { result ≡ count_by (authorized_by tables.now user.now) roles.now.roles }
{
    let _cardinality = roles.cardinality;
    count_authorized(&tables.sets, &tables.hierarchy, user, roles.roles.names()) as u32
}

// For how many roles of the static set with this name the user is authorized.
fn count_of(tables: &Tables, set: &Name, user: &Name) -> u32
    requires { breaks_some tables.now user.now ≡ false }
    ensures { result ≡ count_by_tables tables.now set.now user.now }
{
    match tables.static_sets.get(set) {
        Some(roles) => count_in(tables, roles, user),
        None => 0,
    }
}

// The counts by the tables, of users who break no static set.
#[derive(Drop)]
struct AuthorizedCounts<'a> {
    tables: &'a Tables,
}

impl Numbering for AuthorizedCounts<'_> {
    ghost number = { λ counts set user. count_by_tables counts.tables.now set user };

    ghost is_numbered = { λ counts _ user. not (breaks_some counts.tables.now user) };

    fn number(&self, set: &Name, user: &Name) -> u32 {
        count_of(self.tables, set, user)
    }
}

// Takes the counts of a set of a kind out.
fn forget_set(kind: Separation, set: &Name, counts: &mut Counts)
    ensures { numbers_of counts.new ≡ without_static kind set.now (numbers_of counts.old) }
{
    match kind {
        Separation::Static => counts.forget_set(set),
        Separation::Dynamic => {}
    }
}

// Takes out the counts of what a command deletes: a user, or a static set.
fn forget(command: &Command, counts: &mut Counts)
    ensures { numbers_of counts.new ≡ remaining command.now (numbers_of counts.old) }
{
    match command {
        Command::DeleteUser { user } => counts.forget_user(user),
        Command::DeleteSet { kind, set } => forget_set(*kind, set, counts),
        _ => {}
    }
}

/// Plans what a command that is not denied makes of the counts. The counts stay as they are, also where memory ends. Of a command
/// that never changes a count nothing is planned, which takes no memory.
///
/// # Errors
/// `AllocError` where there is no memory for it.
pub(crate) fn plan_counts(
    alloc: Global,
    tables: &Tables,
    command: &Command,
    gathered: &Ground,
    counts: &mut Counts,
) -> Result<CountPlan, AllocError>
    ensures numbers { numbers_of counts.new ≡ numbers_of counts.old }
    ensures planned { IfOk result (IsPlannedBy (gives_roles command.now) command.now gathered.now tables.now) }
    ensures placed { IfOk result (λ plan. ArePlaced plan.sets.items plan.users.items counts.new) }
{
    if gives_roles(command) {
        return counts.plan(alloc, &gathered.sets, &gathered.users);
    }
    plan_affected(alloc, tables, command, counts)
}

/// Makes the counts right again after a command, by their plan. Takes no memory.
pub(crate) fn commit_counts(
    tables: &Tables,
    command: &Command,
    plan: CountPlan,
    gathered: &Ground,
    counts: &mut Counts,
)
    requires prepared { IsPrepared command.now plan gathered.now counts.old tables.now }
    requires placed { ArePlaced plan.sets.items plan.users.items counts.old }
    ensures { AreCountsBy tables.now counts.new }
{
    if gives_roles(command) {
        counts.commit(plan, &gathered.rows);
        return;
    }
    counts.renumber(plan, &AuthorizedCounts { tables });
    forget(command, counts);
}
