//! Commands that lead from one policy to another. They are played on a copy before they are told, so that what they lead to is known.
ghost use Rattle.std.specs.Prelude.{◌≡◌, [], ◌++◌, ◌∷◌, IfOk, OnOk};
ghost use Rattle.std.specs.List.{AllByRecursion as Each};
ghost use Rattle.rbac_terms.specs.Effect.{effect, reply};
ghost use Rattle.rbac_terms.specs.Replay.{state_after, replies};
ghost use Rattle.rbac_terms.specs.State.{State};
ghost use Rattle.rbac_terms.specs.declared.answer.Answer.TheVariants.{Done};
ghost use Rattle.rbac_telling.specs.Leading.{IsLed};

use rbac_decide::{Policy, RoleSet, Session};
use rbac_dump::commands_of;
use rbac_terms::{Answer, Command, Name, Separation};
use std::alloc::{AllocError, Global};
use thiserror::Error;

/// Why no commands are told.
#[derive(Clone, Copy, Debug, PartialEq, Eq, Drop, Error)]
pub enum LeadingRefusal {
    /// The commands that were found don't lead there.
    #[error("no commands were found that lead from one policy to the other")]
    NotMade,
    /// Memory ran out.
    #[error("no memory")]
    NoMemory,
}

impl From<AllocError> for LeadingRefusal {
    ghost use Rattle.rbac_telling.specs.declared.leading.LeadingRefusal.TheVariants.{NoMemory};

    ghost from_gives = { λ _ refusal. refusal ≡ NoMemory };

    fn from(_refused: AllocError) -> LeadingRefusal {
        LeadingRefusal::NoMemory
    }
}

/// The policy that was reached, and the commands that led there.
#[derive(Drop)]
struct Way {
    policy: Policy,
    commands: Vec<Command>,
}

impl Way {
    // One command more.
    fn keep(&mut self, command: Command) -> Result<(), LeadingRefusal>
        ensures kept { OnOk result (self.new.commands.items ≡ self.old.commands.items ++ command ∷ []) }
        ensures policy { OnOk result (self.new.policy ≡ self.old.policy) }
    {
        match self.commands.push(command) {
            Ok(()) => Ok(()),
            Err(command) => {
                drop(command);
                Err(LeadingRefusal::NoMemory)
            }
        }
    }

    // Goes on by a command, which has to be done.
    fn go(&mut self, alloc: Global, command: Command) -> Result<(), LeadingRefusal>
        ensures { (s : State) → IsLed s self.old.commands.items self.old.policy → OnOk result (IsLed s self.new.commands.items self.new.policy) }
    {
        match carry_out(&mut self.policy, alloc, &command) {
            Ok(()) => self.keep(command),
            Err(refusal) => {
                drop(command);
                Err(refusal)
            }
        }
    }

    // Goes on by a command for each thing that is not to stay.
    fn take_out<T, K: Fn(&T) -> bool, F: Fn(&T) -> Result<Command, AllocError>>(
        &mut self,
        alloc: Global,
        things: &[T],
        stays: K,
        command_of: F,
    ) -> Result<(), LeadingRefusal>
        requires stays { K.IsAlwaysCallable stays }
        requires command_of { F.IsAlwaysCallable command_of }
        ensures { (s : State) → IsLed s self.old.commands.items self.old.policy → OnOk result (IsLed s self.new.commands.items self.new.policy) }
    {
        for thing in things {
            if !stays(thing) {
                self.go(alloc, command_of(thing)?)?;
            }
        }
        Ok(())
    }

    // Takes out the sets of a kind that the other policy has not, or otherwise.
    fn take_out_sets(
        &mut self,
        alloc: Global,
        from: &Policy,
        to: &Policy,
        kind: Separation,
    ) -> Result<(), LeadingRefusal>
        ensures { (s : State) → IsLed s self.old.commands.items self.old.policy → OnOk result (IsLed s self.new.commands.items self.new.policy) }
    {
        let others = to.separation_sets(kind);
        let stays = |entry: &(Name, RoleSet)| others.iter().any(|other| is_same_set(entry, other));
        self.take_out(alloc, from.separation_sets(kind), stays, |entry| {
            Ok(Command::DeleteSet {
                kind,
                set: entry.0.copy()?,
            })
        })
    }

    // Takes out the sessions that the other policy has not, or otherwise.
    fn take_out_sessions(
        &mut self,
        alloc: Global,
        from: &Policy,
        to: &Policy,
    ) -> Result<(), LeadingRefusal>
        ensures { (s : State) → IsLed s self.old.commands.items self.old.policy → OnOk result (IsLed s self.new.commands.items self.new.policy) }
    {
        let sessions = from.sessions(alloc)?;
        let stays = |entry: &(Name, Session)| has_session(to, entry);
        self.take_out(alloc, &sessions, stays, |entry| {
            Ok(Command::DeleteSession {
                user: entry.1.owner.copy()?,
                session: entry.0.copy()?,
            })
        })
    }

    // Takes out the grants that the other policy has not.
    fn take_out_grants(
        &mut self,
        alloc: Global,
        from: &Policy,
        to: &Policy,
    ) -> Result<(), LeadingRefusal>
        ensures { (s : State) → IsLed s self.old.commands.items self.old.policy → OnOk result (IsLed s self.new.commands.items self.new.policy) }
    {
        let grants = from.grants(alloc)?;
        let stays = |grant: &((Name, Name), Name)| to.is_granted(&grant.0.0, &grant.0.1, &grant.1);
        self.take_out(alloc, &grants, stays, |grant| {
            Ok(Command::RevokePermission {
                operation: grant.0.0.copy()?,
                object: grant.0.1.copy()?,
                role: grant.1.copy()?,
            })
        })
    }

    // Takes out the declared pairs and the assignments that the other policy has not.
    fn take_out_pairs(
        &mut self,
        alloc: Global,
        from: &Policy,
        to: &Policy,
    ) -> Result<(), LeadingRefusal>
        ensures { (s : State) → IsLed s self.old.commands.items self.old.policy → OnOk result (IsLed s self.new.commands.items self.new.policy) }
    {
        let declared = to.declarations();
        let is_declared = |pair: &(Name, Name)| declared.binary_search(pair).is_ok();
        self.take_out(alloc, from.declarations(), is_declared, |pair| {
            Ok(Command::DeleteInheritance {
                ascendant: pair.0.copy()?,
                descendant: pair.1.copy()?,
            })
        })?;
        let assigned = to.assignments();
        let is_assigned = |pair: &(Name, Name)| assigned.binary_search(pair).is_ok();
        self.take_out(alloc, from.assignments(), is_assigned, |pair| {
            Ok(Command::DeassignUser {
                user: pair.0.copy()?,
                role: pair.1.copy()?,
            })
        })
    }

    // Takes out the roles and the users that the other policy has not.
    fn take_out_names(
        &mut self,
        alloc: Global,
        from: &Policy,
        to: &Policy,
    ) -> Result<(), LeadingRefusal>
        ensures { (s : State) → IsLed s self.old.commands.items self.old.policy → OnOk result (IsLed s self.new.commands.items self.new.policy) }
    {
        let roles = to.roles();
        let is_role = |role: &Name| roles.binary_search(role).is_ok();
        self.take_out(alloc, from.roles(), is_role, |role| {
            Ok(Command::DeleteRole { role: role.copy()? })
        })?;
        let users = to.users();
        let is_user = |user: &Name| users.binary_search(user).is_ok();
        self.take_out(alloc, from.users(), is_user, |user| {
            Ok(Command::DeleteUser { user: user.copy()? })
        })
    }

    // Takes out all that the other policy has not: sessions and sets before what they name, and pairs before roles and users.
    fn take_out_all(
        &mut self,
        alloc: Global,
        from: &Policy,
        to: &Policy,
    ) -> Result<(), LeadingRefusal>
        ensures { (s : State) → IsLed s self.old.commands.items self.old.policy → OnOk result (IsLed s self.new.commands.items self.new.policy) }
    {
        self.take_out_sets(alloc, from, to, Separation::Dynamic)?;
        self.take_out_sessions(alloc, from, to)?;
        self.take_out_sets(alloc, from, to, Separation::Static)?;
        self.take_out_grants(alloc, from, to)?;
        self.take_out_pairs(alloc, from, to)?;
        self.take_out_names(alloc, from, to)
    }

    // Goes on by what a dump has beyond what is there already, which stands in the same order in it.
    fn put_in(
        &mut self,
        alloc: Global,
        known: &[Command],
        wanted: Vec<Command>,
    ) -> Result<(), LeadingRefusal>
        ensures { (s : State) → IsLed s self.old.commands.items self.old.policy → OnOk result (IsLed s self.new.commands.items self.new.policy) }
    {
        let mut rest = known;
        for command in wanted {
            match rest {
                [next, others @ ..] if *next == command => rest = others,
                _ => self.go(alloc, command)?,
            }
        }
        Ok(())
    }

    // Goes on by all that the other policy has and this one has not.
    fn put_in_all(&mut self, alloc: Global, to: &Policy, room: usize) -> Result<(), LeadingRefusal>
        ensures { (s : State) → IsLed s self.old.commands.items self.old.policy → OnOk result (IsLed s self.new.commands.items self.new.policy) }
    {
        let known = commands_of(alloc, &self.policy, room)?;
        let wanted = commands_of(alloc, to, room)?;
        self.put_in(alloc, &known, wanted)
    }
}

// Gives a policy a command, which has to be done.
fn carry_out(policy: &mut Policy, alloc: Global, command: &Command) -> Result<(), LeadingRefusal>
    ensures done { OnOk result (reply command.now policy.old ≡ Done) }
    ensures effect { OnOk result (policy.new ≡ effect command.now policy.old) }
{
    match policy.apply(alloc, command)? {
        Answer::Done => Ok(()),
        other => {
            drop(other);
            Err(LeadingRefusal::NotMade)
        }
    }
}

// Whether both are one set, with the same roles and the same number.
fn is_same_set(entry: &(Name, RoleSet), other: &(Name, RoleSet)) -> bool {
    entry.0 == other.0
        && entry.1.cardinality == other.1.cardinality
        && entry.1.roles.names() == other.1.roles.names()
}

// Whether a policy has this session, with the same owner and the same active roles.
fn has_session(policy: &Policy, entry: &(Name, Session)) -> bool {
    match policy.session(&entry.0) {
        Some(other) => {
            entry.1.owner == other.owner && entry.1.active.names() == other.active.names()
        }
        None => false,
    }
}

/// The commands that lead from one policy to another: from the first each is answered Done, and they leave just the second. First what
/// the second has not is taken out, and then what the first has not is put in. A session that both have may be ended on the way, as when
/// its owner loses one of two assignments, and is then created again. A set or a session whose command has a text of more bytes than there
/// is `room` for is made in parts, as `commands_of` of `rbac_dump` makes it.
///
/// # Errors
/// `NotMade` where what was found does not lead there, as where the vocabularies differ, or where a set that is made in parts would be
/// broken on the way, and `NoMemory` where memory ends.
pub fn commands_between(
    alloc: Global,
    from: &Policy,
    to: &Policy,
    room: usize,
) -> Result<Vec<Command>, LeadingRefusal>
    ensures done { IfOk result (λ commands. Each (λ answer. answer ≡ Done) (replies from.now commands.items)) }
    ensures made { IfOk result (λ commands. state_after from.now commands.items ≡ to.now) }
{
    let mut way = Way {
        policy: from.copy()?,
        commands: Vec::new(alloc),
    };
    let found = find(&mut way, alloc, from, to, room);
    let Way { policy, commands } = way;
    drop(policy);
    found?;
    Ok(commands)
}

// Goes the whole way.
fn find(
    way: &mut Way,
    alloc: Global,
    from: &Policy,
    to: &Policy,
    room: usize,
) -> Result<(), LeadingRefusal>
    ensures { (s : State) → IsLed s way.old.commands.items way.old.policy → OnOk result (IsLed s way.new.commands.items to.now) }
{
    way.take_out_all(alloc, from, to)?;
    way.put_in_all(alloc, to, room)?;
    if way.policy.same(to) {
        Ok(())
    } else {
        Err(LeadingRefusal::NotMade)
    }
}
