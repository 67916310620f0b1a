//! What a command takes out, which wants no memory: what a deletion takes out, sessions that end, and the purge.
ghost use Rattle.std.specs.Prelude.{◌≡◌};
ghost use Rattle.rbac_decide.specs.Words.{purge, change, Vocabulary as VocabularyValue, DeleteUser, DeleteRole, DeassignUser, DeleteSet, DeleteRoleMember};
ghost use Rattle.rbac_decide.specs.Words.{SetCardinality};

use crate::ending::{ActiveOrUnentitled, BelowUnentitled, OwnedBy, OwnedUnentitled};
use crate::tables::Tables;
use rbac_terms::{Command, Name, Separation};

impl Tables {
    ghost use Rattle.rbac_decide.specs.Planning.{taken_out, roles_left, TakesFromSound};
    ghost use Rattle.rbac_decide.specs.Tables.{state_of, HasSoundSessions, HadSoundSessions};

    fn delete_user(&mut self, user: &Name)
        ensures state { (v : VocabularyValue) → state_of self.new v ≡ change (DeleteUser user.now) (state_of self.old v) }
        ensures roles { self.new.sets.content.roles ≡ self.old.sets.content.roles }
        ensures hierarchy { self.new.hierarchy.content ≡ self.old.hierarchy.content }
    {
        self.sets.remove_user(user);
        self.sessions.delete_where(&OwnedBy { user });
    }

    // Takes a role that is no more in the hierarchy out of the other tables.
    fn delete_role(&mut self, role: &Name)
        ensures state { (v : VocabularyValue) → state_of self.new v ≡ taken_out (DeleteRole role.now) (state_of self.old v) }
        ensures roles { self.new.sets.content.roles ≡ roles_left (DeleteRole role.now) self.old.sets.content.roles }
        ensures hierarchy { self.new.hierarchy.content ≡ self.old.hierarchy.content }
    {
        self.sets.remove_role(role);
        self.sessions.delete_where(&ActiveOrUnentitled {
            sets: &self.sets,
            hierarchy: &self.hierarchy,
            role,
        });
    }

    // Ends sessions where a pair of this descendant was taken back. Of a sound policy none can end but those with an active role that the
    // descendant inherits: the others are passed over at once.
    fn delete_inheritance(&mut self, descendant: &Name)
        requires { HadSoundSessions descendant.now self.old }
        ensures state { (v : VocabularyValue) → state_of self.new v ≡ purge (state_of self.old v) }
        ensures sets { self.new.sets.content ≡ self.old.sets.content }
        ensures hierarchy { self.new.hierarchy.content ≡ self.old.hierarchy.content }
    {
        self.sessions.delete_where(&BelowUnentitled {
            sets: &self.sets,
            hierarchy: &self.hierarchy,
            senior: descendant,
        });
    }

    // Of a sound policy none but the user's own sessions can end, so no other is looked at.
    fn deassign_user(&mut self, user: &Name, role: &Name)
        requires { HasSoundSessions self.old }
        ensures state { (v : VocabularyValue) → state_of self.new v ≡ change (DeassignUser user.now role.now) (state_of self.old v) }
        ensures roles { self.new.sets.content.roles ≡ self.old.sets.content.roles }
        ensures hierarchy { self.new.hierarchy.content ≡ self.old.hierarchy.content }
    {
        self.sets.deassign(user, role);
        self.sessions.delete_where(&OwnedUnentitled {
            sets: &self.sets,
            hierarchy: &self.hierarchy,
            user,
            role,
        });
    }

    fn delete_set(&mut self, kind: Separation, set: &Name)
        ensures state { (v : VocabularyValue) → state_of self.new v ≡ change (DeleteSet kind set.now) (state_of self.old v) }
        ensures sets { self.new.sets.content ≡ self.old.sets.content }
        ensures hierarchy { self.new.hierarchy.content ≡ self.old.hierarchy.content }
    {
        match kind {
            Separation::Static => self.static_sets.delete(set),
            Separation::Dynamic => self.dynamic_sets.delete(set),
        }
    }

    fn delete_role_member(&mut self, kind: Separation, set: &Name, role: &Name)
        ensures state { (v : VocabularyValue) → state_of self.new v ≡ change (DeleteRoleMember kind set.now role.now) (state_of self.old v) }
        ensures sets { self.new.sets.content ≡ self.old.sets.content }
        ensures hierarchy { self.new.hierarchy.content ≡ self.old.hierarchy.content }
    {
        match kind {
            Separation::Static => self.static_sets.remove_member(set, role),
            Separation::Dynamic => self.dynamic_sets.remove_member(set, role),
        }
    }

    fn set_cardinality(&mut self, kind: Separation, set: &Name, n: u32)
        ensures state { (v : VocabularyValue) → state_of self.new v ≡ change (SetCardinality kind set.now n) (state_of self.old v) }
        ensures sets { self.new.sets.content ≡ self.old.sets.content }
        ensures hierarchy { self.new.hierarchy.content ≡ self.old.hierarchy.content }
    {
        match kind {
            Separation::Static => self.static_sets.set_cardinality(set, n),
            Separation::Dynamic => self.dynamic_sets.set_cardinality(set, n),
        }
    }

    /// Takes out what a command takes out. Takes no memory.
    pub(crate) fn take_out(&mut self, command: &Command)
        requires { TakesFromSound command.now self.old }
        ensures state { (v : VocabularyValue) → state_of self.new v ≡ taken_out command.now (state_of self.old v) }
        ensures roles { self.new.sets.content.roles ≡ roles_left command.now self.old.sets.content.roles }
        ensures hierarchy { self.new.hierarchy.content ≡ self.old.hierarchy.content }
    {
        match command {
            Command::DeleteUser { user } => self.delete_user(user),
            Command::DeleteRole { role } => self.delete_role(role),
            Command::DeassignUser { user, role } => self.deassign_user(user, role),
            Command::RevokePermission {
                operation,
                object,
                role,
            } => self.sets.revoke(operation, object, role),
            Command::DeleteInheritance { descendant, .. } => self.delete_inheritance(descendant),
            Command::DeleteSet { kind, set } => self.delete_set(*kind, set),
            Command::DeleteRoleMember { kind, set, role } => {
                self.delete_role_member(*kind, set, role)
            }
            Command::SetCardinality { kind, set, n } => self.set_cardinality(*kind, set, *n),
            Command::DeleteSession { session, .. } => self.sessions.delete(session),
            Command::DropActiveRole { session, role, .. } => {
                self.sessions.drop_role(session, role)
            }
            _ => {}
        }
    }
}
