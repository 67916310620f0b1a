//! What was gathered to decide a command.
ghost use Rattle.std.specs.Prelude.{◌≡◌, ◌++◌, ◌∷◌, [], OnOk};

use rbac_separation::Row;
use rbac_terms::Name;
use std::alloc::{AllocError, Global};

/// What a decision gathered and the change by the command needs, so that nothing is gathered twice: of AssignUser and AddInheritance
/// the counts that they change, as they are then. Of other commands there is nothing.
#[derive(Drop)]
pub struct Ground {
    pub(crate) sets: Vec<Name>,
    pub(crate) users: Vec<Name>,
    /// For each of the users its counts of the sets.
    pub(crate) rows: Vec<Row>,
}

impl Ground {
    /// Nothing. Takes no memory.
    pub(crate) fn nothing(alloc: Global) -> Ground
        ensures sets { result.sets.items ≡ [] }
        ensures users { result.users.items ≡ [] }
        ensures rows { result.rows.items ≡ [] }
    {
        Ground {
            sets: Vec::new(alloc),
            users: Vec::new(alloc),
            rows: Vec::new(alloc),
        }
    }

    /// One user more, with its counts.
    pub(crate) fn add(&mut self, user: &Name, row: Row) -> Result<(), AllocError>
        ensures sets { self.new.sets.items ≡ self.old.sets.items }
        ensures users { OnOk result (self.new.users.items ≡ self.old.users.items ++ user.now ∷ []) }
        ensures rows { OnOk result (self.new.rows.items ≡ self.old.rows.items ++ row ∷ []) }
    {
        let user = user.copy()?;
        self.rows.push(row)?;
        self.users.push(user)?;
        Ok(())
    }
}
