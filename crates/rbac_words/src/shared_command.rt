//! A command that is shared.
ghost use Rattle.std.specs.Prelude.{◌≡◌, ◌<◌, ◌∷◌, [], length, IfOk};
ghost use Rattle.std.specs.List.{slice_get};

use rbac_terms::Command;
use std::alloc::{AllocError, Global};
use std::marker::Model;
use std::slice;
use std::sync::Arc;

// Commands that are submitted together, of which a single one takes no list.
#[derive(Drop)]
pub(crate) enum Together {
    One(Command),
    Several(Vec<Command>),
}

impl Together {
    ghost use Rattle.rbac_words.specs.Shared.{commands_in};

    #[inline(always)]
    pub(crate) fn as_slice(&self) -> &[Command]
        ensures { result.now ≡ commands_in self.now }
    {
        match self {
            Together::One(command) => slice::from_ref(command),
            Together::Several(commands) => commands.as_slice(),
        }
    }
}

/// A command that is submitted. Copies share it, and those that were submitted together lie together: a copy is a count and no allocation.
#[derive(Drop)]
pub struct SharedCommand {
    together: Arc<Together>,
    place: usize,
}

impl Model for SharedCommand {
    ghost use Rattle.std.specs.Prelude.{◌<◌, length};
    ghost use Rattle.rbac_terms.specs.declared.command.Command.{Command as CommandValue};
    ghost use Rattle.rbac_words.specs.Shared.{command_at, commands_in};

    ghost Value = { CommandValue };

    ghost view = { λ c. command_at (commands_in c.together.value) c.place };

    ghost invariant = { λ c. c.place < length (commands_in c.together.value) };
}

impl SharedCommand {
    ghost use Rattle.rbac_words.specs.Shared.{command_at, commands_in};

    /// A command, to be shared.
    ///
    /// # Errors
    /// `AllocError` where there is no memory for it.
    pub fn new(alloc: Global, command: Command) -> Result<SharedCommand, AllocError>
        ensures { IfOk result (λ shared. shared ≡ command) }
    {
        Ok(SharedCommand {
            together: Arc::new(alloc, Together::One(command))?,
            place: 0,
        })
    }

    // The command at a place of some that are submitted together.
    pub(crate) fn among(together: &Arc<Together>, place: usize) -> Result<SharedCommand, AllocError>
        requires { place < length (commands_in together.now.value) }
        ensures { IfOk result (λ shared. shared ≡ command_at (commands_in together.now.value) place) }
    {
        Ok(SharedCommand {
            together: together.clone()?,
            place,
        })
    }

    /// The command.
    #[inline(always)]
    pub fn get(&self) -> &Command
        ensures { result.now ≡ self.now }
    {
        &self.together.as_slice()[self.place]
    }

    /// An equal command, which is shared with this one.
    ///
    /// # Errors
    /// `AllocError` where there are as many copies as can be counted.
    pub fn copy(&self) -> Result<SharedCommand, AllocError>
        ensures { IfOk result (λ copy. copy ≡ self.now) }
    {
        SharedCommand::among(&self.together, self.place)
    }
}

/// A clone is equal.
impl Clone for SharedCommand {
    ghost use Rattle.std.specs.Prelude.{◌≡◌};

    ghost is_clone = { λ command clone. clone ≡ command };

    fn clone(&self) -> Result<SharedCommand, AllocError> {
        self.copy()
    }
}
