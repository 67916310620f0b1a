//! The commands of one message.
ghost use Rattle.std.specs.Prelude.{◌≡◌, ◌<◌, ◌∷◌, [], length, IfOk};

use crate::shared_command::{SharedCommand, Together};
use rbac_terms::Command;
use std::alloc::AllocError;
use std::marker::Model;
use std::slice;
use std::sync::Arc;

#[derive(Drop)]
enum Kept {
    Alone(SharedCommand),
    All(Arc<Together>),
}

/// Commands of one caller that are submitted together, in order. Copies share them: a copy is a count and no allocation.
#[derive(Drop)]
pub struct Commands {
    kept: Kept,
}

impl Model for Commands {
    ghost use Rattle.std.specs.Prelude.{List};
    ghost use Rattle.rbac_terms.specs.declared.command.Command.{Command as CommandValue};
    ghost use Rattle.rbac_words.specs.Commands.{commands_of_message};

    ghost Value = { List CommandValue };

    ghost view = { λ commands. commands_of_message commands.kept };
}

impl Commands {
    ghost use Rattle.rbac_words.specs.Shared.{command_at};

    /// One command. It takes no memory.
    pub fn one(command: SharedCommand) -> Commands
        ensures { result ≡ command ∷ [] }
    {
        Commands {
            kept: Kept::Alone(command),
        }
    }

    /// These commands, to be shared.
    ///
    /// # Errors
    /// `AllocError` where there is no memory for it.
    pub fn of(commands: Vec<Command>) -> Result<Commands, AllocError>
        ensures { IfOk result (λ shared. shared ≡ commands.items) }
    {
        let alloc = *commands.allocator();
        Ok(Commands {
            kept: Kept::All(Arc::new(alloc, Together::Several(commands))?),
        })
    }

    /// The commands, in order.
    pub fn as_slice(&self) -> &[Command]
        ensures { result.now ≡ self.now }
    {
        match &self.kept {
            Kept::Alone(command) => slice::from_ref(command.get()),
            Kept::All(together) => together.as_slice(),
        }
    }

    /// The command at a place, counted from 0, which is shared with these.
    ///
    /// # Errors
    /// `AllocError` where there are as many copies as can be counted.
    pub fn share(&self, place: usize) -> Result<SharedCommand, AllocError>
        requires { place < length self.now }
        ensures { IfOk result (λ shared. shared ≡ command_at self.now place) }
    {
        match &self.kept {
            Kept::Alone(command) => command.copy(),
            Kept::All(together) => SharedCommand::among(together, place),
        }
    }

    /// Equal commands, which are shared with these.
    ///
    /// # Errors
    /// `AllocError` where there are as many copies as can be counted.
    pub fn copy(&self) -> Result<Commands, AllocError>
        ensures { IfOk result (λ copy. copy ≡ self.now) }
    {
        let kept = match &self.kept {
            Kept::Alone(command) => Kept::Alone(command.copy()?),
            Kept::All(together) => Kept::All(together.clone()?),
        };
        Ok(Commands { kept })
    }
}

/// A clone is equal.
impl Clone for Commands {
    ghost use Rattle.std.specs.Prelude.{◌≡◌};

    ghost is_clone = { λ commands clone. clone ≡ commands };

    fn clone(&self) -> Result<Commands, AllocError> {
        self.copy()
    }
}
