//! What stands in the way of a command.
ghost use Rattle.std.specs.Prelude.{◌≡◌, Bool};
ghost use Rattle.rbac_decide.specs.Hindrance.{Named as NamedValue, Tells, Denies, names_of};

use crate::named::Named;
use rbac_terms::Denial;
use std::alloc::AllocError;

/// Why a command is denied: its first failing precondition, and the names that make it fail. It is lent by the command and the
/// policy, and takes no memory.
#[derive(Clone, Copy)]
pub struct Hindrance<'a> {
    /// The word and the number of the precondition.
    pub denial: Denial,
    /// The names that make it fail; of several the first in order.
    pub named: Named<'a>,
}

/// Why a command is not carried out: it is denied, or there was no memory to try its preconditions.
#[derive(Clone, Copy)]
pub enum Obstacle<'a> {
    Denied(Hindrance<'a>),
    NoMemory,
}

impl<'a> From<Hindrance<'a>> for Obstacle<'a> {
    ghost use Rattle.rbac_decide.specs.declared.hindrance.Obstacle.TheVariants.{Denied};

    ghost from_gives = { λ hindrance made. made ≡ Denied hindrance };

    fn from(hindrance: Hindrance<'a>) -> Obstacle<'a> {
        Obstacle::Denied(hindrance)
    }
}

impl From<AllocError> for Obstacle<'_> {
    ghost use Rattle.rbac_decide.specs.declared.hindrance.Obstacle.TheVariants.{NoMemory};

    ghost from_gives = { λ _ made. made ≡ NoMemory };

    fn from(_refused: AllocError) -> Self {
        Obstacle::NoMemory
    }
}

/// Denies where a precondition fails.
pub(crate) fn deny_if<'a>(
    fails: bool,
    denial: Denial,
    named: Named<'a>,
) -> Result<(), Hindrance<'a>>
    ensures { Denies fails (record { denial = denial; named = names_of named.entry }) result }
{
    if fails {
        Err(Hindrance { denial, named })
    } else {
        Ok(())
    }
}

/// Denies where names are told that make a precondition fail.
pub(crate) fn deny_for<'a>(named: Option<Named<'a>>, denial: Denial) -> Result<(), Hindrance<'a>>
    ensures { (fails : Bool) (names : NamedValue) → Tells fails names named.entry → Denies fails (record { denial = denial; named = names }) result }
{
    match named {
        Some(named) => Err(Hindrance { denial, named }),
        None => Ok(()),
    }
}
