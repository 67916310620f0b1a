//! Steps that were made ready.
ghost use Rattle.std.specs.Prelude.{◌≡◌, ◌++◌, ◌∷◌, [], length, slice_get, IfOk};
ghost use Rattle.std.specs.Option.{option_copied};
ghost use Rattle.staged.specs.Steps.{all_steps};

use crate::steps::Steps;
use std::alloc::{AllocError, Global};
use std::marker::Model;

/// Steps that were made ready, in order. One step takes no memory of its own, since most changes make one.
#[derive(Drop)]
pub struct Plan<T> {
    steps: Steps<T>,
}

impl<T> Model for Plan<T> {
    ghost use Rattle.std.specs.Prelude.{List};
    ghost use Rattle.staged.specs.Steps.{all_steps};

    ghost Value = { List T };

    ghost view = { λ p. all_steps p.steps };
}

// These two.
fn pair<T: Drop>(alloc: Global, first: T, second: T) -> Result<Vec<T>, AllocError>
    ensures { IfOk result (λ steps. steps.items ≡ first ∷ second ∷ []) }
{
    let mut steps = Vec::with_capacity(alloc, 2)?;
    steps.push(first)?;
    steps.push(second)?;
    Ok(steps)
}

// The steps of a list and one more.
fn longer<T: Drop>(steps: Vec<T>, step: T) -> Result<Vec<T>, AllocError>
    ensures { IfOk result (λ more. more.items ≡ steps.items ++ step ∷ []) }
{
    let mut more = steps;
    more.push(step)?;
    Ok(more)
}

impl<T: Drop> Plan<T> {
    /// No steps.
    #[inline(always)]
    pub fn empty() -> Plan<T>
        ensures { result ≡ [] }
    {
        Plan {
            steps: Steps::Empty,
        }
    }

    // These steps, and one more after them.
    #[inline(always)]
    pub(crate) fn with(self, alloc: Global, step: T) -> Result<Plan<T>, AllocError>
        ensures { IfOk result (λ plan. plan ≡ self ++ step ∷ []) }
    {
        let steps = match self.steps {
            Steps::Empty => Steps::One(step),
            Steps::One(first) => Steps::Several(pair(alloc, first, step)?),
            Steps::Several(steps) => Steps::Several(longer(steps, step)?),
        };
        Ok(Plan { steps })
    }

    /// How many steps there are.
    #[inline(always)]
    pub fn len(&self) -> usize
        ensures { result ≡ length self.now }
    {
        match &self.steps {
            Steps::Empty => 0,
            Steps::One(_) => 1,
            Steps::Several(steps) => steps.len(),
        }
    }

    /// The step at a place, lent.
    #[inline(always)]
    pub fn get(&self, place: usize) -> Option<&T>
        ensures { option_copied result ≡ slice_get self.now place }
    {
        match &self.steps {
            Steps::Empty => None,
            Steps::One(step) => if place == 0 { Some(step) } else { None },
            Steps::Several(steps) => steps.get(place),
        }
    }

    // The steps, lent.
    #[inline(always)]
    pub(crate) fn steps(&self) -> &Steps<T>
        ensures { all_steps result.now ≡ self.now }
    {
        &self.steps
    }

    // The steps.
    #[inline(always)]
    pub(crate) fn into_steps(self) -> Steps<T>
        ensures { all_steps result ≡ self }
    {
        self.steps
    }
}
