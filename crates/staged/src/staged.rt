//! What is changed by steps that were made ready before.
ghost use Rattle.std.specs.Prelude.{◌≡◌, ◌<◌, ◌≤◌, ◌+◌, ℕ, length, IfOk, OnOk};
ghost use Rattle.staged.specs.Made.{made_all};

use crate::plan::Plan;
use crate::steps::Steps;
use std::alloc::{AllocError, Global};

/// What is changed, as changes of type `C` ask for it, by steps that were made ready before.
pub trait Staged<C> {
    /// A change with all that it wants but room.
    type Step: Drop;

    /// What is in it.
    ghost Content: { Type 0 };

    ghost content: { Self → Content };

    /// For how many more steps there is room.
    ghost room: { Self → ℕ };

    /// What a change makes of what is in it.
    ghost changed: { C → Content → Content };

    /// What a step makes of what is in it.
    ghost made: { Self.Step → Content → Content };

    /// The step that makes a change after these steps.
    ///
    /// # Errors
    /// `AllocError` where the step gets no memory.
    fn prepare(
        &self,
        alloc: Global,
        before: &Plan<Self::Step>,
        change: &C,
    ) -> Result<Self::Step, AllocError>
        ensures { let reached = made_all made before.now (content self.now) in IfOk result (λ step. made step reached ≡ changed change.now reached) };

    /// Makes room for so many more steps. What is in it stays, also where memory ends.
    ///
    /// # Errors
    /// `AllocError` where it has less room and gets no memory.
    fn make_room(&mut self, alloc: Global, more: usize) -> Result<(), AllocError>
        ensures content { content self.new ≡ content self.old }
        ensures room { OnOk result (more ≤ room self.new) };

    /// Makes a step.
    fn make(&mut self, step: Self::Step)
        requires { 0 < room self.old }
        ensures content { content self.new ≡ made step (content self.old) }
        ensures room { room self.old ≤ room self.new + 1 };
}

// The steps that make these changes one after the other.
#[inline(always)]
fn prepare_all<C, S: Staged<C>>(
    alloc: Global,
    staged: &S,
    changes: &[C],
) -> Result<Plan<S::Step>, AllocError>
    ensures made { let content = S.content staged.now in IfOk result (λ plan. made_all S.made plan content ≡ made_all S.changed changes.now content) }
    ensures length { IfOk result (λ plan. length plan ≡ length changes.now) }
{
    let mut plan = Plan::empty();
    for change in changes {
        let step = staged.prepare(alloc, &plan, change)?;
        plan = plan.with(alloc, step)?;
    }
    Ok(plan)
}

/// The steps that make these changes one after the other, and room for them. What is in the structure stays, also where memory ends.
/// A plan of one change takes no memory but that of its step.
///
/// # Errors
/// `AllocError` where the steps, or the room for them, get no memory.
#[inline(always)]
pub fn make_plan<C, S: Staged<C>>(
    alloc: Global,
    staged: &mut S,
    changes: &[C],
) -> Result<Plan<S::Step>, AllocError>
    ensures content { S.content staged.new ≡ S.content staged.old }
    ensures made { let content = S.content staged.old in IfOk result (λ plan. made_all S.made plan content ≡ made_all S.changed changes.now content) }
    ensures room { IfOk result (λ plan. length plan ≤ S.room staged.new) }
{
    let plan = prepare_all(alloc, staged, changes)?;
    staged.make_room(alloc, changes.len())?;
    Ok(plan)
}

// Makes these steps in order.
fn make_each<C, S: Staged<C>>(staged: &mut S, steps: Vec<S::Step>)
    requires { length steps.items ≤ S.room staged.old }
    ensures { S.content staged.new ≡ made_all S.made steps.items (S.content staged.old) }
{
    for step in steps {
        staged.make(step);
    }
}

/// Makes the steps in order. Takes no memory.
#[inline(always)]
pub fn commit<C, S: Staged<C>>(staged: &mut S, plan: Plan<S::Step>)
    requires { length plan ≤ S.room staged.old }
    ensures { S.content staged.new ≡ made_all S.made plan (S.content staged.old) }
{
    match plan.into_steps() {
        Steps::Empty => {}
        Steps::One(step) => staged.make(step),
        Steps::Several(steps) => make_each::<C, S>(staged, steps),
    }
}
