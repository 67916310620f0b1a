//! What stands in the way of a command, and why.
ghost use Rattle.std.specs.Prelude.{◌≡◌, ◌||◌, true, IfOk, IfSome, Some};
ghost use Rattle.std.specs.List.{filter};
ghost use Rattle.std.specs.Option.{option_map};
ghost use Rattle.sorted_keys.specs.Keys.{has};
ghost use Rattle.rbac_terms.specs.Name.{name_cmp};
ghost use Rattle.rbac_terms.specs.Inheritance.{IsChain};
ghost use Rattle.rbac_terms.specs.Authorization.{inherits_in};
ghost use Rattle.rbac_terms.specs.Change.{change};
ghost use Rattle.rbac_terms.specs.Rows.{first_denial};
ghost use Rattle.rbac_terms.specs.declared.answer.Denial.{Denial as DenialValue};
ghost use Rattle.rbac_terms.specs.declared.answer.Denial.TheVariants.{BadCardinality};
ghost use Rattle.rbac_decide.specs.Hindrance.{told_by, first_hindrance};
ghost use Rattle.rbac_decide.specs.Hindrance.Named.{a_breach, a_set};
ghost use Rattle.rbac_reasons.specs.Explanation.{Breaks, IsBadlySized, Explains};

use crate::after::{gained, held, lone, set_after};
use crate::authorized::among;
use crate::chain::Chain;
use crate::told::{Explained, Explanation};
use crate::walk::find_chain;
use rbac_decide::{Hindrance, Named, Obstacle, Policy};
use rbac_terms::{Command, Denial, Name, NameSet, Separation};
use std::alloc::{AllocError, Global};

// The roles of a set by which it would be broken, and its number.
fn breach(
    alloc: Global,
    policy: &Policy,
    command: &Command,
    kind: Separation,
    holder: &Name,
    set: &Name,
) -> Result<(NameSet, u32), AllocError>
    requires { (d : DenialValue) × (first_hindrance command.now policy.now ≡ Some (record { denial = d; named = a_breach kind holder.now set.now })) }
    ensures { IfOk result (λ told. Breaks kind (change command.now policy.now) holder.now set.now told.0 told.1) }
{
    policy.invariants();
    let held = held(alloc, policy, kind, holder)?;
    let gained = gained(alloc, policy, command)?;
    match set_after(policy, command, kind, set)? {
        Some(set) => Ok((among(alloc, &set.roles, &gained, &held)?, set.cardinality)),
        None => unreachable!(),
    }
}

// How many roles a set would have, and its number.
fn size(
    policy: &Policy,
    command: &Command,
    kind: Separation,
    set: &Name,
) -> Result<(usize, u32), AllocError>
    requires { first_hindrance command.now policy.now ≡ Some (record { denial = BadCardinality; named = a_set kind set.now }) }
    ensures { IfOk result (λ told. IsBadlySized kind (change command.now policy.now) set.now told.0 told.1) }
{
    policy.invariants();
    match set_after(policy, command, kind, set)? {
        Some(set) => Ok((set.roles.len(), set.cardinality)),
        None => unreachable!(),
    }
}

// The roles by which the descendant inherits the ascendant.
fn cycle(
    alloc: Global,
    policy: &Policy,
    ascendant: &Name,
    descendant: &Name,
) -> Result<Chain, AllocError>
    requires { inherits_in policy.now descendant.now ascendant.now ≡ true }
    ensures { IfOk result (λ chain. (chain.first ≡ descendant.now) × (chain.last ≡ ascendant.now) × IsChain policy.now.roles policy.now.declared chain.first chain.rest.items chain.last) }
{
    policy.invariants();
    let starts = lone(alloc, descendant)?;
    let goals = lone(alloc, ascendant)?;
    match find_chain(alloc, policy.declarations(), &starts, &goals)? {
        Some(chain) => Ok(chain),
        None => unreachable!(),
    }
}

// What the names of the first hindrance don't tell.
fn explain(
    alloc: Global,
    policy: &Policy,
    command: &Command,
    hindrance: Hindrance<'_>,
) -> Result<Explanation, AllocError>
    requires { first_hindrance command.now policy.now ≡ Some (told_by hindrance) }
    ensures { IfOk result (Explains command.now policy.now (told_by hindrance.entry)) }
{
    match hindrance.named {
        Named::Breach { kind, holder, set } => {
            let (roles, number) = breach(alloc, policy, command, kind, holder, set)?;
            Ok(Explanation::Breach { roles, number })
        }
        Named::Pair {
            ascendant,
            descendant,
        } => match hindrance.denial {
            Denial::Cycle => {
                let chain = cycle(alloc, policy, ascendant, descendant)?;
                Ok(Explanation::Cycle { chain })
            }
            _ => Ok(Explanation::Nothing),
        },
        Named::Set { kind, set } => match hindrance.denial {
            Denial::BadCardinality => {
                let (size, number) = size(policy, command, kind, set)?;
                Ok(Explanation::Size { size, number })
            }
            _ => Ok(Explanation::Nothing),
        },
        _ => Ok(Explanation::Nothing),
    }
}

/// What stands in the way of a command: its first failing precondition, the names that make it fail, and what these don't tell; or
/// nothing where the command is not denied. It changes nothing.
///
/// # Errors
/// `AllocError` where there is no memory for it.
pub fn hindrance<'a>(
    alloc: Global,
    policy: &'a Policy,
    command: &'a Command,
) -> Result<Option<Explained<'a>>, AllocError>
    ensures denial { IfOk result (λ found. option_map (λ told. told.hindrance.denial) found ≡ first_denial command.now policy.now) }
    ensures named { IfOk result (λ found. option_map (λ told. told_by told.hindrance) found ≡ first_hindrance command.now policy.now) }
    ensures explained { IfOk result (λ found. IfSome found (λ told. Explains command.now policy.now (told_by told.hindrance) told.explanation)) }
{
    match policy.decide(alloc, command) {
        Ok(_) => Ok(None),
        Err(Obstacle::NoMemory) => Err(AllocError),
        Err(Obstacle::Denied(hindrance)) => {
            let explanation = explain(alloc, policy, command, hindrance)?;
            Ok(Some(Explained {
                hindrance,
                explanation,
            }))
        }
    }
}
