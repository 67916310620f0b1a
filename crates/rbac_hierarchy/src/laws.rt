//! A law that holds however a hierarchy is kept.
ghost use Rattle.std.specs.Prelude.{◌≡◌, ◌≤◌, ◌&&◌, ℕ, OnOk, OnErr, length, not, take};
ghost use Rattle.rbac_terms.specs.Inheritance.{inherits};
ghost use Rattle.rbac_hierarchy.specs.Changes.{after, after_one};

use crate::change::Change;
use crate::order::RoleOrder;
use rbac_terms::Name;
use std::alloc::{AllocError, Global};

// Whether both are roles and the descendant does not inherit the ascendant.
fn closes_no_circle<O: RoleOrder>(order: &O, ascendant: &Name, descendant: &Name) -> bool
    ensures { let h = O.content order.now in result ≡ ((inherits h.roles h.declared ascendant.now ascendant.now && inherits h.roles h.declared descendant.now descendant.now) && not (inherits h.roles h.declared descendant.now ascendant.now)) }
{
    order.inherits(ascendant, ascendant)
        && order.inherits(descendant, descendant)
        && !order.inherits(descendant, ascendant)
}

// Makes one change. A pair is declared where both are roles and it closes no circle.
fn make<O: RoleOrder>(alloc: Global, order: &mut O, change: &Change) -> Result<(), AllocError>
    ensures made { OnOk result (O.content order.new ≡ after_one change.now (O.content order.old)) }
    ensures unchanged { OnErr result (O.content order.new ≡ O.content order.old) }
{
    match *change {
        Change::AddRole { role } => order.add_role(alloc, role),
        Change::RemoveRole { role } => order.remove_role(alloc, role),
        Change::Retract {
            ascendant,
            descendant,
        } => order.retract(alloc, ascendant, descendant),
        Change::Declare {
            ascendant,
            descendant,
        } => {
            if closes_no_circle(order, ascendant, descendant) {
                order.declare(alloc, ascendant, descendant)
            } else {
                Ok(())
            }
        }
    }
}

/// Makes changes one after the other, up to the first that wants memory. A change that does not hold (a role that is
/// there is added, a pair of what is no role or that would close a circle is declared) is passed over.
///
/// # Errors
/// `AllocError` where a change gets no memory. Those before it are made.
pub fn run_order<O: RoleOrder>(
    alloc: Global,
    order: &mut O,
    changes: &[Change],
) -> Result<(), AllocError>
    ensures all_made { OnOk result (O.content order.new ≡ after changes.now (O.content order.old)) }
    ensures some_made { OnErr result ((made : ℕ) × (made ≤ length changes.now) × (O.content order.new ≡ after (take made changes.now) (O.content order.old))) }
{
    for change in changes {
        make(alloc, order, change)?;
    }
    Ok(())
}
