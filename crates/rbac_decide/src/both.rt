//! Two results as one.
ghost use Rattle.std.specs.Prelude.{◌≡◌, Ok, IfOk};

use std::alloc::AllocError;

/// Both values, where memory was refused for neither. What one of them is lost for the other's sake is dropped here, once for all kinds
/// of values: at a `?` in the place of a call each value that lives there is dropped on its own.
pub(crate) fn both<A: Drop, B: Drop>(
    one: Result<A, AllocError>,
    other: Result<B, AllocError>,
) -> Result<(A, B), AllocError>
    ensures { IfOk result (λ both. (one ≡ Ok both.0) × (other ≡ Ok both.1)) }
{
    Ok((one?, other?))
}
