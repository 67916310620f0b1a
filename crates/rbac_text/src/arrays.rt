//! Arrays of a text: elements in brackets, with commas between.
ghost use Rattle.std.specs.Prelude.{◌≡◌, ◌++◌, List, ℕ, codes, OnOk};
ghost use Rattle.std.specs.List.{flat_map, join_by, AllByRecursion as Each};
ghost use Rattle.rbac_text.specs.Pieces.{array_text};

use crate::pieces::put_piece;
use std::alloc::AllocError;

/// What may stand in an array.
pub(crate) trait Element {
    /// The text of an element.
    ghost shown: { Self → List ℕ };

    /// What a reader of that text asks of an element.
    ghost Fits: { Self → Type 0 };

    /// Puts the text behind what the buffer has.
    fn put(&self, text: &mut Vec<u8>) -> Result<(), AllocError>
        ensures text { OnOk result (text.new.items ≡ text.old.items ++ shown self.now) }
        ensures fits { OnOk result (Fits self.now) };
}

// An element behind a comma.
fn put_next<E: Element>(text: &mut Vec<u8>, element: &E) -> Result<(), AllocError>
    ensures text { OnOk result (text.new.items ≡ text.old.items ++ (codes "," ++ E.shown element.now)) }
    ensures fits { OnOk result (E.Fits element.now) }
{
    put_piece(text, ",")?;
    element.put(text)
}

// The elements after the first, each behind a comma.
fn put_others<E: Element>(text: &mut Vec<u8>, others: &[E]) -> Result<(), AllocError>
    ensures text { OnOk result (text.new.items ≡ text.old.items ++ flat_map (λ element. codes "," ++ E.shown element) others.now) }
    ensures fit { OnOk result (Each E.Fits others.now) }
{
    for element in others {
        put_next(text, element)?;
    }
    Ok(())
}

// The elements, with commas between.
fn put_elements<E: Element>(text: &mut Vec<u8>, elements: &[E]) -> Result<(), AllocError>
    ensures text { OnOk result (text.new.items ≡ text.old.items ++ join_by E.shown (codes ",") elements.now) }
    ensures fit { OnOk result (Each E.Fits elements.now) }
{
    match elements {
        [] => Ok(()),
        [first, others @ ..] => {
            first.put(text)?;
            put_others(text, others)
        }
    }
}

/// An array behind what stands before it.
pub(crate) fn put_array<E: Element>(
    text: &mut Vec<u8>,
    before: &str,
    elements: &[E],
) -> Result<(), AllocError>
    ensures text { OnOk result (text.new.items ≡ text.old.items ++ before.now ++ array_text E.shown elements.now) }
    ensures fit { OnOk result (Each E.Fits elements.now) }
{
    put_piece(text, before)?;
    put_piece(text, "[")?;
    put_elements(text, elements)?;
    put_piece(text, "]")
}
