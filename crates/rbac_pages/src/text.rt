//! Texts that grow.
ghost use Rattle.std.specs.Prelude.{◌≡◌, ◌++◌, List, OnOk, IfSome};
ghost use Rattle.std.specs.List.{flat_map};
ghost use Rattle.rbac_pages.specs.PageText.{name_text, second_text};

use rbac_terms::Name;
use std::alloc::AllocError;
use std::fmt::Display;
use std::io::Write;

/// Puts a text behind what the buffer has.
pub(crate) fn put<D: Display + Drop>(text: &mut Vec<u8>, shown: D) -> Result<(), AllocError>
    ensures { OnOk result (IfSome (D.output shown) (λ own. text.new.items ≡ text.old.items ++ own)) }
{
    text.write_fmt(shown).map_err(|_| AllocError)
}

/// What tells of a thing: by bytes, which are a text, or by other items.
pub(crate) trait Teller<T, X> {
    /// What is told of a thing.
    ghost told_of: { Self → T → List X };

    /// Puts it behind what the list has.
    fn put(&self, list: &mut Vec<X>, thing: &T) -> Result<(), AllocError>
        ensures { OnOk result (list.new.items ≡ list.old.items ++ told_of self.now thing.now) };
}

/// Puts what is told of things, of one behind the other.
pub(crate) fn put_all<T, X, L: Teller<T, X>>(
    list: &mut Vec<X>,
    teller: &L,
    things: &[T],
) -> Result<(), AllocError>
    ensures { OnOk result (list.new.items ≡ list.old.items ++ flat_map (L.told_of teller.now) things.now) }
{
    for thing in things {
        teller.put(list, thing)?;
    }
    Ok(())
}

/// A name behind a blank.
#[derive(Drop)]
pub(crate) struct NameTeller;

impl Teller<Name, u8> for NameTeller {
    ghost told_of = { λ teller name. name_text name };

    fn put(&self, text: &mut Vec<u8>, name: &Name) -> Result<(), AllocError> {
        text.extend_from_slice(b" ")?;
        text.extend_from_slice(name.as_bytes())
    }
}

/// The second name of a pair behind a blank.
#[derive(Drop)]
pub(crate) struct SecondTeller;

impl Teller<(Name, Name), u8> for SecondTeller {
    ghost told_of = { λ teller pair. second_text pair };

    fn put(&self, text: &mut Vec<u8>, pair: &(Name, Name)) -> Result<(), AllocError> {
        text.extend_from_slice(b" ")?;
        text.extend_from_slice(pair.1.as_bytes())
    }
}
