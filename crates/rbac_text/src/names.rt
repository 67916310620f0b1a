//! Texts as names.
ghost use Rattle.std.specs.Prelude.{if◌then◌else◌, Ok, Err};
ghost use Rattle.rbac_terms.specs.Name.{is_name};
ghost use Rattle.rbac_text.specs.Steps.{ReadsBut};

use rbac_terms::{Name, NameRefusal};
use std::alloc::Global;

/// The name that a text is.
///
/// # Errors
/// `bad_name` where the text is no name, `no_memory` where memory ends.
pub fn name_or<E: Copy + Drop>(
    alloc: Global,
    text: &str,
    bad_name: E,
    no_memory: E,
) -> Result<Name, E>
    ensures { ReadsBut no_memory (if is_name text.now then Ok text.now else Err bad_name) result }
{
    match Name::read(alloc, text.as_bytes()) {
        Ok(name) => Ok(name),
        Err(NameRefusal::BadName) => Err(bad_name),
        Err(NameRefusal::NoMemory) => Err(no_memory),
    }
}
