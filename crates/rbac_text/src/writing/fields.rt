//! The fields of a command, each behind a comma and its key. Each call puts one text behind what the buffer has.
ghost use Rattle.std.specs.Prelude.{◌≡◌, ◌++◌, ◌∷◌, [], codes, IsTrue, OnOk};
ghost use Rattle.std.specs.List.{flat_map, join_by, list_all};
ghost use Rattle.rbac_terms.specs.Name.{is_name};
ghost use Rattle.rbac_text.specs.Pieces.{array_text, in_quotes};
ghost use Rattle.rbac_text.specs.Command.{one_name, some_names, whole};
ghost use Rattle.rbac_text.specs.CommandText.{field_text, AreFields, IsField};

use rbac_terms::{Name, NameSet};
use std::alloc::AllocError;
use std::io::Write;

// A key, with what stands before it and after it.
fn put_key(text: &mut Vec<u8>, key: &str) -> Result<(), AllocError>
    ensures { OnOk result (text.new.items ≡ text.old.items ++ codes ",\"" ++ key.now ++ codes "\":") }
{
    text.extend_from_slice(b",\"")?;
    text.extend_from_slice(key.as_bytes())?;
    text.extend_from_slice(b"\":")
}

// A name in its quotes. None of its bytes has to be escaped.
fn put_quoted(text: &mut Vec<u8>, name: &Name) -> Result<(), AllocError>
    ensures text { OnOk result (text.new.items ≡ text.old.items ++ in_quotes name.now) }
    ensures named { OnOk result (IsTrue (is_name name.now)) }
{
    text.extend_from_slice(b"\"")?;
    text.extend_from_slice(name.as_bytes())?;
    text.extend_from_slice(b"\"")
}

// The names after the first, each behind a comma.
fn put_others(text: &mut Vec<u8>, others: &[Name]) -> Result<(), AllocError>
    ensures text { OnOk result (text.new.items ≡ text.old.items ++ flat_map (λ name. codes "," ++ in_quotes name) others.now) }
    ensures named { OnOk result (IsTrue (list_all is_name others.now)) }
{
    for name in others {
        text.extend_from_slice(b",")?;
        put_quoted(text, name)?;
    }
    Ok(())
}

// The names, with commas between.
fn put_listed(text: &mut Vec<u8>, names: &[Name]) -> Result<(), AllocError>
    ensures text { OnOk result (text.new.items ≡ text.old.items ++ join_by in_quotes (codes ",") names.now) }
    ensures named { OnOk result (IsTrue (list_all is_name names.now)) }
{
    match names {
        [] => Ok(()),
        [first, others @ ..] => {
            put_quoted(text, first)?;
            put_others(text, others)
        }
    }
}

// The names in brackets.
fn put_array(text: &mut Vec<u8>, names: &[Name]) -> Result<(), AllocError>
    ensures text { OnOk result (text.new.items ≡ text.old.items ++ array_text in_quotes names.now) }
    ensures named { OnOk result (IsTrue (list_all is_name names.now)) }
{
    text.extend_from_slice(b"[")?;
    put_listed(text, names)?;
    text.extend_from_slice(b"]")
}

/// A name at a key.
pub(crate) fn put_name(text: &mut Vec<u8>, key: &str, name: &Name) -> Result<(), AllocError>
    ensures text { OnOk result (text.new.items ≡ text.old.items ++ field_text (key.now, one_name name.now)) }
    ensures fits { OnOk result (IsField (key.now, one_name name.now)) }
{
    put_key(text, key)?;
    put_quoted(text, name)
}

/// An array of names at a key.
pub(crate) fn put_names(text: &mut Vec<u8>, key: &str, names: &NameSet) -> Result<(), AllocError>
    ensures text { OnOk result (text.new.items ≡ text.old.items ++ field_text (key.now, some_names names.now)) }
    ensures fits { OnOk result (IsField (key.now, some_names names.now)) }
{
    put_key(text, key)?;
    put_array(text, names.names())
}

/// A number at a key.
pub(crate) fn put_whole(text: &mut Vec<u8>, key: &str, n: u32) -> Result<(), AllocError>
    ensures text { OnOk result (text.new.items ≡ text.old.items ++ field_text (key.now, whole n)) }
    ensures fits { IsField (key.now, whole n) }
{
    put_key(text, key)?;
    write!(text, "{n}").map_err(|_| AllocError)
}

/// Two names, each at its key.
#[tactic(auto, using(crate::proofs::TextLemmas::two_fields))]
pub(crate) fn put_two(
    text: &mut Vec<u8>,
    first: &str,
    one: &Name,
    second: &str,
    two: &Name,
) -> Result<(), AllocError>
    ensures text { OnOk result (text.new.items ≡ text.old.items ++ flat_map field_text ((first.now, one_name one.now) ∷ (second.now, one_name two.now) ∷ [])) }
    ensures fit { OnOk result (AreFields ((first.now, one_name one.now) ∷ (second.now, one_name two.now) ∷ [])) }
{
    put_name(text, first, one)?;
    put_name(text, second, two)
}

/// Three names, each at its key.
#[tactic(auto, using(crate::proofs::TextLemmas::third_field))]
pub(crate) fn put_three(
    text: &mut Vec<u8>,
    first: &str,
    one: &Name,
    second: &str,
    two: &Name,
    third: &str,
    three: &Name,
) -> Result<(), AllocError>
    ensures text { OnOk result (text.new.items ≡ text.old.items ++ flat_map field_text ((first.now, one_name one.now) ∷ (second.now, one_name two.now) ∷ (third.now, one_name three.now) ∷ [])) }
    ensures fit { OnOk result (AreFields ((first.now, one_name one.now) ∷ (second.now, one_name two.now) ∷ (third.now, one_name three.now) ∷ [])) }
{
    put_two(text, first, one, second, two)?;
    put_name(text, third, three)
}
