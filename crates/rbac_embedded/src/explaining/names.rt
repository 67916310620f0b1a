//! The names that make a precondition fail.
ghost use Rattle.std.specs.Prelude.{◌≡◌, ◌++◌, codes, OnOk};
ghost use Rattle.rbac_decide.specs.Hindrance.{names_of};
ghost use Rattle.rbac_embedded.specs.Explaining.{named, next, kind_word, counted_word, breach_text, names_text};

use rbac_decide::{Counted, Named};
use rbac_terms::{Name, Separation};
use rbac_text::pieces::put_piece;
use std::alloc::AllocError;

// A key and what it has.
#[tactic(auto, unfolding(crate::specs::Explaining::named))]
fn put_value(text: &mut Vec<u8>, key: &str, value: &[u8]) -> Result<(), AllocError>
    ensures { OnOk result (text.new.items ≡ text.old.items ++ named key.now value.now) }
{
    put_piece(text, "\"")?;
    put_piece(text, key)?;
    put_piece(text, "\":\"")?;
    text.extend_from_slice(value)?;
    put_piece(text, "\"")
}

fn put_named(text: &mut Vec<u8>, key: &str, name: &Name) -> Result<(), AllocError>
    ensures { OnOk result (text.new.items ≡ text.old.items ++ named key.now name.now) }
{
    put_value(text, key, name.as_bytes())
}

// The same behind another.
#[tactic(auto, unfolding(crate::specs::Explaining::next))]
fn put_next(text: &mut Vec<u8>, key: &str, name: &Name) -> Result<(), AllocError>
    ensures { OnOk result (text.new.items ≡ text.old.items ++ next key.now name.now) }
{
    put_piece(text, ",")?;
    put_named(text, key, name)
}

fn kind_word(kind: Separation) -> &'static str
    ensures { result.now ≡ kind_word kind }
{
    match kind {
        Separation::Static => "static",
        Separation::Dynamic => "dynamic",
    }
}

fn counted_word(counted: Counted) -> &'static str
    ensures { result.now ≡ counted_word counted }
{
    match counted {
        Counted::Users => "users",
        Counted::Roles => "roles",
        Counted::Sessions => "sessions",
        Counted::Sets(Separation::Static) => "static sets",
        Counted::Sets(Separation::Dynamic) => "dynamic sets",
    }
}

fn put_kind(text: &mut Vec<u8>, kind: Separation) -> Result<(), AllocError>
    ensures { OnOk result (text.new.items ≡ text.old.items ++ named (codes "kind") (kind_word kind)) }
{
    put_value(text, "kind", kind_word(kind).as_bytes())
}

// Two names.
fn put_both(
    text: &mut Vec<u8>,
    key: &str,
    name: &Name,
    other_key: &str,
    other: &Name,
) -> Result<(), AllocError>
    ensures { OnOk result (text.new.items ≡ text.old.items ++ named key.now name.now ++ next other_key.now other.now) }
{
    put_named(text, key, name)?;
    put_next(text, other_key, other)
}

fn put_breach(
    text: &mut Vec<u8>,
    kind: Separation,
    holder: &Name,
    set: &Name,
) -> Result<(), AllocError>
    ensures { OnOk result (text.new.items ≡ text.old.items ++ breach_text kind holder.now set.now) }
{
    put_kind(text, kind)?;
    match kind {
        Separation::Static => {
            put_next(text, "set", set)?;
            put_next(text, "user", holder)
        }
        Separation::Dynamic => {
            put_next(text, "session", holder)?;
            put_next(text, "set", set)
        }
    }
}

/// The names, each behind its key.
///
/// # Errors
/// `AllocError` where there is no memory for them.
pub(crate) fn put_names(text: &mut Vec<u8>, named: Named<'_>) -> Result<(), AllocError>
    ensures { OnOk result (text.new.items ≡ text.old.items ++ names_text (names_of named.entry)) }
{
    match named {
        Named::User { user } => put_named(text, "user", user),
        Named::Role { role } => put_named(text, "role", role),
        Named::Session { session } => put_named(text, "session", session),
        Named::Operation { operation } => put_named(text, "operation", operation),
        Named::Object { object } => put_named(text, "object", object),
        Named::Permission { operation, object } => {
            put_both(text, "object", object, "operation", operation)
        }
        Named::Grant {
            operation,
            object,
            role,
        } => {
            put_both(text, "object", object, "operation", operation)?;
            put_next(text, "role", role)
        }
        Named::Assignment { user, role } => put_both(text, "role", role, "user", user),
        Named::Activation { session, role } => put_both(text, "role", role, "session", session),
        Named::Pair {
            ascendant,
            descendant,
        } => put_both(text, "ascendant", ascendant, "descendant", descendant),
        Named::Set { kind, set } => {
            put_kind(text, kind)?;
            put_next(text, "set", set)
        }
        Named::Member { kind, set, role } => {
            put_kind(text, kind)?;
            put_next(text, "role", role)?;
            put_next(text, "set", set)
        }
        Named::Breach { kind, holder, set } => put_breach(text, kind, holder, set),
        Named::Count { counted } => { put_value(text, "counted", counted_word(counted).as_bytes()) }
    }
}
