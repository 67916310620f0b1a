//! What stands in the way of a command, as a sentence.
ghost use Rattle.std.specs.Prelude.{◌≡◌, ◌++◌, length, codes, IfOk, OnOk};
ghost use Rattle.std.specs.List.{flat_map};
ghost use Rattle.rbac_pages.specs.PageText.{name_text};
ghost use Rattle.rbac_decide.specs.Hindrance.{names_of, told_by};
ghost use Rattle.rbac_pages.specs.HindranceText.{named, numbered, inherited_text, kind_word, holder_word, counted_word, set_named, excess_text, words_of, pair_text, names_text, besides_text, denied_text};

use crate::text::{NameTeller, Teller, put, put_all};
use rbac_decide::{Counted, Named};
use rbac_reasons::{Chain, Explained, Explanation};
use rbac_terms::{Denial, Name, NameSet, Separation};
use std::alloc::{AllocError, Global};

// Words, and a name behind them.
#[tactic(auto, unfolding(crate::specs::HindranceText::named))]
fn put_named(text: &mut Vec<u8>, words: &str, name: &Name) -> Result<(), AllocError>
    ensures { OnOk result (text.new.items ≡ text.old.items ++ named words.now name.now) }
{
    text.extend_from_slice(words.as_bytes())?;
    text.extend_from_slice(name.as_bytes())
}

// Words, and a number behind them.
#[tactic(auto, unfolding(crate::specs::HindranceText::numbered))]
fn put_numbered(text: &mut Vec<u8>, words: &str, number: u64) -> Result<(), AllocError>
    ensures { OnOk result (text.new.items ≡ text.old.items ++ numbered words.now number) }
{
    text.extend_from_slice(words.as_bytes())?;
    put(text, number)
}

fn kind_word(kind: Separation) -> &'static str
    ensures { result.now ≡ kind_word kind }
{
    match kind {
        Separation::Static => "static",
        Separation::Dynamic => "dynamic",
    }
}

fn holder_word(kind: Separation) -> &'static str
    ensures { result.now ≡ holder_word kind }
{
    match kind {
        Separation::Static => "user ",
        Separation::Dynamic => "session ",
    }
}

fn counted_word(counted: Counted) -> &'static str
    ensures { result.now ≡ counted_word counted }
{
    match counted {
        Counted::Users => "users",
        Counted::Roles => "roles",
        Counted::Sessions => "sessions",
        Counted::Sets(Separation::Static) => "static sets",
        Counted::Sets(Separation::Dynamic) => "dynamic sets",
    }
}

// Words, the kind of a set, and its name.
#[tactic(auto, unfolding(crate::specs::HindranceText::set_named))]
fn put_set(text: &mut Vec<u8>, words: &str, kind: Separation, set: &Name) -> Result<(), AllocError>
    ensures { OnOk result (text.new.items ≡ text.old.items ++ set_named words.now kind set.now) }
{
    text.extend_from_slice(words.as_bytes())?;
    text.extend_from_slice(kind_word(kind).as_bytes())?;
    text.extend_from_slice(b" set ")?;
    text.extend_from_slice(set.as_bytes())
}

// Two names, each behind its words.
fn put_both(
    text: &mut Vec<u8>,
    words: &str,
    name: &Name,
    others: &str,
    other: &Name,
) -> Result<(), AllocError>
    ensures { OnOk result (text.new.items ≡ text.old.items ++ (named words.now name.now ++ named others.now other.now)) }
{
    put_named(text, words, name)?;
    put_named(text, others, other)
}

// How many there would be, and how many there may be by a set's number.
#[tactic(auto, unfolding(crate::specs::HindranceText::excess_text))]
fn put_excess(text: &mut Vec<u8>, count: usize, number: u32) -> Result<(), AllocError>
    ensures { OnOk result (text.new.items ≡ text.old.items ++ excess_text count number) }
{
    put_numbered(text, ", ", count as u64)?;
    put_numbered(text, " of at most ", u64::from(number).saturating_sub(1))
}

/// The next role that is inherited.
#[derive(Drop)]
struct InheritedTeller;

impl Teller<Name, u8> for InheritedTeller {
    ghost use Rattle.rbac_pages.specs.HindranceText.{inherited_text};

    ghost told_of = { λ teller role. inherited_text role };

    fn put(&self, text: &mut Vec<u8>, role: &Name) -> Result<(), AllocError> {
        put_named(text, " inherits ", role)
    }
}

// What each denial says of its names.
fn words_of(denial: Denial) -> &'static str
    ensures { result.now ≡ words_of denial }
{
    match denial {
        Denial::UserExists => "there is already a user ",
        Denial::NoUser => "there is no user ",
        Denial::RoleExists => "there is already a role ",
        Denial::NoRole => "there is no role ",
        Denial::Assigned => " is already assigned role ",
        Denial::NotAssigned => " is not assigned role ",
        Denial::NoPermission => "the founding has no permission ",
        Denial::NotGranted => " itself is not granted ",
        Denial::SessionExists => "there is already a session ",
        Denial::NoSession => "there is no session ",
        Denial::NotOwner => "the session belongs to user ",
        Denial::NotAuthorized => "the user is not authorized for role ",
        Denial::RoleActive => " is already active in session ",
        Denial::RoleNotActive => " is not active in session ",
        Denial::Inherits => " is already declared to inherit role ",
        Denial::NoInheritance => " is not declared to inherit role ",
        Denial::Cycle => "the roles would inherit each other: ",
        Denial::SsdViolated => " would be authorized for too many roles of static set ",
        Denial::DsdViolated => " would have too many active roles of dynamic set ",
        Denial::SetExists => "there is already a ",
        Denial::NoSet => "there is no ",
        Denial::BadCardinality => "the ",
        Denial::InSet => " is already in the ",
        Denial::NotInSet => " is not in the ",
        Denial::RoleConstrained => "the role is in the ",
        Denial::Limit => "there can be no more ",
        Denial::NoOperation => "the founding has no operation ",
        Denial::NoObject => "the founding has no object ",
        Denial::Limited => "the hierarchy is limited, and the ascendant already inherits role ",
    }
}

// A pair: of one that would close a cycle the chain is told, and of a limited ascendant its descendant.
fn put_pair(
    text: &mut Vec<u8>,
    denial: Denial,
    ascendant: &Name,
    descendant: &Name,
) -> Result<(), AllocError>
    ensures { OnOk result (text.new.items ≡ text.old.items ++ pair_text denial ascendant.now descendant.now) }
{
    let words = words_of(denial);
    match denial {
        Denial::Cycle => text.extend_from_slice(words.as_bytes()),
        Denial::Limited => put_named(text, words, descendant),
        _ => put_both(text, "role ", ascendant, words, descendant),
    }
}

// The names of a denial, with its words.
fn put_names(text: &mut Vec<u8>, denial: Denial, named: Named<'_>) -> Result<(), AllocError>
    ensures { OnOk result (text.new.items ≡ text.old.items ++ names_text denial (names_of named.entry)) }
{
    let words = words_of(denial);
    match named {
        Named::User { user } => put_named(text, words, user),
        Named::Role { role } => put_named(text, words, role),
        Named::Session { session } => put_named(text, words, session),
        Named::Operation { operation } => put_named(text, words, operation),
        Named::Object { object } => put_named(text, words, object),
        Named::Permission { operation, object } => {
            put_both(text, words, operation, " on ", object)
        }
        Named::Grant {
            operation,
            object,
            role,
        } => {
            put_named(text, "role ", role)?;
            put_both(text, words, operation, " on ", object)
        }
        Named::Assignment { user, role } => put_both(text, "user ", user, words, role),
        Named::Activation { session, role } => put_both(text, "role ", role, words, session),
        Named::Pair {
            ascendant,
            descendant,
        } => put_pair(text, denial, ascendant, descendant),
        Named::Set { kind, set } => put_set(text, words, kind, set),
        Named::Member { kind, set, role } => {
            put_named(text, "role ", role)?;
            put_set(text, words, kind, set)
        }
        Named::Breach { kind, holder, set } => {
            put_both(text, holder_word(kind), holder, words, set)
        }
        Named::Count { counted } => put_count(text, words, counted),
    }
}

// What there can be no more of.
fn put_count(text: &mut Vec<u8>, words: &str, counted: Counted) -> Result<(), AllocError>
    ensures { OnOk result (text.new.items ≡ text.old.items ++ (words.now ++ counted_word counted)) }
{
    text.extend_from_slice(words.as_bytes())?;
    text.extend_from_slice(counted_word(counted).as_bytes())
}

// The roles of a breach, and how many they are.
fn put_breach(text: &mut Vec<u8>, roles: &NameSet, number: u32) -> Result<(), AllocError>
    ensures { OnOk result (text.new.items ≡ text.old.items ++ (codes ":" ++ flat_map name_text roles.now ++ excess_text (length roles.now) number)) }
{
    text.extend_from_slice(b":")?;
    put_all(text, &NameTeller, roles.names())?;
    put_excess(text, roles.len(), number)
}

// The roles of a cycle.
fn put_chain(text: &mut Vec<u8>, chain: &Chain) -> Result<(), AllocError>
    ensures { OnOk result (text.new.items ≡ text.old.items ++ (chain.now.first ++ flat_map inherited_text chain.now.rest.items)) }
{
    text.extend_from_slice(chain.first.as_bytes())?;
    put_all(text, &InheritedTeller, &chain.rest)
}

// The number and the size of a set.
fn put_sizes(text: &mut Vec<u8>, size: usize, number: u32) -> Result<(), AllocError>
    ensures { OnOk result (text.new.items ≡ text.old.items ++ (numbered (codes " would have the number ") number ++ numbered (codes " and this many roles: ") size)) }
{
    put_numbered(text, " would have the number ", u64::from(number))?;
    put_numbered(text, " and this many roles: ", size as u64)
}

// What is told besides the names.
fn put_besides(text: &mut Vec<u8>, explanation: &Explanation) -> Result<(), AllocError>
    ensures { OnOk result (text.new.items ≡ text.old.items ++ besides_text explanation.now) }
{
    match explanation {
        Explanation::Nothing => Ok(()),
        Explanation::Breach { roles, number } => put_breach(text, roles, *number),
        Explanation::Cycle { chain } => put_chain(text, chain),
        Explanation::Size { size, number } => put_sizes(text, *size, *number),
    }
}

/// What is told of a denied command: the word of its denial, and the sentence of what stands in its way.
pub(crate) fn denied_text(alloc: Global, told: &Explained<'_>) -> Result<Vec<u8>, AllocError>
    ensures { IfOk result (λ text. text.items ≡ denied_text (told_by told.now.hindrance) told.now.explanation) }
{
    let mut text = Vec::new(alloc);
    text.extend_from_slice(b"Denied: ")?;
    text.extend_from_slice(told.hindrance.denial.word().as_bytes())?;
    text.extend_from_slice(b": ")?;
    put_names(&mut text, told.hindrance.denial, told.hindrance.named)?;
    put_besides(&mut text, &told.explanation)?;
    text.extend_from_slice(b"\n")?;
    Ok(text)
}
