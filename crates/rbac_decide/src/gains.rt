//! The counts that users come to by roles that they get besides: each number that is kept, and how many of its set's roles are new to
//! the user. Where one comes to its set's own number, the user would break the set.
ghost use Rattle.std.specs.Prelude.{◌≡◌, List, true, false, map, filter, count_by, All, slice_get, IfOk, IfSome, IfNone, MatchOption};
ghost use Rattle.rbac_decide.specs.Words.{find, list_any, filter_map, option_copied, unwrap_or, has, Name as NameValue, name_cmp};
ghost use Rattle.rbac_decide.specs.Words.{Vocabulary as VocabularyValue};
ghost use Rattle.rbac_decide.specs.Breaking.{is_constrained_junior};
ghost use Rattle.rbac_decide.specs.Counting.{cut_to, touched_sets};
ghost use Rattle.rbac_decide.specs.Gains.{entry_of, number_with, reaches, counts_with, breaks_touched, receives, AreGains};
ghost use Rattle.rbac_decide.specs.Tables.{state_of};

use crate::authorization::{fresh_roles, is_authorized};
use crate::gathered::Ground;
use crate::tables::Tables;
use crate::touched::{Constrained, constrained_below};
use rbac_separation::{Counts, RoleSet, Row, number_at};
use rbac_terms::{Name, NameSet};
use std::alloc::{AllocError, Global};

/// A set that has one of some roles, looked at for many users: which of the roles it has, by their places among these, and where its
/// numbers stand in the rows of the counts.
#[derive(Drop)]
pub(crate) struct CountedSet {
    set: Name,
    roles: Vec<usize>,
    cardinality: u32,
    place: Option<usize>,
}

// The places of those of the names that are among others.
fn places_among(alloc: Global, names: &[Name], among: &NameSet) -> Result<Vec<usize>, AllocError>
    ensures { IfOk result (λ places. filter_map (slice_get among.now) places.items ≡ filter (λ r. has name_cmp r among.now) names.now) }
{
    let others = among.names();
    let mut places = Vec::new(alloc);
    for name in names {
        match others.binary_search(name) {
            Ok(place) => places.push(place)?,
            Err(_) => {}
        }
    }
    Ok(places)
}

// The set, with the places of those of its roles that are among these.
fn counted_set(
    alloc: Global,
    counts: &Counts,
    entry: &(Name, RoleSet),
    among: &NameSet,
) -> Result<CountedSet, AllocError>
    ensures set { IfOk result (λ counted. entry_of among.now counted ≡ (entry.now.0, record { roles = filter (λ r. has name_cmp r among.now) entry.now.1.roles; cardinality = entry.now.1.cardinality })) }
    ensures place { IfOk result (λ counted. counted.place ≡ find name_cmp counted.set counts.now.sets) }
{
    let place = counts.place(&entry.0);
    let roles = places_among(alloc, entry.1.roles.names(), among)?;
    Ok(CountedSet {
        set: entry.0.copy()?,
        roles,
        cardinality: entry.1.cardinality,
        place,
    })
}

// Whether the role at a place is new to the user.
#[inline(always)]
fn is_fresh(fresh: &[bool], place: usize) -> bool
    ensures { result ≡ unwrap_or (slice_get fresh.now place) false }
{
    match fresh.get(place) {
        Some(fresh) => *fresh,
        None => false,
    }
}

// How many of the roles at these places are new to the user.
fn count_fresh(fresh: &[bool], places: &[usize]) -> usize
    ensures { result ≡ count_by (λ k. unwrap_or (slice_get fresh.now k) false) places.now }
{
    places
        .iter()
        .filter(|place| is_fresh(fresh, **place))
        .count()
}

impl CountedSet {
    // The number of the set in a row, with the roles that are new to the user; none where they come to the set's own number or more.
    fn number_with(&self, row: &[u32], fresh: &[bool]) -> Option<u32>
        ensures { MatchOption result (reaches row.now fresh.now self.now ≡ true) (λ number. (reaches row.now fresh.now self.now ≡ false) × (number ≡ number_with row.now fresh.now self.now)) }
    {
        let kept = number_at(row, self.place);
        let more = count_fresh(fresh, &self.roles);
        if self.cardinality.saturating_sub(kept) as usize <= more {
            return None;
        }
        Some(kept + more as u32)
    }
}

// The numbers of the sets in a row, with the roles that are new to the user; none where one comes to its set's own number or more.
fn row_with(
    alloc: Global,
    sets: &[CountedSet],
    row: &[u32],
    fresh: &[bool],
) -> Result<Option<Row>, AllocError>
    ensures some { IfOk result (λ gained. IfSome gained (λ numbers. (numbers ≡ map (number_with row.now fresh.now) sets.now) × (list_any (reaches row.now fresh.now) sets.now ≡ false))) }
    ensures none { IfOk result (λ gained. IfNone gained (list_any (reaches row.now fresh.now) sets.now ≡ true)) }
{
    let mut numbers = Row::with_room(alloc, sets.len())?;
    for set in sets {
        match set.number_with(row, fresh) {
            Some(number) => numbers.push(number)?,
            None => return Ok(None),
        }
    }
    Ok(Some(numbers))
}

// The sets that have one of the roles, looked at for many users.
fn counted_sets(
    alloc: Global,
    counts: &Counts,
    below: &Constrained,
) -> Result<Vec<CountedSet>, AllocError>
    ensures sets { IfOk result (λ counted. map (entry_of below.now.roles) counted.items ≡ map (λ e. (e.0, cut_to below.now.roles e.1)) below.now.sets.items) }
    ensures places { IfOk result (λ counted. All (λ set. set.place ≡ find name_cmp set.set counts.now.sets) counted.items) }
{
    let mut counted = Vec::with_capacity(alloc, below.sets.len())?;
    for entry in &below.sets {
        counted.push(counted_set(alloc, counts, entry, &below.roles)?)?;
    }
    Ok(counted)
}

// The names of the sets.
fn names_of(alloc: Global, sets: &[CountedSet]) -> Result<Vec<Name>, AllocError>
    ensures { IfOk result (λ names. names.items ≡ map (λ set. set.set) sets.now) }
{
    let mut names = Vec::with_capacity(alloc, sets.len())?;
    for set in sets {
        names.push(set.set.copy()?)?;
    }
    Ok(names)
}

// The user's numbers of the sets with the roles besides, or none where it would break one of the sets.
fn gained_row(
    alloc: Global,
    tables: &Tables,
    counts: &Counts,
    user: &Name,
    roles: &NameSet,
    sets: &[CountedSet],
) -> Result<Option<Row>, AllocError>
    requires { All (λ set. set.place ≡ find name_cmp set.set counts.now.sets) sets.now }
    ensures some { let touched = map (entry_of roles.now) sets.now in IfOk result (λ gained. IfSome gained (λ row. (row ≡ counts_with tables.now counts.now touched user.now) × (breaks_touched tables.now counts.now touched user.now ≡ false))) }
    ensures none { let touched = map (entry_of roles.now) sets.now in IfOk result (λ gained. IfNone gained (breaks_touched tables.now counts.now touched user.now ≡ true)) }
{
    let fresh = fresh_roles(alloc, &tables.sets, &tables.hierarchy, user, roles.names())?;
    row_with(alloc, sets, counts.row(user), &fresh)
}

// Whether the user becomes authorized for what is below the role: where there is an ascendant, it is authorized for that.
fn receives(tables: &Tables, ascendant: Option<&Name>, user: &Name) -> bool
    ensures { result ≡ receives tables.now (option_copied ascendant.entry) user.now }
{
    match ascendant {
        Some(ascendant) => is_authorized(&tables.sets, &tables.hierarchy, user, ascendant),
        None => true,
    }
}

/// What users come to.
#[derive(Drop)]
pub(crate) enum Gains<'a> {
    /// Their counts, as they are then.
    Told(Ground),
    /// The first of them that would break a static set.
    Broken(&'a Name),
}

// What those of the users come to that receive the roles.
fn gains_of<'a>(
    alloc: Global,
    tables: &Tables,
    counts: &Counts,
    users: &'a [Name],
    ascendant: Option<&Name>,
    roles: &NameSet,
    sets: &[CountedSet],
) -> Result<Gains<'a>, AllocError>
    requires { All (λ set. set.place ≡ find name_cmp set.set counts.now.sets) sets.now }
    ensures { IfOk result (AreGains tables.now counts.now (map (entry_of roles.now) sets.now) (option_copied ascendant.entry) users.now) }
{
    let mut gathered = Ground::nothing(alloc);
    if sets.is_empty() {
        return Ok(Gains::Told(gathered));
    }
    for user in users {
        if receives(tables, ascendant, user) {
            match gained_row(alloc, tables, counts, user, roles, sets)? {
                Some(row) => gathered.add(user, row)?,
                None => return Ok(Gains::Broken(user)),
            }
        }
    }
    gathered.sets = names_of(alloc, sets)?;
    Ok(Gains::Told(gathered))
}

/// What those of the users come to that get the role and what it inherits besides: where there is an ascendant, those that are
/// authorized for it. Only roles of static sets that a user is not authorized for are tried, and no user where the role inherits none.
///
/// # Errors
/// `AllocError` where there is no memory for it.
pub(crate) fn gains_by<'a>(
    alloc: Global,
    tables: &Tables,
    counts: &Counts,
    users: &'a [Name],
    ascendant: Option<&Name>,
    role: &Name,
) -> Result<Gains<'a>, AllocError>
    ensures { IfOk result (λ gains. (below : List NameValue) × ((v : VocabularyValue) (r : NameValue) → has name_cmp r below ≡ is_constrained_junior (state_of tables.now v) role.now r)
        × AreGains tables.now counts.now (touched_sets below tables.now.static_sets.content) (option_copied ascendant.entry) users.now gains) }
{
    let below = constrained_below(alloc, tables, role)?;
    let sets = counted_sets(alloc, counts, &below)?;
    gains_of(alloc, tables, counts, users, ascendant, &below.roles, &sets)
}
