//! Rows of bits that are written one after the other.
ghost use Rattle.std.specs.Prelude.{◌≡◌, ◌<◌, ◌≤◌, ◌+◌, ◌*◌, ◌||◌, ◌&&◌, ℕ, Bool, IsTrue, [], true, false, nat_eq, length, get_or, IfOk, OnOk, if◌then◌else◌};
ghost use Rattle.bit_rows.specs.Bits.{bit, AreWide, AreBelow, AreJoined, IsRelation, first_of, second_of};
ghost use Rattle.bit_rows.specs.Room.{unset_of_all, ArePreserved, AreWidened};

use crate::row::BitRow;
use std::alloc::{AllocError, Global};
use std::mem::replace;

/// Joins one row into another. Whether it had a bit more.
pub(crate) fn join_row(rows: &mut [BitRow], above: usize, below: usize) -> bool
    requires above { above < length rows.old }
    requires below { below < length rows.old }
    ensures lengths { ArePreserved rows.old rows.new }
    ensures others { (i : ℕ) → nat_eq i above ≡ false → get_or rows.new i [] ≡ get_or rows.old i [] }
    ensures joined { (j : ℕ) → j < 64 * length (get_or rows.old above []) → bit rows.new above j ≡ (bit rows.old above j || bit rows.old below j) }
    ensures same { result ≡ false → (i j : ℕ) → bit rows.new i j ≡ bit rows.old i j }
    ensures fewer { result ≡ true → unset_of_all rows.new < unset_of_all rows.old }
    ensures not_more { unset_of_all rows.new ≤ unset_of_all rows.old }
{
    if above == below {
        return false;
    }
    let lent = rows[below].without_words();
    let added = replace(&mut rows[below], lent);
    let grown = rows[above].join(&added);
    rows[below] = added;
    grown
}

/// Joins a row into each row that has a bit.
pub(crate) fn join_above(rows: &mut [BitRow], above: usize, below: usize)
    requires below { below < length rows.old }
    requires relation { IsRelation rows.old }
    ensures lengths { ArePreserved rows.old rows.new }
    ensures relation { IsRelation rows.new }
    ensures joined { (i j : ℕ) → i < length rows.old → j < length rows.old → bit rows.new i j ≡ (bit rows.old i j || (bit rows.old i above && bit rows.old below j)) }
{
    for at in 0..rows.len() {
        if rows[at].has(above) {
            join_row(rows, at, below);
        }
    }
}

/// Relates each number that is related to some number to itself alone.
pub(crate) fn reset_above(rows: &mut [BitRow], above: usize)
    requires wide { AreWide rows.old (length rows.old) }
    ensures lengths { ArePreserved rows.old rows.new }
    ensures alone { (i j : ℕ) → i < length rows.old → bit rows.new i j ≡ (if bit rows.old i above then nat_eq j i else bit rows.old i j) }
{
    for at in 0..rows.len() {
        if rows[at].has(above) {
            rows[at].leave(at);
        }
    }
}

/// Joins the row of each pair's second number into that of its first. Whether a row had a bit more.
pub(crate) fn join_pairs(rows: &mut [BitRow], pairs: &[(usize, usize)]) -> bool
    requires below { AreBelow pairs.now (length rows.old) }
    ensures lengths { ArePreserved rows.old rows.new }
    ensures still { (i j : ℕ) → IsTrue (bit rows.old i j) → IsTrue (bit rows.new i j) }
    ensures least { (R : ℕ → ℕ → Bool) → ((i j : ℕ) → IsTrue (bit rows.old i j) → IsTrue (R i j)) → AreJoined R pairs.now → (i j : ℕ) → IsTrue (bit rows.new i j) → IsTrue (R i j) }
    ensures fewer { result ≡ true → unset_of_all rows.new < unset_of_all rows.old }
    ensures joined { result ≡ false → (k : ℕ) → k < length pairs.now → (j : ℕ) → j < 64 * length (get_or rows.new (first_of pairs.now k) []) → IsTrue (bit rows.new (second_of pairs.now k) j) → IsTrue (bit rows.new (first_of pairs.now k) j) }
{
    let mut grown = false;
    for pair in pairs {
        if join_row(rows, pair.0, pair.1) {
            grown = true;
        }
    }
    grown
}

/// Joins the row of each pair's second number into that of its first, until no row has a bit more by it.
pub(crate) fn join_until_closed(rows: &mut [BitRow], pairs: &[(usize, usize)])
    requires below { AreBelow pairs.now (length rows.old) }
    requires relation { IsRelation rows.old }
    ensures lengths { ArePreserved rows.old rows.new }
    ensures still { (i j : ℕ) → IsTrue (bit rows.old i j) → IsTrue (bit rows.new i j) }
    ensures joined { AreJoined (bit rows.new) pairs.now }
    ensures least { (R : ℕ → ℕ → Bool) → ((i j : ℕ) → IsTrue (bit rows.old i j) → IsTrue (R i j)) → AreJoined R pairs.now → (i j : ℕ) → IsTrue (bit rows.new i j) → IsTrue (R i j) }
{
    while join_pairs(rows, pairs) {}
}

/// Makes each row as wide as so many words, unless it is.
pub(crate) fn widen_all(rows: &mut [BitRow], words: usize) -> Result<(), AllocError>
    ensures wide { OnOk result (AreWide rows.new (64 * words)) }
    ensures widened { AreWidened rows.old rows.new }
    ensures bits { (i j : ℕ) → bit rows.new i j ≡ bit rows.old i j }
{
    for at in 0..rows.len() {
        rows[at].widen(words)?;
    }
    Ok(())
}

/// The number of words that each row has at least, after the rows, and those that are spare, are as wide as so many words.
pub(crate) fn widen_both(
    rows: &mut [BitRow],
    spare: &mut [BitRow],
    width: usize,
    words: usize,
) -> Result<usize, AllocError>
    requires rows { AreWide rows.old (64 * width) }
    requires spare { AreWide spare.old (64 * width) }
    ensures wide { IfOk result (λ now. (words ≤ now) × (width ≤ now) × AreWide rows.new (64 * now) × AreWide spare.new (64 * now)) }
    ensures rows { AreWidened rows.old rows.new }
    ensures spare { AreWidened spare.old spare.new }
    ensures bits { (i j : ℕ) → bit rows.new i j ≡ bit rows.old i j }
{
    if words <= width {
        return Ok(width);
    }
    widen_all(rows, words)?;
    widen_all(spare, words)?;
    Ok(words)
}

/// Adds rows with so many words, until there are as many as that.
pub(crate) fn add_spare(
    alloc: Global,
    spare: &mut Vec<BitRow>,
    many: usize,
    words: usize,
) -> Result<(), AllocError>
    requires { AreWide spare.old.items (64 * words) }
    ensures wide { AreWide spare.new.items (64 * words) }
    ensures enough { OnOk result (many ≤ length spare.new.items) }
    ensures not_fewer { length spare.old.items ≤ length spare.new.items }
{
    while spare.len() < many {
        let row = BitRow::wide(alloc, words)?;
        spare.push(row)?;
    }
    Ok(())
}

/// Moves a bit of each row to another place.
pub(crate) fn move_bits(rows: &mut [BitRow], from: usize, to: usize)
    requires from { AreWide rows.old (from + 1) }
    requires to { AreWide rows.old (to + 1) }
    ensures lengths { ArePreserved rows.old rows.new }
    ensures moved { (i j : ℕ) → i < length rows.old → bit rows.new i j ≡ (if nat_eq j from then false else if nat_eq j to then bit rows.old i from else bit rows.old i j) }
{
    for at in 0..rows.len() {
        rows[at].move_bit(from, to);
    }
}
