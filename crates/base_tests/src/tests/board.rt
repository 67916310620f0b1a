//! Rows of `rbac_board`: what is set, read and refused.
ghost use Rattle.std.specs.Prelude.{◌≡◌, [], length};
ghost use Rattle.rbac_board.specs.Known.{IsOf};

use rbac_board::{Mark, Row, SetRefusal};
use std::alloc::{AllocError, Global};
use std::marker::Model;
use std::process::Abort;

// A value that contracts see otherwise than it is kept, as those of the crates above.
#[derive(Drop)]
struct Letter {
    code: u8,
}

impl Model for Letter {
    ghost use Rattle.std.specs.Prelude.{◌+◌, ℕ};

    ghost Value = { ℕ };

    ghost view = { λ l. l.code + 1 };
}

fn letter_of(alloc: Global, code: u8) -> Result<Box<Letter>, AllocError> {
    Ok(Box::new(alloc, Letter { code })?)
}

// What the mark reads next.
fn expect_read(rt: &impl Abort, row: &Row<Letter>, mark: &mut Mark<Letter>, wanted: Option<u8>)
    requires { IsOf row.now mark.old }
    ensures { IsOf row.now mark.new }
{
    let found = row.read(mark).expect(rt, "memory");
    assert!(rt; found.map(|letter| letter.code) == wanted);
}

// A mark that has set the first cell of a row.
fn set_first(rt: &impl Abort, alloc: Global, row: &Row<Letter>, code: u8) -> Mark<Letter>
    ensures of { IsOf row.now result }
    ensures one { length result.values ≡ 1 }
{
    let mut mark = row.mark();
    let letter = letter_of(alloc, code).expect(rt, "memory");
    let set = row.set(&mut mark, 0, letter);
    assert!(rt; set.is_ok());
    mark
}

// A mark that has read the only letter of a row, and nothing after it.
fn read_only(rt: &impl Abort, row: &Row<Letter>, code: u8) -> Mark<Letter>
    ensures { IsOf row.now result }
{
    let mut fresh = row.mark();
    expect_read(rt, row, &mut fresh, Some(code));
    expect_read(rt, row, &mut fresh, None);
    fresh
}

// What is found in a cell.
fn expect_cell(rt: &impl Abort, row: &Row<Letter>, place: usize, wanted: Option<u8>) {
    let found = row.get(place).map(|letter| letter.code);
    assert!(rt; found == wanted);
}

// The value that came back with the refusal for a cell that was set.
fn taken(set: Result<(), SetRefusal<Letter>>) -> Option<u8> {
    match set {
        Err(SetRefusal::Taken(value)) => Some(value.code),
        _ => None,
    }
}

// The value that came back with the refusal for a place beyond the row.
fn beyond(set: Result<(), SetRefusal<Letter>>) -> Option<u8> {
    match set {
        Err(SetRefusal::RowFull(value)) => Some(value.code),
        _ => None,
    }
}

// A mark that knows one of two values learns the other one.
fn expect_learned(
    rt: &impl Abort,
    row: &Row<Letter>,
    late: &mut Mark<Letter>,
    mark: &mut Mark<Letter>,
)
    requires late { IsOf row.now late.old }
    requires mark { IsOf row.now mark.old }
{
    if mark.len() == 2 {
        assert!(rt; late.learn(mark, 2).is_ok());
        expect_read(rt, row, late, None);
        assert!(rt; late.len() == 2);
    }
}

// A second mark sets the first cell of a row of two in vain, and a place beyond it.
fn expect_taken_and_full(rt: &impl Abort, alloc: Global, row: &Row<Letter>, late: &mut Mark<Letter>)
    requires of { IsOf row.now late.old }
    requires two { length row.now ≡ 2 }
    requires empty { late.old.values ≡ [] }
{
    let letter = letter_of(alloc, 8).expect(rt, "memory");
    assert!(rt; taken(row.set(late, 0, letter)) == Some(8));
    if late.len() == 0 {
        let letter = letter_of(alloc, 9).expect(rt, "memory");
        assert!(rt; beyond(row.set(late, 2, letter)) == Some(9));
    }
    assert!(rt; late.len() == 0);
}

#[test]
fn sets_each_cell_once(rt: HostRuntime) {
    let alloc = rt.alloc();
    let row = Row::found(alloc, 2).expect(&rt, "memory");
    let mark = set_first(&rt, alloc, &row, 7);
    let mut late = row.mark();
    expect_taken_and_full(&rt, alloc, &row, &mut late);
    expect_cell(&rt, &row, 0, Some(7));
    expect_cell(&rt, &row, 1, None);
    expect_cell(&rt, &row, 2, None);
    drop(mark);
    drop(late);
    drop(row);
}

// What a mark that knows one value knows, and that it agrees with another one of the row.
fn expect_known(
    rt: &impl Abort,
    row: &Row<Letter>,
    again: &mut Mark<Letter>,
    mark: &mut Mark<Letter>,
)
    requires again { IsOf row.now again.old }
    requires mark { IsOf row.now mark.old }
{
    if again.len() == 1 {
        assert!(rt; row.known(again, 0).code == 7);
        again.agree(mark);
    }
    assert!(rt; again.len() == 1 && mark.len() == 1);
}

#[test]
fn reads_what_was_set(rt: HostRuntime) {
    let alloc = rt.alloc();
    let row = Row::found(alloc, 2).expect(&rt, "memory");
    let mut mark = set_first(&rt, alloc, &row, 7);
    let mut fresh = read_only(&rt, &row, 7);
    let mut again = fresh.again(alloc).expect(&rt, "memory");
    expect_known(&rt, &row, &mut again, &mut mark);
    drop(again);
    drop(fresh);
    drop(mark);
    drop(row);
}

#[test]
fn reads_to_the_end_of_a_row(rt: HostRuntime) {
    let alloc = rt.alloc();
    let row = Row::found(alloc, 1).expect(&rt, "memory");
    drop(set_first(&rt, alloc, &row, 3));
    let mark = read_only(&rt, &row, 3);
    assert!(rt; mark.len() == 1);
    drop(mark);
    drop(row);
}

// Sets the second cell.
fn set_second(rt: &impl Abort, alloc: Global, row: &Row<Letter>, mark: &mut Mark<Letter>, code: u8)
    requires of { IsOf row.now mark.old }
    requires one { length mark.old.values ≡ 1 }
    ensures { IsOf row.now mark.new }
{
    let letter = letter_of(alloc, code).expect(rt, "memory");
    assert!(rt; row.set(mark, 1, letter).is_ok());
}

#[test]
fn learns_what_another_mark_knows(rt: HostRuntime) {
    let alloc = rt.alloc();
    let row = Row::found(alloc, 3).expect(&rt, "memory");
    let mut late = row.mark();
    let mut mark = set_first(&rt, alloc, &row, 7);
    set_second(&rt, alloc, &row, &mut mark, 8);
    expect_read(&rt, &row, &mut late, Some(7));
    expect_learned(&rt, &row, &mut late, &mut mark);
    drop(mark);
    drop(late);
    drop(row);
}

// The letter of a place. The first of the second block is another than the first of the row.
fn letter_at(place: usize) -> u8 {
    (place % 251) as u8
}

// Sets so many of the first cells.
fn set_first_many(rt: &impl Abort, alloc: Global, row: &Row<Letter>, count: usize) -> Mark<Letter>
    ensures { IsOf row.now result }
{
    let mut mark = row.mark();
    for place in 0..count {
        let letter = letter_of(alloc, letter_at(place)).expect(rt, "memory");
        assert!(rt; row.set(&mut mark, place, letter).is_ok());
    }
    mark
}

// Reads so many of the first cells, and finds nothing after them.
fn read_first_many(rt: &impl Abort, row: &Row<Letter>, count: usize) -> Mark<Letter>
    ensures { IsOf row.now result }
{
    let mut mark = row.mark();
    for place in 0..count {
        expect_read(rt, row, &mut mark, Some(letter_at(place)));
    }
    expect_read(rt, row, &mut mark, None);
    mark
}

// The last cell of the first block and the first of the second, as two marks of the row know them.
fn expect_two_blocks(
    rt: &impl Abort,
    row: &Row<Letter>,
    fresh: &mut Mark<Letter>,
    mark: &mut Mark<Letter>,
)
    requires fresh { IsOf row.now fresh.old }
    requires mark { IsOf row.now mark.old }
{
    assert!(rt; fresh.len() == 257 && mark.len() == 257);
    fresh.agree(mark);
    assert!(rt; row.known(fresh, 255).code == 4);
    assert!(rt; row.known(mark, 256).code == 5);
}

#[test]
fn a_row_goes_on_in_a_second_block(rt: HostRuntime) {
    let alloc = rt.alloc();
    let row = Row::found(alloc, 258).expect(&rt, "memory");
    let mut mark = set_first_many(&rt, alloc, &row, 257);
    let mut fresh = read_first_many(&rt, &row, 257);
    expect_two_blocks(&rt, &row, &mut fresh, &mut mark);
    expect_cell(&rt, &row, 0, Some(0));
    expect_cell(&rt, &row, 256, Some(5));
    expect_cell(&rt, &row, 257, None);
    drop(fresh);
    drop(mark);
    drop(row);
}

// A boxed letter, made again where a growth is refused.
fn boxed(rt: &impl Abort, alloc: Global, code: u8) -> Box<Letter> {
    match letter_of(alloc, code) {
        Ok(letter) => letter,
        Err(_) => letter_of(alloc, code).expect(rt, "memory"),
    }
}

// The letter that came back with the refusal for want of memory.
fn starved(refusal: SetRefusal<Letter>) -> Option<Box<Letter>> {
    match refusal {
        SetRefusal::NoMemory(value) => Some(value),
        SetRefusal::RowFull(_) | SetRefusal::Taken(_) => None,
    }
}

// Sets the first cell with the letter that a refused growth gave back, which has left the cell and the mark as they were.
fn set_once_more(rt: &impl Abort, row: &Row<Letter>, mark: &mut Mark<Letter>, back: Box<Letter>)
    requires of { IsOf row.now mark.old }
    requires empty { mark.old.values ≡ [] }
    ensures { IsOf row.now mark.new }
{
    assert!(rt; row.get(0).is_none());
    assert!(rt; mark.len() == 0);
    assert!(rt; row.set(mark, 0, back).is_ok());
}

// Sets the first cell, again where a growth is refused.
fn set_again(rt: &impl Abort, row: &Row<Letter>, mark: &mut Mark<Letter>, letter: Box<Letter>)
    requires of { IsOf row.now mark.old }
    requires empty { mark.old.values ≡ [] }
    ensures { IsOf row.now mark.new }
{
    match row.set(mark, 0, letter) {
        Ok(()) => {}
        Err(refusal) => {
            let back = starved(refusal).expect(rt, "the letter");
            set_once_more(rt, row, mark, back);
        }
    }
}

// What is read next, again where a growth is refused.
fn read_again(rt: &impl Abort, row: &Row<Letter>, mark: &mut Mark<Letter>, wanted: Option<u8>)
    requires { IsOf row.now mark.old }
    ensures { IsOf row.now mark.new }
{
    let found = match row.read(mark) {
        Ok(found) => found,
        Err(_) => row.read(mark).expect(rt, "memory"),
    };
    assert!(rt; found.map(|letter| letter.code) == wanted);
}

// A second mark, asked for again where a growth is refused.
fn second(rt: &impl Abort, alloc: Global, mark: &mut Mark<Letter>) -> Mark<Letter> {
    match mark.again(alloc) {
        Ok(second) => second,
        Err(_) => mark.again(alloc).expect(rt, "memory"),
    }
}

// With ample memory each call goes well at once; `bench/hostile/refuse_each_growth` runs this with each growth refused in turn.
#[test]
fn a_row_that_is_asked_again(rt: HostRuntime) {
    let alloc = rt.alloc();
    let row = match Row::found(alloc, 1) {
        Ok(row) => row,
        Err(_) => Row::found(alloc, 1).expect(&rt, "memory"),
    };
    let mut mark = row.mark();
    set_again(&rt, &row, &mut mark, boxed(&rt, alloc, 7));
    assert!(rt; mark.len() == 1);
    drop(mark);
    let mut fresh = row.mark();
    read_again(&rt, &row, &mut fresh, Some(7));
    read_again(&rt, &row, &mut fresh, None);
    let again = second(&rt, alloc, &mut fresh);
    assert!(rt; again.len() == 1);
    drop(again);
    drop(fresh);
    drop(row);
}
