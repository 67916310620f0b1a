//! Each call of `bit_rows` with ample memory. What is expected was written by hand.
use bit_rows::Relation;
use std::alloc::Global;
use std::process::Abort;
use std::test::Fail;

// So many numbers, each related to itself.
fn numbers(rt: &impl Abort, alloc: Global, count: usize) -> Relation {
    let mut relation = Relation::new(alloc);
    for _ in 0..count {
        relation.add(alloc).expect(rt, "memory");
    }
    relation
}

fn join(rt: &impl Abort, relation: &mut Relation, above: usize, below: usize) {
    assert!(rt; below < relation.len());
    relation.join_above(above, below);
}

// So many numbers, of which these pairs were joined one after the other.
fn joined(rt: &impl Abort, alloc: Global, count: usize, pairs: &[(usize, usize)]) -> Relation {
    let mut relation = numbers(rt, alloc, count);
    for (above, below) in pairs {
        join(rt, &mut relation, *above, *below);
    }
    relation
}

// Compares what the first numbers are related to: a row for each, with a 1 where it is related.
fn expect_rows(rt: &impl Abort, relation: &Relation, rows: &[&str]) {
    for (first, row) in rows.iter().enumerate() {
        for (second, mark) in row.as_bytes().iter().enumerate() {
            assert_eq!(rt; relation.has(first, second), *mark == b'1');
        }
    }
}

#[test]
fn no_numbers_are_related(rt: HostRuntime) {
    let alloc = rt.alloc();
    let relation = Relation::new(alloc);
    relation.invariants();
    assert_eq!(rt; relation.len(), 0);
    assert!(rt; !relation.has(0, 0));
}

#[test]
fn a_new_number_is_related_to_itself_alone(rt: HostRuntime) {
    let alloc = rt.alloc();
    let relation = numbers(&rt, alloc, 2);
    assert_eq!(rt; relation.len(), 2);
    expect_rows(&rt, &relation, &["100", "010", "000"]);
}

// The rows that were made ready before are wide enough, and what is in them does not count.
#[test]
fn numbers_come_into_room_that_was_made_before(rt: HostRuntime) {
    let alloc = rt.alloc();
    let mut relation = joined(&rt, alloc, 63, &[(0, 62)]);
    relation.reserve(alloc, 2).expect(&rt, "memory");
    assert_eq!(rt; relation.len(), 63);
    relation.add_ready();
    relation.add_ready();
    assert_eq!(rt; relation.len(), 65);
    assert!(rt; relation.has(0, 62));
    assert!(rt; relation.has(64, 64));
    assert!(rt; !relation.has(64, 63));
    assert!(rt; !relation.has(0, 64));
}

// More numbers than one word of bits has.
#[test]
fn rows_grow_past_a_word(rt: HostRuntime) {
    let alloc = rt.alloc();
    let relation = joined(&rt, alloc, 130, &[(0, 129)]);
    assert!(rt; relation.has(0, 129));
    assert!(rt; relation.has(129, 129));
    assert!(rt; !relation.has(1, 129));
    assert!(rt; !relation.has(0, 128));
}

#[test]
fn a_row_is_joined_into_all_that_have_a_bit(rt: HostRuntime) {
    let alloc = rt.alloc();
    let relation = joined(&rt, alloc, 4, &[(0, 1), (1, 2)]);
    expect_rows(&rt, &relation, &["1110", "0110", "0010"]);
}

#[test]
fn what_is_above_a_number_is_left_itself_alone(rt: HostRuntime) {
    let alloc = rt.alloc();
    let mut relation = joined(&rt, alloc, 3, &[(0, 1), (1, 2)]);
    relation.reset_above(1);
    expect_rows(&rt, &relation, &["100", "010"]);
}

// The pairs stand in the order that wants one more turn for each step, and go in a circle.
#[test]
fn pairs_are_joined_until_nothing_comes(rt: HostRuntime) {
    let alloc = rt.alloc();
    let mut relation = numbers(&rt, alloc, 4);
    assert_eq!(rt; relation.len(), 4);
    relation.join_pairs(&[(0, 1), (1, 2), (2, 0)]);
    expect_rows(&rt, &relation, &["1110", "1110", "1110", "0001"]);
}

#[test]
fn the_last_number_goes_into_the_gap(rt: HostRuntime) {
    let alloc = rt.alloc();
    let mut relation = joined(&rt, alloc, 4, &[(1, 3), (3, 2)]);
    assert!(rt; 0 < relation.len());
    relation.remove(0);
    assert_eq!(rt; relation.len(), 3);
    expect_rows(&rt, &relation, &["1010", "1110", "0010"]);
}

#[test]
fn a_copy_does_not_change_with_its_source(rt: HostRuntime) -> Result<(), Fail> {
    let alloc = rt.alloc();
    let mut relation = numbers(&rt, alloc, 2);
    let copy = relation.copy()?;
    join(&rt, &mut relation, 0, 1);
    assert!(rt; relation.has(0, 1));
    expect_rows(&rt, &copy, &["10"]);
    Ok(())
}
