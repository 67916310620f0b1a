//! Answers, their copies and when they are the same.

use super::{assert_names, name, pairs, set};
use rbac_terms::{Answer, Denial, Name, NameSet, PermissionSet};
use sorted_keys::{Same, SortedSet};
use std::alloc::Global;
use std::process::Abort;

fn permissions(rt: &impl Abort, alloc: Global, texts: &[(&str, &str)]) -> PermissionSet {
    let sorted = SortedSet::from_vec(pairs(rt, alloc, texts));
    PermissionSet::of(sorted.expect(rt, "no permission stands twice"))
}

// Whether the copy of an answer is the same answer.
fn expect_answer_copied(rt: &impl Abort, answer: Answer) {
    let copy = answer.copy().expect(rt, "memory");
    assert!(rt; copy.same(&answer));
}

fn expect_other_answer(rt: &impl Abort, answer: Answer, other: Answer) {
    assert!(rt; !answer.same(&other));
}

#[test]
fn words_are_copied(rt: HostRuntime) {
    expect_answer_copied(&rt, Answer::Done);
    expect_answer_copied(&rt, Answer::Granted);
    expect_answer_copied(&rt, Answer::Refused);
    expect_answer_copied(&rt, Answer::Denied(Denial::NoSet));
    expect_other_answer(&rt, Answer::Granted, Answer::Refused);
    expect_other_answer(
        &rt,
        Answer::Denied(Denial::NoSet),
        Answer::Denied(Denial::NoRole),
    );
}

#[test]
fn lists_are_copied(rt: HostRuntime) {
    let alloc = rt.alloc();
    let names = || Answer::Names(set(&rt, alloc, &["payer", "boss"]));
    let reads = || Answer::Permissions(permissions(&rt, alloc, &[("read", "ledger")]));
    expect_answer_copied(&rt, names());
    expect_answer_copied(&rt, reads());
    expect_answer_copied(&rt, Answer::Count(2));
    expect_other_answer(&rt, names(), Answer::Names(NameSet::new(alloc)));
    expect_other_answer(
        &rt,
        reads(),
        Answer::Permissions(permissions(&rt, alloc, &[])),
    );
    expect_other_answer(&rt, Answer::Count(2), Answer::Count(3));
}

// Whether the permissions are of these operations and objects, in this order.
fn are_named(permissions: &[(Name, Name)], texts: &[(&str, &str)]) -> bool {
    for ((operation, object), (first, second)) in permissions.iter().zip(texts) {
        if operation.as_bytes() != first.as_bytes() || object.as_bytes() != second.as_bytes() {
            return false;
        }
    }
    permissions.len() == texts.len()
}

#[test]
fn permissions_stand_by_operation_and_then_by_object(rt: HostRuntime) {
    let texts = [("read", "ledger"), ("pay", "ledger"), ("pay", "invoice")];
    let sorted = permissions(&rt, rt.alloc(), &texts);
    let rising = [("pay", "invoice"), ("pay", "ledger"), ("read", "ledger")];
    assert!(rt; are_named(sorted.permissions(), &rising));
}

#[test]
fn a_set_of_permissions_is_copied(rt: HostRuntime) {
    let sorted = permissions(&rt, rt.alloc(), &[("read", "ledger"), ("pay", "ledger")]);
    let copy = sorted.copy().expect(&rt, "memory");
    assert!(rt; copy.same(&sorted));
    drop(copy);
    drop(sorted);
}

#[test]
fn copies_of_names_are_added(rt: HostRuntime) {
    let alloc = rt.alloc();
    let mut names = NameSet::of(SortedSet::new(alloc));
    for text in ["payer", "boss", "payer"] {
        let added = names.add_copy(&name(&rt, alloc, text));
        added.expect(&rt, "memory");
    }
    assert_names(&rt, names.names(), &["boss", "payer"]);
    drop(names);
}
