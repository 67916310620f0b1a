//! The same calls over values, and each status as a value.

use super::clerk::{ADD_ANN, DONE, FOUNDING};
use rbac_embedded::{Holder, Monitor, Status, Verdict};
use std::alloc::Global;
use std::process::Abort;

fn expect_told(
    rt: &impl Abort,
    alloc: Global,
    holder: &mut Holder,
    text: &[u8],
    status: Status,
    length: usize,
) {
    let (mut out, mut written) = ([0; 64], 9);
    let told = holder.apply(alloc, text, &mut out, &mut written);
    assert!(rt; told == status && written == length);
}

fn expect_again(rt: &impl Abort, holder: &Holder, status: Status, text: &[u8]) {
    let (mut out, mut written) = ([0; 6], 9);
    let told = holder.answer(&mut out, &mut written);
    assert!(rt; told == status && written == text.len() && out.starts_with(text));
}

fn expect_check(rt: &impl Abort, holder: &Holder, session: &[u8], status: Status) {
    assert!(rt; holder.check(session, b"read", b"ledger") == status);
}

fn expect_subjects(
    rt: &impl Abort,
    alloc: Global,
    holder: &Holder,
    object: &[u8],
    status: Status,
    length: usize,
) {
    let (mut out, mut written) = ([0; 64], 9);
    let told = holder.subjects(alloc, b"read", object, &mut out, &mut written);
    assert!(rt; told == status && written == length);
}

fn expect_reason(
    rt: &impl Abort,
    alloc: Global,
    holder: &Holder,
    command: &[u8],
    status: Status,
    length: usize,
) {
    let (mut out, mut written) = ([0; 64], 9);
    let told = holder.explain(alloc, command, &mut out, &mut written);
    assert!(rt; told == status && written == length);
}

#[test]
fn a_holder_from_its_opening_to_its_end(rt: HostRuntime) {
    let mut holder = Holder::empty();
    expect_told(&rt, rt.alloc(), &mut holder, ADD_ANN, Status::EmptyPlace, 0);
    expect_again(&rt, &holder, Status::EmptyPlace, b"");
    expect_check(&rt, &holder, b"s1", Status::EmptyPlace);
    let empty = Status::EmptyPlace;
    expect_subjects(&rt, rt.alloc(), &holder, b"ledger", empty, 0);
    expect_reason(&rt, rt.alloc(), &holder, ADD_ANN, empty, 0);
    assert!(&rt; holder.open(rt.alloc(), FOUNDING) == Status::Done);
    assert!(&rt; holder.open(rt.alloc(), FOUNDING) == Status::FullPlace);
    expect_told(&rt, rt.alloc(), &mut holder, ADD_ANN, Status::Done, 6);
    expect_again(&rt, &holder, Status::Done, DONE);
    let bad_name = Status::Checked(Verdict::BadName);
    expect_check(&rt, &holder, b"s 1", bad_name);
    expect_subjects(&rt, rt.alloc(), &holder, b"led ger", bad_name, 0);
    expect_subjects(&rt, rt.alloc(), &holder, b"ledger", Status::Done, 26);
    expect_reason(&rt, rt.alloc(), &holder, ADD_ANN, Status::Done, 57);
    assert!(&rt; holder.close() == Status::Done);
    assert!(&rt; holder.close() == Status::EmptyPlace);
    drop(holder);
}

fn boxed(rt: &impl Abort, alloc: Global) -> Box<Monitor> {
    let Ok(monitor) = Monitor::found(alloc, FOUNDING) else {
        panic!(rt);
    };
    Box::new(alloc, monitor).expect(rt, "memory")
}

#[test]
fn a_holder_takes_a_monitor_and_gives_it_back(rt: HostRuntime) {
    let mut holder = Holder::of(Some(boxed(&rt, rt.alloc())));
    expect_told(&rt, rt.alloc(), &mut holder, ADD_ANN, Status::Done, 6);
    let kept = holder.into_monitor();
    assert!(&rt;
        kept.as_ref()
            .is_some_and(|monitor| monitor.answer() == DONE)
    );
    drop(kept);
}
