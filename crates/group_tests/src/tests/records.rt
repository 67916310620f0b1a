//! How the tests compare a record of a member of a world.

use rbac_words::{Answer, Stamp};
use rbac_world::World;
use std::process::Abort;

// Compares a record of a member's history.
pub(crate) fn expect_record(
    rt: &impl Abort,
    world: &World,
    at: u32,
    place: usize,
    wanted: Stamp,
    answer: Answer,
) {
    let member = world.member(at).expect(rt, "a member");
    let record = member.history().get(place).expect(rt, "a record");
    assert_eq!(rt; record.stamp, wanted);
    assert!(rt; record.answer.same(&answer));
    drop(answer);
}
