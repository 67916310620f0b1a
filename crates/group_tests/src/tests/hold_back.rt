//! Each public call of `rbac_holdback` with ample memory, and what is least and stable, for both forms. What is expected was written by hand.
ghost use Rattle.std.specs.Prelude.{◌≡◌, ◌≤◌, ◌∷◌, [], length};
ghost use Rattle.rbac_words.specs.Message.{submitted_at};
ghost use Rattle.rbac_words.specs.Stamp.{insert_by_stamp, insert_all};
ghost use Rattle.rbac_words.specs.World.{stamp as stamp_of};
ghost use Rattle.rbac_holdback.specs.Holdback.{CanBeHeld, CanAllBeHeld};

use crate::tests::stamps::{placed, stamp};
use rbac_holdback::{Held, HeldQueue, Holdback, ListHeld};
use rbac_words::{Command, Name, SharedCommand, Stamp};
use std::alloc::Global;
use std::process::Abort;

fn command(rt: &impl Abort, alloc: Global) -> SharedCommand {
    let user = Name::read(alloc, b"ann").expect(rt, "a name");
    SharedCommand::new(alloc, Command::AddUser { user }).expect(rt, "memory")
}

// Holds a command with this stamp.
fn put<Q: HeldQueue>(
    rt: &impl Abort,
    queue: &mut Q,
    clock: u64,
    member: u32,
    command: SharedCommand,
)
    requires { CanBeHeld (Q.content queue.old) (record { stamp = stamp_of clock member; caller = 7; serial = 0; command = command }) }
    ensures members { (Q.content queue.new).members ≡ (Q.content queue.old).members }
    ensures held { (Q.content queue.new).held ≡ insert_by_stamp submitted_at (record { stamp = stamp_of clock member; caller = 7; serial = 0; command = command }) (Q.content queue.old).held }
{
    let held = Held {
        stamp: stamp(clock, member),
        caller: 7,
        serial: 0,
        command,
    };
    let kept = match queue.put(held) {
        Ok(()) => true,
        Err(back) => {
            drop(back);
            false
        }
    };
    assert!(rt; kept);
}

// Holds two commands of one message with this stamp.
fn put_two<Q: HeldQueue>(
    rt: &impl Abort,
    alloc: Global,
    queue: &mut Q,
    clock: u64,
    member: u32,
    commands: (SharedCommand, SharedCommand),
)
    requires { CanAllBeHeld (Q.content queue.old) (record { stamp = stamp_of clock member; caller = 7; serial = 0; command = commands.0 } ∷ record { stamp = record { clock = clock; member = member; place = 1 }; caller = 7; serial = 1; command = commands.1 } ∷ []) }
    ensures members { (Q.content queue.new).members ≡ (Q.content queue.old).members }
    ensures held { (Q.content queue.new).held ≡ insert_all submitted_at (record { stamp = stamp_of clock member; caller = 7; serial = 0; command = commands.0 } ∷ record { stamp = record { clock = clock; member = member; place = 1 }; caller = 7; serial = 1; command = commands.1 } ∷ []) (Q.content queue.old).held }
{
    let (first, second) = commands;
    let mut held = Vec::new(alloc);
    let one = Held {
        stamp: stamp(clock, member),
        caller: 7,
        serial: 0,
        command: first,
    };
    let other = Held {
        stamp: placed(clock, member, 1),
        caller: 7,
        serial: 1,
        command: second,
    };
    held.push(one).expect(rt, "memory");
    held.push(other).expect(rt, "memory");
    let kept = match queue.put_all(held) {
        Ok(()) => true,
        Err(back) => {
            drop(back);
            false
        }
    };
    assert!(rt; kept);
}

// Compares the least stamp.
fn expect_least<Q: HeldQueue>(rt: &impl Abort, queue: &Q, wanted: Option<Stamp>) {
    let least = queue.least().map(|held| held.stamp);
    assert_eq!(rt; least, wanted);
}

// Takes the least command out, and compares its stamp.
fn expect_taken<Q: HeldQueue>(rt: &impl Abort, queue: &mut Q, wanted: Option<Stamp>) {
    let taken = queue.take_least();
    assert_eq!(rt; taken.as_ref().map(|held| held.stamp), wanted);
    drop(taken);
}

// Compares whether the least command is stable for this member.
fn expect_stable<Q: HeldQueue>(
    rt: &impl Abort,
    queue: &Q,
    me: u32,
    latest: &[Option<Stamp>],
    wanted: bool,
)
    requires latest { length latest.now ≡ (Q.content queue.now).members }
    requires me { (1 ≤ me) × (me ≤ (Q.content queue.now).members) }
{
    assert_eq!(rt; queue.stable(me, latest), wanted);
}

// Nothing is held at first.
fn play_nothing<Q: HeldQueue + Drop>(rt: &impl Abort, alloc: Global) {
    let mut queue = Q::empty(alloc, 2);
    assert!(rt; queue.is_empty());
    assert_eq!(rt; queue.len(), 0);
    expect_least(rt, &queue, None);
    expect_stable(rt, &queue, 1, &[None, Some(stamp(9, 2))], false);
    expect_taken(rt, &mut queue, None);
    queue.invariants();
    drop(queue);
}

// Commands of two members are taken in the order of their stamps.
fn play_two_members<Q: HeldQueue + Drop>(rt: &impl Abort, alloc: Global) {
    let mut queue = Q::empty(alloc, 2);
    put(rt, &mut queue, 5, 2, command(rt, alloc));
    put(rt, &mut queue, 4, 1, command(rt, alloc));
    put(rt, &mut queue, 5, 1, command(rt, alloc));
    assert_eq!(rt; queue.len(), 3);
    assert!(rt; !queue.is_empty());
    expect_least(rt, &queue, Some(stamp(4, 1)));
    expect_taken(rt, &mut queue, Some(stamp(4, 1)));
    expect_taken(rt, &mut queue, Some(stamp(5, 1)));
    expect_taken(rt, &mut queue, Some(stamp(5, 2)));
    expect_taken(rt, &mut queue, None);
    drop(queue);
}

// Commands of one message are held one after the other.
fn play_together<Q: HeldQueue + Drop>(rt: &impl Abort, alloc: Global) {
    let mut queue = Q::empty(alloc, 2);
    put(rt, &mut queue, 5, 1, command(rt, alloc));
    let commands = (command(rt, alloc), command(rt, alloc));
    put_two(rt, alloc, &mut queue, 4, 2, commands);
    assert_eq!(rt; queue.len(), 3);
    expect_taken(rt, &mut queue, Some(stamp(4, 2)));
    expect_taken(rt, &mut queue, Some(placed(4, 2, 1)));
    expect_taken(rt, &mut queue, Some(stamp(5, 1)));
    expect_taken(rt, &mut queue, None);
    drop(queue);
}

// A command is stable once all others have passed it.
fn play_passing<Q: HeldQueue + Drop>(rt: &impl Abort, alloc: Global) {
    let mut queue = Q::empty(alloc, 4);
    put(rt, &mut queue, 5, 2, command(rt, alloc));
    let late = Some(stamp(6, 3));
    expect_stable(rt, &queue, 1, &[None, None, late, None], false);
    expect_stable(rt, &queue, 1, &[None, None, late, Some(stamp(4, 4))], false);
    expect_stable(rt, &queue, 1, &[None, None, late, Some(stamp(5, 4))], true);
    expect_stable(rt, &queue, 4, &[Some(stamp(5, 1)), None, late, None], false);
    drop(queue);
}

#[test]
fn a_list_holds_nothing_at_first(rt: HostRuntime) {
    play_nothing::<ListHeld>(&rt, rt.alloc());
}

#[test]
fn a_list_gives_in_the_order_of_stamps(rt: HostRuntime) {
    play_two_members::<ListHeld>(&rt, rt.alloc());
}

#[test]
fn a_list_holds_commands_together(rt: HostRuntime) {
    play_together::<ListHeld>(&rt, rt.alloc());
}

#[test]
fn a_list_is_stable_once_all_have_passed(rt: HostRuntime) {
    play_passing::<ListHeld>(&rt, rt.alloc());
}

#[test]
fn queues_hold_nothing_at_first(rt: HostRuntime) {
    let alloc = rt.alloc();
    play_nothing::<Holdback>(&rt, alloc);
}

#[test]
fn queues_give_in_the_order_of_stamps(rt: HostRuntime) {
    let alloc = rt.alloc();
    play_two_members::<Holdback>(&rt, alloc);
}

#[test]
fn queues_hold_commands_together(rt: HostRuntime) {
    let alloc = rt.alloc();
    play_together::<Holdback>(&rt, alloc);
}

#[test]
fn queues_are_stable_once_all_have_passed(rt: HostRuntime) {
    let alloc = rt.alloc();
    play_passing::<Holdback>(&rt, alloc);
}
