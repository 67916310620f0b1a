//! The members of a founding, each under its lock.
ghost use Rattle.std.specs.Prelude.{◌≡◌, ◌≤◌, ◌<◌, [], length, IfOk, IfSome, IfNone, vec_len, vec_capacity};
ghost use Rattle.rbac_words.specs.Group.{IsGroup};
ghost use Rattle.rbac_words.specs.Keeping.Member.{IsNumber};

mod calls;
mod ending;
mod news;
mod pump;
mod round;
mod turn;
mod waiting;

use crate::courier::Courier;
use crate::gate::Gate;
use crate::service::round::Round;
use crate::service::waiting::Waiting;
pub use pump::PumpEnd;
use rbac_node::{GroupName, Node, Rows};
use rbac_words::{Group, Vocabulary};
use std::alloc::{AllocError, Global};
use std::sync::Mutex;
use std::sync::atomic::{AtomicU64, Ordering};

/// A member's lock, and its callers that wait for answers or for the stop.
#[derive(Drop)]
pub(crate) struct Slot<G: GroupName> {
    pub(crate) node: Mutex<Node<G>>,
    pub(crate) waiting: Waiting,
    // How many threads take turns for the member.
    pumps: AtomicU64,
}

impl<G: GroupName> Slot<G> {
    /// A thread takes turns for the member from now on.
    pub(crate) fn begin_pump(&self) {
        self.pumps.fetch_add(1, Ordering::SeqCst);
    }

    /// That thread ends.
    pub(crate) fn end_pump(&self) {
        self.pumps.fetch_sub(1, Ordering::SeqCst);
    }

    /// Whether a thread takes turns for the member.
    pub(crate) fn is_pumped(&self) -> bool {
        self.pumps.load(Ordering::SeqCst) != 0
    }
}

// Room for the nodes, once they are taken out of their locks. It has a lock too: a node is no `Sync`, and a lock makes it one.
#[derive(Drop)]
pub(crate) struct Room<G: GroupName> {
    pub(crate) nodes: Vec<Node<G>>,
    ghost empty: { vec_len nodes ≡ 0 },
    ghost fits: { G.group.members ≤ vec_capacity nodes },
}

/// The members of the founding that G names, a gate and a courier. Nothing is known of a node under its lock but what each node
/// keeps.
#[derive(Drop)]
pub struct Service<G: GroupName, K: Gate + Drop, C: Courier + Drop> {
    pub(crate) rows: Rows,
    pub(crate) slots: Vec<Slot<G>>,
    pub(crate) room: Mutex<Room<G>>,
    pub(crate) round: Round,
    pub(crate) gate: K,
    pub(crate) courier: C,
    ghost group: { IsGroup G.group },
    ghost names: { rows ≡ G.cells },
    ghost members: { length rows.sent ≡ G.group.members },
    ghost count: { vec_len slots ≡ G.group.members },
}

// The member of this number with its lock, and a copy of the vocabulary.
fn found_slot<G: GroupName>(
    alloc: Global,
    rows: &Rows,
    group: Group,
    number: u32,
    vocabulary: &Vocabulary,
) -> Result<Slot<G>, AllocError>
    requires names { (group ≡ G.group) × (vocabulary.now ≡ G.vocabulary) × (rows.now ≡ G.cells) }
    requires members { length rows.now.sent ≡ group.members }
    requires number { IsNumber group number }
{
    let vocabulary = vocabulary.copy()?;
    let waiting = Waiting::found(alloc)?;
    let node = Node::found(alloc, rows, group, number, vocabulary)?;
    Ok(Slot {
        node: Mutex::new(node),
        waiting,
        pumps: AtomicU64::new(0),
    })
}

// All members with their locks, in order of number.
fn found_slots<G: GroupName>(
    alloc: Global,
    rows: &Rows,
    group: Group,
    vocabulary: &Vocabulary,
) -> Result<Vec<Slot<G>>, AllocError>
    requires names { (group ≡ G.group) × (vocabulary.now ≡ G.vocabulary) × (rows.now ≡ G.cells) }
    requires members { length rows.now.sent ≡ group.members }
    ensures { IfOk result (λ slots. vec_len slots ≡ group.members) }
{
    let mut slots = Vec::with_capacity(alloc, group.members() as usize)?;
    for place in 0..group.members() {
        slots.push(found_slot(alloc, rows, group, place + 1, vocabulary)?)?;
    }
    Ok(slots)
}

// What a service keeps of its members.
#[derive(Drop)]
struct Parts<G: GroupName> {
    slots: Vec<Slot<G>>,
    room: Room<G>,
    round: Round,
}

// The parts of a service of these members.
fn found_parts<G: GroupName>(
    alloc: Global,
    rows: &Rows,
    group: Group,
    vocabulary: &Vocabulary,
) -> Result<Parts<G>, AllocError>
    requires names { (group ≡ G.group) × (vocabulary.now ≡ G.vocabulary) × (rows.now ≡ G.cells) }
    requires members { length rows.now.sent ≡ group.members }
    ensures { IfOk result (λ parts. vec_len parts.slots ≡ group.members) }
{
    let room = Room {
        nodes: Vec::with_capacity(alloc, group.members() as usize)?,
    };
    let round = Round::found(alloc, group.members())?;
    let slots = found_slots(alloc, rows, group, vocabulary)?;
    Ok(Parts { slots, room, round })
}

impl<G: GroupName, K: Gate + Drop, C: Courier + Drop> Service<G, K, C> {
    /// The members of a founding, with nothing sent, received, held or delivered. The rows, the group and the vocabulary are
    /// those of the founding that G names, and the rows were made for this group.
    ///
    /// # Errors
    /// `AllocError` where the members get no memory.
    pub fn found(
        alloc: Global,
        rows: Rows,
        group: Group,
        vocabulary: Vocabulary,
        gate: K,
        courier: C,
    ) -> Result<Service<G, K, C>, AllocError>
        requires names { (group ≡ G.group) × (vocabulary ≡ G.vocabulary) × (rows ≡ G.cells) }
        requires members { length rows.sent ≡ group.members }
        ensures rows { IfOk result (λ service. service.rows ≡ rows) }
        ensures members { IfOk result (λ service. vec_len service.slots ≡ group.members) }
        ensures gate { IfOk result (λ service. service.gate ≡ gate) }
        ensures courier { IfOk result (λ service. service.courier ≡ courier) }
    {
        group.invariants();
        let found = found_parts(alloc, &rows, group, &vocabulary);
        drop(vocabulary);
        match found {
            Ok(Parts { slots, room, round }) => Ok(Service {
                rows,
                slots,
                room: Mutex::new(room),
                round,
                gate,
                courier,
            }),
            Err(refused) => {
                drop(rows);
                drop(gate);
                drop(courier);
                Err(refused)
            }
        }
    }

    // The lock of a member.
    pub(crate) fn slot(&self, at: u32) -> Option<&Slot<G>>
        ensures known { IfSome result (λ _. IsNumber G.group at) }
        ensures stranger { IfNone result (IsNumber G.group at → ⊥) }
    {
        self.slots.get((at as usize).checked_sub(1)?)
    }
}
