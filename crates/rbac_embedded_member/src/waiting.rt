//! What a member waits for.
ghost use Rattle.std.specs.Prelude.{◌≡◌, ◌≤◌, option_map};
ghost use Rattle.rbac_words.specs.World.{least};
ghost use Rattle.rbac_embedded_member.specs.Holding.{awaited_bits, bit_of, if_held, is_awaited};

use rbac_member::Member;
use rbac_words::Stamp;

/// The least command that a member holds back, and of whom it has to hear before that is delivered.
#[derive(Clone, Copy, Debug, PartialEq, Eq, Drop)]
pub struct Waiting {
    /// The command's stamp.
    pub stamp: Stamp,
    /// A bit for each member that it waits for: 1 for member 1, 2 for member 2, 4 for member 3, and so on.
    pub awaited: u32,
}

fn is_awaited(member: &Member, stamp: Stamp, number: u32) -> bool
    ensures { result ≡ is_awaited member.now stamp number }
{
    number <= member.members()
        && !(number == member.number()
            || number == stamp.member
            || member.has_passed(number, stamp))
}

fn bit_of(member: &Member, stamp: Stamp, number: u32, bit: u32) -> u32
    ensures bit { result ≡ bit_of member.now stamp number bit }
    ensures low { result ≤ bit }
{
    if is_awaited(member, stamp, number) {
        bit
    } else {
        0
    }
}

fn awaited_bits(member: &Member, stamp: Stamp) -> u32
    ensures { result ≡ awaited_bits member.now stamp }
{
    bit_of(member, stamp, 1, 1)
        + bit_of(member, stamp, 2, 2)
        + bit_of(member, stamp, 3, 4)
        + bit_of(member, stamp, 4, 8)
        + bit_of(member, stamp, 5, 16)
        + bit_of(member, stamp, 6, 32)
        + bit_of(member, stamp, 7, 64)
        + bit_of(member, stamp, 8, 128)
}

/// What the least held command waits for, where one is held.
pub fn waits_of(member: &Member) -> Option<Waiting>
    ensures { result ≡ if_held member.now (least member.now.held) }
{
    let stamp = member.least_held()?;
    Some(Waiting {
        stamp,
        awaited: awaited_bits(member, stamp),
    })
}
