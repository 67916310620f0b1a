//! How the tests write a stamp.
ghost use Rattle.std.specs.Prelude.{◌≡◌};
ghost use Rattle.rbac_words.specs.World.{stamp as stamp_of};

use rbac_words::Stamp;

pub(crate) fn stamp(clock: u64, member: u32) -> Stamp
    ensures { result ≡ stamp_of clock member }
{
    Stamp::at(clock, member)
}

// The stamp of another command of a message than its first one.
pub(crate) fn placed(clock: u64, member: u32, place: u32) -> Stamp
    ensures { result ≡ record { clock = clock; member = member; place = place } }
{
    Stamp {
        clock,
        member,
        place,
    }
}
