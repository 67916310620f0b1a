//! When a command is passed by the members of a group.
ghost use Rattle.std.specs.Prelude.{◌≡◌, ◌==◌, ◌||◌, length};
ghost use Rattle.rbac_words.specs.Stamp.{has_passed};
ghost use Rattle.rbac_words.specs.Keeping.Member.{is_passed};

use rbac_words::{Stamp, Submission as Held};

// Whether this member need not be waited for: it is this one or the stamp's own, or its latest stamp is greater.
fn passes(member: usize, me: u32, latest: Option<Stamp>, stamp: Stamp) -> bool
    ensures { result ≡ ((member == me || member == stamp.member) || has_passed latest stamp) }
{
    member == me as usize
        || member == stamp.member as usize
        || latest.is_some_and(|latest| stamp < latest)
}

// Whether no member need be waited for. Item k - 1 is the latest stamp of member k.
pub(crate) fn is_passed_by_all(me: u32, latest: &[Option<Stamp>], held: &Held) -> bool
    ensures { result ≡ is_passed (length latest.now) me latest.now held.now }
{
    for (place, last) in latest.iter().enumerate() {
        if !passes(place + 1, me, *last, held.stamp) {
            return false;
        }
    }
    true
}
