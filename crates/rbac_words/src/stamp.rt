//! Stamps, and their total order.
ghost use Rattle.std.specs.Prelude.{IsTrue, ◌≡◌, ◌↔◌};
ghost use Rattle.rbac_words.specs.Stamp.{IsBefore};

use std::cmp::Ordering;

/// When a command was submitted or a message sent: the sender's clock, the sender's number, and the command's place in its
/// message, counted from 0. The smaller clock comes first, and equal clocks are ordered by the smaller member number (Lamport
/// 1978, "Ordering the Events Totally"); the commands of one message are in the order of their places.
#[derive(Clone, Copy, Debug, PartialEq, Eq, Drop)]
pub struct Stamp {
    pub clock: u64,
    pub member: u32,
    pub place: u32,
}

impl Ord for Stamp {
    ghost use Rattle.std.proofs.Common.{rules};
    ghost use Rattle.std.specs.Cmp.Rules.{comparing};
    ghost use Rattle.rbac_words.specs.Stamp.{stamp_cmp};

    ghost cmp = { stamp_cmp };

    ghost total = { Prim.search (comparing, rules) };

    ghost matches_partial_cmp = { Prim.search (comparing, rules) };

    ghost matches_eq = { Prim.search (comparing, rules) };

    fn cmp(&self, other: &Stamp) -> Ordering {
        self.clock
            .cmp(&other.clock)
            .then(self.member.cmp(&other.member))
            .then(self.place.cmp(&other.place))
    }
}

impl PartialOrd for Stamp {
    ghost use Rattle.std.proofs.Common.{rules};
    ghost use Rattle.std.specs.Cmp.{partial_order_from_own_ties};
    ghost use Rattle.std.specs.Cmp.Rules.{comparing};
    ghost use Rattle.std.specs.Ordering.{as_partial_cmp};
    ghost use Rattle.rbac_words.specs.Stamp.{stamp_cmp};

    ghost partial_cmp = { as_partial_cmp stamp_cmp };

    ghost laws = { partial_order_from_own_ties (Prim.search (comparing, rules)) (Prim.search (comparing, rules)) };

    fn partial_cmp(&self, other: &Stamp) -> Option<Ordering> {
        Some(self.cmp(other))
    }
}

impl Stamp {
    /// The stamp of a message: that of its first command.
    pub fn at(clock: u64, member: u32) -> Stamp
        ensures { result ≡ record { clock = clock; member = member; place = 0 } }
    {
        Stamp {
            clock,
            member,
            place: 0,
        }
    }

    /// Whether it comes before the other one.
    pub fn is_before(self, other: Stamp) -> bool
        ensures { IsTrue result ↔ IsBefore self other }
    {
        self < other
    }
}
