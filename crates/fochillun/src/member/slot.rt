//! The address of a member, or of none.
ghost use Rattle.std.specs.Prelude.{◌≡◌, Option, Some, None, is_some, true, false};
ghost use Rattle.rbac_embedded_member.specs.Place.{KeptMember as Kept};

use loose_box::Loose;
use rbac_embedded_member::KeptMember;
use std::alloc::Global;
use std::marker::Model;

/// What a place has of a member: its address, where there is one.
#[repr(C)]
pub struct MemberSlot {
    at: *mut u8,
    pub ghost kept: { Option Kept },
}

impl Model for MemberSlot {
    ghost use Rattle.fochillun.specs.Owned.{slot_owns};
    ghost use Rattle.rbac_embedded_member.specs.contracts.kept.KeptMember.{the_row};

    ghost also_owns = { λ s. slot_owns the_row s.kept s.at };
}

// What it owns is a box's, and that of a member may go to any thread.
unsafe impl Send for MemberSlot {}

impl MemberSlot {
    /// No address.
    pub fn none() -> MemberSlot
        ensures { result.kept ≡ None }
    {
        MemberSlot {
            at: std::ptr::null_mut(),
        }
    }

    /// Lets go of an empty slot.
    pub fn forget(self)
        requires { is_some self.kept ≡ false }
    {
        let MemberSlot { at: _ } = self;
    }

    /// The address of a member.
    pub fn of(loose: Loose<KeptMember, Global>) -> MemberSlot
        ensures { result.kept ≡ Some loose.value }
    {
        let Loose { at, alloc: _ } = loose;
        MemberSlot { at: at as *mut u8 }
    }

    /// The member at the address.
    pub fn into_loose(self, alloc: Global) -> Loose<KeptMember, Global>
        requires { is_some self.kept ≡ true }
        ensures { Some result.value ≡ self.kept }
    {
        let MemberSlot { at } = self;
        Loose {
            at: at as *mut KeptMember,
            alloc,
        }
    }
}
