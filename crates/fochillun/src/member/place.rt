//! A place for a member, which its holder owns.
ghost use Rattle.std.specs.Prelude.{◌≡◌, None, false, is_some, option_map};

use super::slot::MemberSlot;
use loose_box::Loose;
use rbac_embedded_member::KeptMember;
use std::alloc::Global;
use std::mem;

/// A place for a member, which its holder owns. All zeros is an empty one.
#[repr(C)]
pub struct MemberPlace {
    pub slot: MemberSlot,
    is_full: bool,
    ghost agrees: { is_full ≡ is_some slot.kept },
}

impl MemberPlace {
    /// A place without a member.
    pub(crate) fn empty() -> MemberPlace
        ensures { result.slot.kept ≡ None }
    {
        MemberPlace {
            slot: MemberSlot::none(),
            is_full: false,
        }
    }

    fn of(kept: Option<Box<KeptMember>>) -> MemberPlace
        ensures { result.slot.kept ≡ option_map (λ b. b.value) kept }
    {
        match kept {
            Some(kept) => MemberPlace {
                slot: MemberSlot::of(Loose::of(kept)),
                is_full: true,
            },
            None => MemberPlace::empty(),
        }
    }

    fn into_kept(self, alloc: Global) -> Option<Box<KeptMember>>
        ensures { option_map (λ b. b.value) result ≡ self.slot.kept }
    {
        let MemberPlace { slot, is_full } = self;
        if is_full {
            Some(slot.into_loose(alloc).into_box())
        } else {
            slot.forget();
            None
        }
    }

    /// Takes the member out, where there is one.
    pub(crate) fn take(&mut self, alloc: Global) -> Option<Box<KeptMember>>
        ensures taken { option_map (λ b. b.value) result ≡ self.old.slot.kept }
        ensures left { self.new.slot.kept ≡ None }
    {
        mem::replace(self, MemberPlace::empty()).into_kept(alloc)
    }

    /// Puts a member into an empty place, or leaves it empty.
    pub(crate) fn put(&mut self, kept: Option<Box<KeptMember>>)
        requires { self.old.slot.kept ≡ None }
        ensures { self.new.slot.kept ≡ option_map (λ b. b.value) kept }
    {
        mem::replace(self, MemberPlace::of(kept)).forget();
    }

    /// Lets go of an empty place.
    pub(crate) fn forget(self)
        requires { self.slot.kept ≡ None }
    {
        let MemberPlace { slot, is_full: _ } = self;
        slot.forget();
    }
}
