//! A place for a policy, which its holder owns.
ghost use Rattle.std.specs.Prelude.{◌≡◌, None, false, is_some, option_map};

use super::slot::PolicySlot;
use loose_box::Loose;
use rbac_embedded::Monitor;
use std::alloc::Global;
use std::mem;

/// A place for a policy, which its holder owns. All zeros is an empty one.
#[repr(C)]
pub struct PolicyPlace {
    pub slot: PolicySlot,
    is_full: bool,
    ghost agrees: { is_full ≡ is_some slot.kept },
}

impl PolicyPlace {
    /// A place without a policy.
    pub(crate) fn empty() -> PolicyPlace
        ensures { result.slot.kept ≡ None }
    {
        PolicyPlace {
            slot: PolicySlot::none(),
            is_full: false,
        }
    }

    fn of(monitor: Option<Box<Monitor>>) -> PolicyPlace
        ensures { result.slot.kept ≡ option_map (λ b. b.value) monitor }
    {
        match monitor {
            Some(monitor) => PolicyPlace {
                slot: PolicySlot::of(Loose::of(monitor)),
                is_full: true,
            },
            None => PolicyPlace::empty(),
        }
    }

    fn into_monitor(self, alloc: Global) -> Option<Box<Monitor>>
        ensures { option_map (λ b. b.value) result ≡ self.slot.kept }
    {
        let PolicyPlace { slot, is_full } = self;
        if is_full {
            Some(slot.into_loose(alloc).into_box())
        } else {
            slot.forget();
            None
        }
    }

    /// Takes the monitor out, where there is one.
    pub(crate) fn take(&mut self, alloc: Global) -> Option<Box<Monitor>>
        ensures taken { option_map (λ b. b.value) result ≡ self.old.slot.kept }
        ensures left { self.new.slot.kept ≡ None }
    {
        mem::replace(self, PolicyPlace::empty()).into_monitor(alloc)
    }

    /// Puts a monitor into an empty place, or leaves it empty.
    pub(crate) fn put(&mut self, monitor: Option<Box<Monitor>>)
        requires { self.old.slot.kept ≡ None }
        ensures { self.new.slot.kept ≡ option_map (λ b. b.value) monitor }
    {
        mem::replace(self, PolicyPlace::of(monitor)).forget();
    }

    /// Lets go of an empty place.
    pub(crate) fn forget(self)
        requires { self.slot.kept ≡ None }
    {
        let PolicyPlace { slot, is_full: _ } = self;
        slot.forget();
    }
}
