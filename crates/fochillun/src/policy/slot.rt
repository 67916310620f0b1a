//! The address of a monitor, or of none.
ghost use Rattle.std.specs.Prelude.{◌≡◌, Option, Some, None, is_some, true, false};
ghost use Rattle.rbac_embedded.specs.Kept.{Kept};

use loose_box::Loose;
use rbac_embedded::Monitor;
use std::alloc::Global;
use std::marker::Model;

/// What a place has of a monitor: its address, where there is one.
#[repr(C)]
pub struct PolicySlot {
    at: *mut u8,
    pub ghost kept: { Option Kept },
}

impl Model for PolicySlot {
    ghost use Rattle.fochillun.specs.Owned.{slot_owns};
    ghost use Rattle.rbac_embedded.specs.contracts.monitor.Monitor.{the_row};

    ghost also_owns = { λ s. slot_owns the_row s.kept s.at };
}

// What it owns is a box's, and that of a monitor may go to any thread.
unsafe impl Send for PolicySlot {}

impl PolicySlot {
    /// No address.
    pub fn none() -> PolicySlot
        ensures { result.kept ≡ None }
    {
        PolicySlot {
            at: std::ptr::null_mut(),
        }
    }

    /// Lets go of an empty slot.
    pub fn forget(self)
        requires { is_some self.kept ≡ false }
    {
        let PolicySlot { at: _ } = self;
    }

    /// The address of a monitor.
    pub fn of(loose: Loose<Monitor, Global>) -> PolicySlot
        ensures { result.kept ≡ Some loose.value }
    {
        let Loose { at, alloc: _ } = loose;
        PolicySlot { at: at as *mut u8 }
    }

    /// The monitor at the address.
    pub fn into_loose(self, alloc: Global) -> Loose<Monitor, Global>
        requires { is_some self.kept ≡ true }
        ensures { Some result.value ≡ self.kept }
    {
        let PolicySlot { at } = self;
        Loose {
            at: at as *mut Monitor,
            alloc,
        }
    }
}
