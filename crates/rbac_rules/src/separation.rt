//! Separation of duty.
ghost use Rattle.std.specs.Prelude.{false, ◌↔◌, ◌≡◌};
ghost use Rattle.rbac_terms.specs.Constraints.{is_violated, KeepsStatic, KeepsDynamic};
ghost use Rattle.rbac_terms.specs.State.{State};
ghost use Rattle.rbac_terms.specs.declared.separation.Separation.TheVariants.{Static, Dynamic};

/// The tests of separation of duty tell whether of each set each user is authorized for fewer roles than its number, and
/// fewer are active in each session.
pub fn a_test_tells_separation()
    ensures of_users { (s : State) → (is_violated Static s ≡ false) ↔ KeepsStatic s }
    ensures of_sessions { (s : State) → (is_violated Dynamic s ≡ false) ↔ KeepsDynamic s }
{}
