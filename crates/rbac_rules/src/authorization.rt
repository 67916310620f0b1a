//! What users are authorized for, and what sessions hold.
ghost use Rattle.std.specs.Prelude.{IsTrue, ◌↔◌, ◌≡◌};
ghost use Rattle.std.specs.FinMap.Entries.{find};
ghost use Rattle.std.specs.List.{list_all};
ghost use Rattle.sorted_keys.specs.Keys.{has};
ghost use Rattle.rbac_terms.specs.Authorization.{IsAuthorized, is_authorized, Holds, holds, is_entitled, purge};
ghost use Rattle.rbac_terms.specs.Effect.{session_holds};
ghost use Rattle.rbac_terms.specs.Name.{Name, Permission, name_cmp, pair_cmp};
ghost use Rattle.rbac_terms.specs.Reviews.{session_permissions};
ghost use Rattle.rbac_terms.specs.Sound.{IsSound};
ghost use Rattle.rbac_terms.specs.State.{State, Session};

/// The test of authorization tells whether the user is assigned a role that inherits this one.
pub fn a_test_tells_authorization()
    ensures { (s : State) (user role : Name) → IsTrue (is_authorized s user role) ↔ IsAuthorized s user role }
{}

/// The test of holding tells whether an active role inherits one to which the permission is granted.
pub fn a_test_tells_holding()
    ensures { (s : State) (session : Session) (permission : Permission) → IsTrue (holds s session permission) ↔ Holds s session permission }
{}

/// A session holds a permission exactly where the review of its permissions lists it.
pub fn a_session_holds_what_its_review_lists()
    ensures { (s : State) (session : Name) (permission : Permission) → IsSound s → session_holds (find name_cmp session s.sessions) s permission ≡ has pair_cmp permission (session_permissions s session) }
{}

/// A purge leaves the sessions that are entitled to their active roles, and they still are.
pub fn a_purge_leaves_the_entitled()
    ensures entitled { (s : State) → IsTrue (list_all (λ e. is_entitled (purge s) e.1) (purge s).sessions) }
    ensures unchanged { (s : State) → IsTrue (list_all (λ e. is_entitled s e.1) s.sessions) → purge s ≡ s }
{}
