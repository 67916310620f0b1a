//! Inheritance of roles.
ghost use Rattle.std.specs.Prelude.{List, IsTrue, ◌↔◌, ◌≡◌};
ghost use Rattle.sorted_keys.specs.Keys.{has};
ghost use Rattle.rbac_terms.specs.Authorization.{InheritsIn};
ghost use Rattle.rbac_terms.specs.Inheritance.{Inherits, inherits};
ghost use Rattle.rbac_terms.specs.Name.{Name, name_cmp};
ghost use Rattle.rbac_terms.specs.Sound.{IsSound};
ghost use Rattle.rbac_terms.specs.State.{State};

/// The test of inheritance tells whether there is a chain of declared pairs.
pub fn a_test_tells_inheritance()
    ensures { (roles : List Name) (declared : List (Name × Name)) (r q : Name) → IsTrue (inherits roles declared r q) ↔ Inherits roles declared r q }
{}

/// Inheritance is reflexive over the roles and transitive, and in a policy that is sound no two roles inherit one another: it
/// is the partial order of roles of ANSI INCITS 359-2004, 5.2.
pub fn inheritance_is_a_partial_order()
    ensures reflexive { (s : State) (r : Name) → IsTrue (has name_cmp r s.roles) → InheritsIn s r r }
    ensures transitive { (s : State) (r q p : Name) → InheritsIn s r q → InheritsIn s q p → InheritsIn s r p }
    ensures antisymmetric { (s : State) (r q : Name) → IsSound s → InheritsIn s r q → InheritsIn s q r → r ≡ q }
{}
