//! The numbers of roles.
ghost use Rattle.std.specs.Prelude.{◌≡◌, ◌↔◌, ◌<◌, ◌||◌, ◌&&◌, ◌/◌, ℕ, Bool, IsTrue, IfOk, IfSome, IfNone, length, true, false};
ghost use Rattle.sorted_keys.specs.Keys.{has};
ghost use Rattle.bit_rows.specs.Bits.{related};
ghost use Rattle.rbac_terms.specs.Name.{Name as NameValue, name_cmp};
ghost use Rattle.rbac_hierarchy.specs.Numbers.{role_at, roles_of};

use bit_rows::Relation;
use indexmap::IndexSet;
use rbac_terms::{Name, NameSet};
use sorted_keys::KeyTest;
use std::alloc::AllocError;

/// The number of a role, where it is one.
pub(crate) fn number_of(numbers: &IndexSet<Name>, role: &Name) -> Option<usize>
    ensures numbered { IfSome result (λ i. (i < length numbers.now.keys) × (role_at numbers.now.keys i ≡ role.now)) }
    ensures absent { IfNone result (has name_cmp role.now numbers.now.keys ≡ false) }
{
    numbers.get_index_of(role)
}

/// The number of a role.
pub(crate) fn number(numbers: &IndexSet<Name>, role: &Name) -> usize
    requires { IsTrue (has name_cmp role.now numbers.now.keys) }
    ensures in_range { result < length numbers.now.keys }
    ensures role { role_at numbers.now.keys result ≡ role.now }
{
    number_of(numbers, role).unwrap()
}

/// Whether both number the same roles.
pub(crate) fn same_roles(numbers: &IndexSet<Name>, others: &IndexSet<Name>) -> bool
    ensures { IsTrue result ↔ (roles_of numbers.now.keys ≡ roles_of others.now.keys) }
{
    numbers.is_subset(others) && others.is_subset(numbers)
}

/// A test of a role and its number.
pub(crate) trait NumberedTest {
    /// Whether a role with a number passes.
    ghost passes: { Self → ℕ → NameValue → Bool };

    /// Whether a role with a number passes.
    fn test(&self, number: usize, role: &Name) -> bool
        ensures { result ≡ passes self.now number role.now };

    /// Whether it is known that none of the roles passes whose numbers are of one word: those that are this word when divided by 64.
    fn passes_none(&self, word: usize) -> bool
        ensures { result ≡ true → (number : ℕ) (role : NameValue) → number / 64 ≡ word → passes self.now number role ≡ false };
}

/// The roles that a role inherits, told by their numbers.
#[derive(Drop)]
pub(crate) struct JuniorsOf<'a> {
    pub inherited: &'a Relation,
    pub above: usize,
}

impl NumberedTest for JuniorsOf<'_> {
    ghost passes = { λ juniors number role. related juniors.inherited.now juniors.above number };

    fn test(&self, number: usize, _role: &Name) -> bool {
        self.inherited.has(self.above, number)
    }

    fn passes_none(&self, word: usize) -> bool {
        self.inherited.is_clear(self.above, word)
    }
}

/// The roles that pass a test of their names.
#[derive(Drop)]
pub(crate) struct ByName<'a, T: KeyTest<Name>> {
    pub test: &'a T,
}

impl<T: KeyTest<Name>> NumberedTest for ByName<'_, T> {
    ghost passes = { λ by_name number role. T.passes by_name.test.now role };

    fn test(&self, _number: usize, role: &Name) -> bool {
        self.test.test(role)
    }

    fn passes_none(&self, _word: usize) -> bool {
        false
    }
}

/// The names, and the roles that pass a test. Where it is known that none of 64 roles passes, these are passed over at once.
pub(crate) fn with_roles_where<T: NumberedTest>(
    names: NameSet,
    roles: &[Name],
    test: &T,
) -> Result<NameSet, AllocError>
    ensures { (p : NameValue → Bool) → ((i : ℕ) → i < length roles.now → T.passes test.now i (role_at roles.now i) ≡ p (role_at roles.now i))
        → IfOk result (λ more. (r : NameValue) → has name_cmp r more ≡ (has name_cmp r names || (p r && has name_cmp r roles.now))) }
{
    let mut more = names;
    let mut number = 0;
    while number < roles.len() {
        if number % 64 == 0 && test.passes_none(number / 64) {
            number += 64;
        } else {
            let role = &roles[number];
            if test.test(number, role) {
                more.add_copy(role)?;
            }
            number += 1;
        }
    }
    Ok(more)
}
