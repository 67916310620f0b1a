//! Names that are found by their hash.
ghost use Rattle.std.specs.Prelude.{◌≡◌, IfOk};
ghost use Rattle.std.specs.List.{list_any};
ghost use Rattle.sorted_keys.specs.Keys.{has};
ghost use Rattle.rbac_terms.specs.Name.{Name as NameValue, name_cmp};

use indexmap::IndexSet;
use rbac_terms::{Name, NameSet};
use sorted_keys::KeyTest;
use std::alloc::{AllocError, Global};

// Whether the name is one of these.
fn is_among(names: &IndexSet<Name>, name: &Name) -> bool
    ensures { result ≡ has name_cmp name.now names.now.keys }
{
    names.contains(name)
}

/// The names of a set, found by their hash: for many questions of one set.
#[derive(Drop)]
pub(crate) struct HashedNames {
    names: IndexSet<Name>,
}

impl HashedNames {
    /// The names of the set.
    ///
    /// # Errors
    /// `AllocError` where there is no memory for it.
    pub(crate) fn of(alloc: Global, set: &NameSet) -> Result<HashedNames, AllocError>
        ensures { IfOk result (λ hashed. (name : NameValue) → has name_cmp name hashed.names.keys ≡ has name_cmp name set.now) }
    {
        let mut names = IndexSet::with_capacity(alloc, set.len())?;
        let listed = set.names();
        for name in listed {
            names.insert(name.copy()?)?;
        }
        Ok(HashedNames { names })
    }

    /// Whether one of these names is in the set.
    pub(crate) fn has_one_of(&self, names: &[Name]) -> bool
        ensures { result ≡ list_any (λ name. has name_cmp name self.now.names.keys) names.now }
    {
        names.iter().any(|name| is_among(&self.names, name))
    }
}

/// The names of the set pass.
impl KeyTest<Name> for HashedNames {
    ghost passes = { λ hashed name. has name_cmp name hashed.names.keys };

    fn test(&self, name: &Name) -> bool {
        is_among(&self.names, name)
    }
}
