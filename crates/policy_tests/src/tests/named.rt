//! What the tests of a policy and of its parts share: names that are read, compared and tested.
ghost use Rattle.std.specs.Ordering.{is_lt};
ghost use Rattle.rbac_terms.specs.Name.{name_cmp};

use rbac_terms::{Name, NameSet};
use sorted_keys::KeyTest;
use std::alloc::{AllocError, Global};
use std::process::Abort;

// The names that come after one.
#[derive(Drop)]
pub(crate) struct After {
    pub(crate) name: Name,
}

impl KeyTest<Name> for After {
    ghost passes = { λ after name. is_lt (name_cmp after.name name) };

    fn test(&self, name: &Name) -> bool {
        self.name.cmp(name).is_lt()
    }
}

pub(crate) fn name(rt: &impl Abort, alloc: Global, text: &str) -> Name {
    Name::read(alloc, text.as_bytes()).expect(rt, "a name")
}

pub(crate) fn names(rt: &impl Abort, alloc: Global, texts: &[&str]) -> Vec<Name> {
    let mut names = Vec::new(alloc);
    for text in texts {
        names.push(name(rt, alloc, text)).expect(rt, "memory");
    }
    names
}

pub(crate) fn name_set(rt: &impl Abort, alloc: Global, texts: &[&str]) -> NameSet {
    let mut set = NameSet::new(alloc);
    for text in texts {
        set.add(name(rt, alloc, text)).expect(rt, "memory");
    }
    set
}

pub(crate) fn assert_names(rt: &impl Abort, names: &NameSet, texts: &[&str]) {
    assert_called(rt, names.names(), texts);
}

pub(crate) fn assert_called(rt: &impl Abort, names: &[Name], texts: &[&str]) {
    assert_eq!(rt; names.len(), texts.len());
    for (name, text) in names.iter().zip(texts) {
        assert_eq!(rt; name.as_bytes(), text.as_bytes());
    }
}

// Compares names that were found, and lets them go.
pub(crate) fn assert_found(rt: &impl Abort, found: Result<NameSet, AllocError>, texts: &[&str]) {
    let names = found.expect(rt, "memory");
    assert_names(rt, &names, texts);
    drop(names);
}
