//! Names that get numbers of their own.
ghost use Rattle.std.specs.Prelude.{◌≡◌, ◌<◌, ◌≤◌, ℕ, [], true, Some, None, All, IfOk, OnOk, if◌then◌else◌};
ghost use Rattle.std.specs.FinMap.Entries.{find};
ghost use Rattle.std.specs.Ordering.{eq_by_cmp};
ghost use Rattle.rbac_terms.specs.Name.{Name as NameValue, name_cmp};
ghost use Rattle.rbac_separation.specs.Numbered.{names_of, IsMore};

use hashed_keys::HashedMap;
use rbac_terms::Name;
use slab::Slab;
use std::alloc::{AllocError, Global};
use std::marker::Model;

/// Names, each with a number that no other of them has. The number of a name that is taken out may be another's later.
#[derive(Drop)]
pub(crate) struct Numbered {
    names: HashedMap<Name, usize>,
    // The numbers that are taken.
    numbers: Slab<()>,
}

impl Model for Numbered {
    ghost use Rattle.std.specs.Prelude.{ℕ, ◌-◌, min};
    ghost use Rattle.rbac_terms.specs.Name.{Name as NameValue};
    ghost use Rattle.slab.specs.Slab.{slab_len};
    ghost use Rattle.sorted_keys.specs.Row.{Row};
    ghost use Rattle.rbac_separation.specs.Numbered.{IsNumbered};

    ghost Value = { Row (NameValue × ℕ) };

    ghost view = { λ n. record { content = n.names.content; room = min n.names.room (n.numbers.capacity - slab_len n.numbers) } };

    ghost invariant = { λ n. IsNumbered n.names.content n.numbers };
}

impl Numbered {
    /// No names. Takes no memory.
    pub(crate) fn empty(alloc: Global) -> Numbered
        ensures { result.content ≡ [] }
    {
        Numbered {
            names: HashedMap::new(alloc),
            numbers: Slab::new(alloc),
        }
    }

    /// The number of a name.
    #[inline(always)]
    pub(crate) fn number(&self, name: &Name) -> Option<usize>
        ensures { result ≡ find name_cmp name.now self.now.content }
    {
        self.names.get(name).copied()
    }

    /// No two names have one number.
    pub(crate) fn invariants(&self)
        ensures { (a b : NameValue) (n : ℕ) → find name_cmp a self.now.content ≡ Some n → find name_cmp b self.now.content ≡ Some n → eq_by_cmp name_cmp a b ≡ true }
    {
        let _names = &self.names;
    }

    // Makes room for so many more names.
    fn reserve(&mut self, more: usize) -> Result<(), AllocError>
        ensures content { self.new.content ≡ self.old.content }
        ensures room { OnOk result (more ≤ self.new.room) }
    {
        self.names.reserve(more)?;
        self.numbers.reserve(more)
    }

    // Gives a name that has no number one. Takes no memory.
    fn add_ready(&mut self, name: Name) -> usize
        requires room { 0 < self.old.room }
        requires absent { find name_cmp name self.old.content ≡ None }
        ensures more { IsMore self.old.content self.new.content }
        ensures found { find name_cmp name self.new.content ≡ Some result }
    {
        let number = self.numbers.insert_reserved(());
        self.names.put(name, number);
        number
    }

    // The number of a name, which it is given where it has none.
    fn number_of(&mut self, name: &Name) -> Result<usize, AllocError>
        ensures more { IsMore self.old.content self.new.content }
        ensures found { IfOk result (λ number. find name_cmp name.now self.new.content ≡ Some number) }
    {
        match self.number(name) {
            Some(number) => Ok(number),
            None => {
                self.reserve(1)?;
                let own = name.copy()?;
                Ok(self.add_ready(own))
            }
        }
    }

    /// The names with their numbers, which those that have none are given.
    ///
    /// # Errors
    /// `AllocError` where there is no memory for it. Each name that had a number has it as before.
    pub(crate) fn numbered(
        &mut self,
        alloc: Global,
        names: &[Name],
    ) -> Result<Vec<(Name, usize)>, AllocError>
        ensures more { IsMore self.old.content self.new.content }
        ensures names { IfOk result (λ numbered. names_of numbered.items ≡ names.now) }
        ensures found { IfOk result (λ numbered. All (λ e. find name_cmp e.0 self.new.content ≡ Some e.1) numbered.items) }
    {
        let mut numbered = Vec::with_capacity(alloc, names.len())?;
        for name in names {
            let number = self.number_of(name)?;
            numbered.push((name.copy()?, number))?;
        }
        Ok(numbered)
    }

    /// Takes a name out, and its number may be another's.
    pub(crate) fn remove(&mut self, name: &Name)
        ensures { (other : NameValue) → find name_cmp other self.new.content ≡ (if eq_by_cmp name_cmp other name.now then None else find name_cmp other self.old.content) }
    {
        if let Some(number) = self.number(name) {
            self.names.remove(name);
            self.numbers.remove(number);
        }
    }

    /// The same names with the same numbers.
    ///
    /// # Errors
    /// `AllocError` where there is no memory for it.
    pub(crate) fn copy(&self) -> Result<Numbered, AllocError>
        ensures { IfOk result (λ copy. copy.content ≡ self.now.content) }
    {
        Ok(Numbered {
            names: self.names.copy()?,
            numbers: self.numbers.clone()?,
        })
    }
}
