//! What maps that are changed by plans share.
ghost use Rattle.std.specs.Prelude.{◌≡◌, ◌<◌, ◌≤◌, ◌+◌, ℕ, List};
ghost use Rattle.std.specs.Option.{option_copied};
ghost use Rattle.std.specs.FinMap.Entries.{find, put};

use digests::Digest;
use hashed_keys::HashedMap;
use sorted_keys::SortedMap;

/// A map whose values are looked up by their keys, and that takes entries where there is room.
pub trait EntryMap<K: Ord, V> {
    /// Its entries in the order of their keys.
    ghost content: { Self → List (K × V) };

    /// For how many more entries there is room.
    ghost room: { Self → ℕ };

    /// The value at a key.
    fn value_at(&self, key: &K) -> Option<&V>
        ensures { option_copied result ≡ find K.cmp key.now (content self.now) };

    /// Gives a key a value where there is room.
    fn put_at(&mut self, key: K, value: V)
        requires { 0 < room self.old }
        ensures content { content self.new ≡ put K.cmp key value (content self.old) }
        ensures room { room self.old ≤ room self.new + 1 };
}

impl<K: Ord + Drop, V: Drop> EntryMap<K, V> for SortedMap<K, V> {
    ghost content = { λ m. m.content };

    ghost room = { λ m. m.room };

    #[inline(always)]
    fn value_at(&self, key: &K) -> Option<&V> {
        self.get(key)
    }

    #[inline(always)]
    fn put_at(&mut self, key: K, value: V) {
        self.put(key, value);
    }
}

impl<K: Ord + Digest + Drop, V: Drop> EntryMap<K, V> for HashedMap<K, V> {
    ghost content = { λ m. m.content };

    ghost room = { λ m. m.room };

    #[inline(always)]
    fn value_at(&self, key: &K) -> Option<&V> {
        self.get(key)
    }

    #[inline(always)]
    fn put_at(&mut self, key: K, value: V) {
        self.put(key, value);
    }
}
