// The keys of one file.

ghost use Rattle.std.specs.Prelude.{◌≡◌, ◌<◌, Some, length, slice_get, AllPairs};

use key_ring::KeyBytes;
use std::marker::Model;

/// A key and its id.
#[derive(Drop)]
pub struct KeyItem {
    /// The id, at least 1.
    pub id: u32,
    /// The bytes of the key.
    pub key: KeyBytes,
}

/// The keys of one file, each id once, ascending. Contracts see the list of its items.
#[derive(Drop)]
pub struct KeyList {
    items: Vec<KeyItem>,
}

impl Model for KeyList {
    ghost use Rattle.std.specs.Prelude.{List, AllPairs, ◌<◌};
    ghost use Rattle.key_file.specs.declared.keys.KeyItem.{KeyItem};

    ghost Value = { List KeyItem };

    ghost view = { λ l. l.items.items };

    ghost invariant = { λ l. AllPairs (λ a b. a.id < b.id) l.items.items };
}

impl KeyList {
    // The list of these items.
    pub(crate) fn of(items: Vec<KeyItem>) -> KeyList
        requires { AllPairs (λ a b. a.id < b.id) items.items }
        ensures { result ≡ items.items }
    {
        KeyList { items }
    }

    /// How many keys there are.
    pub fn len(&self) -> usize
        ensures len { result ≡ length self.now }
        ensures ascending { AllPairs (λ a b. a.id < b.id) self.now }
    {
        self.items.len()
    }

    /// The i-th item, counted from 0, lent.
    pub fn get(&self, i: usize) -> &KeyItem
        requires { i < length self.now }
        ensures { slice_get self.now i ≡ Some result.now }
    {
        &self.items[i]
    }
}
