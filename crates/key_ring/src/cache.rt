// The local keys that were used last.

ghost use Rattle.std.specs.Prelude.{◌≡◌, ℕ, ◌≤◌, List, [], IfOk};
ghost use Rattle.key_ring.specs.Local.{IsCacheOf, local_key};

use crate::ring::Ring;
use cause_core::OutOfMemory;
use lru::LruCache;
use std::alloc::Global;
use std::marker::Model;
use std::num::NonZeroUsize;

/// What a local key is made of: the id and version of the key, and the salt.
#[derive(Clone, Copy, PartialEq, Eq, Hash)]
pub struct LocalName {
    /// The id of the key.
    pub id: u32,
    /// The version of the key.
    pub version: u32,
    /// The block that is enciphered.
    pub salt: [u8; 16],
}

/// A number of local keys of one ring, those that were used last. Contracts see the list of its
/// entries, the last used first.
#[derive(Drop)]
pub struct LocalCache {
    locals: LruCache<LocalName, [u8; 16]>,
}

impl Model for LocalCache {
    ghost use Rattle.std.specs.Prelude.{ℕ, List};
    ghost use Rattle.key_ring.specs.declared.cache.LocalName.{LocalName};

    ghost Value = { List (LocalName × List ℕ) };

    ghost view = { λ c. c.locals.entries };
}

impl LocalCache {
    /// An empty cache for up to `capacity` local keys.
    pub fn new(alloc: Global, capacity: usize) -> Result<LocalCache, OutOfMemory>
        requires { 1 ≤ capacity }
        ensures { IfOk result (λ cache. cache ≡ []) }
    {
        let capacity = NonZeroUsize::new(capacity).unwrap();
        let locals = LruCache::new(alloc, capacity)?;
        Ok(LocalCache { locals })
    }

    /// The local key, as `Ring::local` answers it. The cache must be used with one ring, or with
    /// rings that have the same keys. A local key that finds no memory in the cache is not kept.
    pub fn local(&mut self, ring: &Ring, id: u32, version: u32, salt: &[u8; 16]) -> Option<[u8; 16]>
        requires { IsCacheOf ring.now self.old }
        ensures value { result ≡ local_key ring.now id version salt.now }
        ensures kept { IsCacheOf ring.now self.new }
    {
        let name = LocalName {
            id,
            version,
            salt: *salt,
        };
        if let Some(local) = self.locals.get(&name).copied() {
            return Some(local);
        }
        let local = ring.local(id, version, salt)?;
        let _ = self.locals.put(name, local);
        Some(local)
    }
}
