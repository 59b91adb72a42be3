// The ring: a finite map from an id and a version to a key.

ghost use Rattle.std.specs.Prelude.{◌≡◌, ℕ, ◌+◌, ◌^◌, ◌<◌, ◌≤◌, List, [], length, slice_get, IsSome, IsNone, IfSome, IfNone, OnOk, OnErr, IfOk, IfErr, MatchOption, option_copied};
ghost use Rattle.aes_core.specs.Cipher.{IsKeyLength};
ghost use Rattle.key_ring.specs.Ring.{HasAdded, IsLatest, IsRing, ring_key, pairs_of};
ghost use Rattle.key_ring.specs.Local.{local_key};
ghost use Rattle.key_ring.specs.Refusal.{IsRefusal};

use crate::key_bytes::KeyBytes;
use aes_core::BlockKey;
use cause_core::OutOfMemory;
use std::alloc::Global;
use std::collections::BTreeMap;
use std::marker::Model;
use thiserror::Error;

/// Why a ring takes no key.
#[derive(Clone, Copy, Debug, PartialEq, Eq, Error)]
pub enum RingFault {
    /// The key has this many bytes, and not 16, 24 or 32.
    #[error("a key of {0} bytes")]
    BadLength(usize),
    /// The ring has a key of this id and version.
    #[error("key {0} version {1} twice")]
    Twice(u32, u32),
    /// The machine had no memory for the call.
    #[error("out of memory")]
    OutOfMemory,
}

/// Keys by id and version. Contracts see the ascending list of its pairs with their keys.
#[derive(Drop)]
pub struct Ring {
    keys: BTreeMap<(u32, u32), KeyBytes>,
}

impl Model for Ring {
    ghost use Rattle.std.specs.Prelude.{◌≤◌, ℕ, List, All};
    ghost use Rattle.key_ring.specs.Ring.{pairs_of};

    ghost Value = { List ((ℕ × ℕ) × List ℕ) };

    ghost view = { λ r. r.keys.entries };

    ghost invariant = { λ r. All (λ p. 1 ≤ p.1) (pairs_of r.keys.entries) };
}

impl Ring {
    /// The ring with no key.
    pub fn new(alloc: Global) -> Ring
        ensures { result ≡ [] }
    {
        Ring {
            keys: BTreeMap::new(alloc),
        }
    }

    /// Adds the key of an id and a version. The length is judged first, then the place. After a
    /// refusal the ring is as it was.
    pub fn add(&mut self, id: u32, version: u32, key: &[u8]) -> Result<(), RingFault>
        requires { 1 ≤ version }
        ensures added { OnOk result (HasAdded self.old self.new id version key.now) }
        ensures accepted { OnOk result (IsKeyLength (length key.now) × IsNone (ring_key self.old id version)) }
        // The conditions exclude one another, so each answer comes exactly where its own holds.
        ensures refused { IfErr result (IsRefusal self.old id version key.now) }
        ensures unchanged { OnErr result (self.new ≡ self.old) }
    {
        let Some(owned) = KeyBytes::new(key) else {
            return Err(RingFault::BadLength(key.len()));
        };
        if self.keys.contains_key(&(id, version)) {
            return Err(RingFault::Twice(id, version));
        }
        match self.keys.insert((id, version), owned) {
            Ok(_) => Ok(()),
            Err(_) => Err(RingFault::OutOfMemory),
        }
    }

    /// The bytes of the key of an id and a version.
    pub fn get(&self, id: u32, version: u32) -> Option<&[u8]>
        ensures value { option_copied result ≡ ring_key self.now id version }
        ensures key_length { IfSome result (λ key. IsKeyLength (length key.now)) }
    {
        let key = self.keys.get(&(id, version))?;
        Some(key.bytes())
    }

    /// The greatest version of an id.
    pub fn latest(&self, id: u32) -> Option<u32>
        ensures found { IfSome result (IsLatest self.now id) }
        ensures absent { IfNone result ((v : ℕ) → v < 2 ^ 32 → IsNone (ring_key self.now id v)) }
    {
        let (pair, _) = self.keys.range((id, 0)..=(id, u32::MAX)).next_back()?;
        Some(pair.1)
    }

    /// A ring of the same keys.
    pub fn copy(&self) -> Result<Ring, OutOfMemory>
        ensures { IfOk result (λ copy. copy ≡ self.now) }
    {
        let keys = self.keys.clone()?;
        Ok(Ring { keys })
    }

    /// How many keys there are.
    pub fn len(&self) -> usize
        ensures len { result ≡ length self.now }
        ensures ring { IsRing self.now }
    {
        self.keys.len()
    }

    /// The i-th pair of id and version, counted from 0, ascending by id and then by version.
    pub fn pair(&self, i: usize) -> (u32, u32)
        requires { i < length self.now }
        ensures { slice_get (pairs_of self.now) i ≡ Some result }
    {
        let (pair, _) = self.keys.iter().nth(i).unwrap();
        *pair
    }

    /// The local key of a salt: the salt as one block of AES under the key of the id and version.
    pub fn local(&self, id: u32, version: u32, salt: &[u8; 16]) -> Option<[u8; 16]>
        ensures { result ≡ local_key self.now id version salt.now }
    {
        let key = BlockKey::new(self.get(id, version)?)?;
        let mut block = *salt;
        key.encrypt_block(&mut block);
        Some(block)
    }
}
