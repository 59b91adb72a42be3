// The keys of a session: its ring, and the local keys that were used last.
use crate::missing::first_lacking;
use aes_core::Algorithm;
use cause_core::OutOfMemory;
use key_ring::{LocalCache, Ring};
use page_text::PageKey;
use redo_text::RedoKey;
use space_head::SpaceInfo;
use std::alloc::Global;
use std::marker::Model;

// How many local keys are remembered.
const MOST_LOCALS: usize = 64;

/// The keys of a session. Contracts see the ring.
#[derive(Drop)]
pub(crate) struct SessionKeys {
    ring: Ring,
    locals: LocalCache,
}

impl Model for SessionKeys {
    ghost use Rattle.std.specs.Prelude.{List};
    ghost use Rattle.key_ring.specs.Local.{IsCacheOf};
    ghost use Rattle.key_ring.specs.Ring.{RingEntry};

    ghost Value = { List RingEntry };

    ghost view = { λ k. k.ring };

    ghost invariant = { λ k. IsCacheOf k.ring k.locals };
}

impl SessionKeys {
    ghost use Rattle.std.specs.Prelude.{◌≡◌, IfOk, MatchOption};
    ghost use Rattle.key_ring.specs.Local.{local_key};
    ghost use Rattle.session_core.specs.Keys.{HasVersion, IsLeastIdLacking, log_key, space_key};
    ghost use Rattle.session_core.specs.Taking.{key_of};

    /// The keys of this ring.
    pub(crate) fn new(alloc: Global, ring: Ring) -> Result<SessionKeys, OutOfMemory>
        ensures { IfOk result (λ keys. keys ≡ ring) }
    {
        let locals = LocalCache::new(alloc, MOST_LOCALS)?;
        Ok(SessionKeys { ring, locals })
    }

    // The local key of an id, a version and a salt.
    fn local(&mut self, id: u32, version: u32, salt: &[u8; 16]) -> Option<[u8; 16]>
        ensures value { result ≡ local_key self.old id version salt.now }
        ensures same { self.new ≡ self.old }
    {
        self.locals.local(&self.ring, id, version, salt)
    }

    /// The key of a space's pages at a version, if it is there.
    pub(crate) fn page_key(
        &mut self,
        algorithm: Algorithm,
        info: &SpaceInfo,
        version: u32,
    ) -> Option<PageKey>
        ensures value { result ≡ space_key self.old algorithm info.now version }
        ensures same { self.new ≡ self.old }
    {
        let local = self.local(info.key_id, version, &info.salt)?;
        Some(PageKey { local, algorithm })
    }

    /// The key that new texts of a space are sealed under: none at version 0.
    pub(crate) fn seal_key(
        &mut self,
        algorithm: Algorithm,
        info: &SpaceInfo,
        version: u32,
    ) -> Option<PageKey>
        ensures value { result ≡ key_of self.old algorithm info.now version }
        ensures same { self.new ≡ self.old }
    {
        if version == 0 {
            return None;
        }
        self.page_key(algorithm, info, version)
    }

    /// The least of the id 1 and the spaces' key ids under which the ring lacks this version.
    pub(crate) fn first_lacking(&self, version: u32, spaces: &[SpaceInfo]) -> Option<u32>
        ensures { MatchOption result (HasVersion self.now version spaces.now) (IsLeastIdLacking self.now version spaces.now) }
    {
        first_lacking(&self.ring, version, spaces)
    }

    /// The key of the log's blocks at a version, if it is there.
    pub(crate) fn redo_key(
        &mut self,
        algorithm: Algorithm,
        salt: &[u8; 16],
        version: u32,
    ) -> Option<RedoKey>
        ensures value { result ≡ log_key self.old algorithm salt.now version }
        ensures same { self.new ≡ self.old }
    {
        let local = self.local(1, version, salt)?;
        Some(RedoKey {
            version,
            local,
            algorithm,
        })
    }
}
