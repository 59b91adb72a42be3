// A session ends: its disk and its journal are handed on.
use crate::tablespaces::SpaceParts;
use crate::{Journal, SessionCore};
use disk_model::Disk;
use store_form::AtRest;

/// What a session hands on as it is.
#[derive(Drop)]
pub struct Halted<D: Disk + Drop> {
    /// The disk.
    pub disk: D,
    /// The entries, the oldest first.
    pub journal: Journal,
}

/// What a session that was closed leaves.
#[derive(Drop)]
pub struct Closed<D: Disk + Drop> {
    /// The store at rest.
    pub rest: AtRest<D>,
    /// The entries, the oldest first.
    pub journal: Journal,
}

impl<D: Disk + Drop> SessionCore<D> {
    ghost use Rattle.std.specs.Prelude.{◌≡◌, [], None};

    /// Ends the session with nothing done: its disk and its journal are handed on as they are. No call of
    /// the disk is made, no memory is taken, and there is no refusal.
    pub fn halt(self) -> Halted<D>
        ensures disk { result.disk ≡ self.disk.disk }
        ensures journal { result.journal ≡ self.journal }
    {
        let SessionCore {
            alloc: _,
            disk,
            keys: _keys,
            store: _store,
            journal,
            log: _log,
            pool: _pool,
            active: _,
            age: _,
            begins: _,
            acked: _,
            batch: _,
        } = self;
        Halted {
            disk: disk.into_disk(),
            journal: Journal::of(journal),
        }
    }

    /// Ends the session as a store at rest, where no page is dirty and the last checkpoint names the log's
    /// next block. No call of the disk is made, and no memory is taken.
    pub(crate) fn into_rest(self) -> Closed<D>
        requires up { self.disk.stop ≡ None }
        requires clean { self.pool.dirty.entries ≡ [] }
        requires checked { self.log.from ≡ self.log.next }
        ensures disk { result.rest.disk ≡ self.disk.disk }
        ensures header { result.rest.header ≡ self.store.header }
        ensures spaces { result.rest.spaces ≡ self.store.spaces }
        ensures homes { result.rest.homes ≡ self.store.homes }
        ensures next { result.rest.next ≡ self.log.next }
        ensures sequence { result.rest.sequence ≡ self.log.sequence }
        ensures journal { result.journal ≡ self.journal }
    {
        let SessionCore {
            alloc: _alloc,
            disk,
            keys: _keys,
            store,
            journal: entries,
            log,
            pool: _pool,
            active: _,
            age: _,
            begins: _,
            acked: _,
            batch: _,
        } = self;
        let SpaceParts {
            header,
            spaces,
            homes,
        } = store.into_parts();
        let next = log.next();
        let sequence = log.sequence();
        let rest = AtRest::new(disk.into_disk(), header, spaces, homes, next, sequence);
        let journal = Journal::of(entries);
        Closed { rest, journal }
    }
}
