// The engine: its parts, its start and its end, and what it tells of itself.
ghost use Rattle.std.specs.Prelude.{◌≡◌, ◌+◌, ◌≤◌, IfErr, IfOk, OnOk};
ghost use Rattle.disk_model.specs.Past.{At};
ghost use Rattle.session_core.specs.Start.{HasBegun, IsStartRefusal, MayStart, session_begun};
ghost use Rattle.session_image.specs.Kept.{BeginsSession, SessionStore};
ghost use Rattle.engine_core.specs.Kept.{BeginsAt, BeginsRecordAt, BeginsRecorded};

use aes_core::Algorithm;
use counted_disk::Counted;
use disk_model::Disk;
use key_ring::Ring;
use session_core::{Entry, Halted, SessionCore, SessionOptions, StartRefusal};
use space_head::SpaceInfo;
use std::alloc::Global;
use std::marker::Model;
use std::snapshot::Snapshot;
use store_form::AtRest;

/// An engine over a disk. Contracts see its session as `start` left it and as it is now.
#[derive(Drop)]
pub struct Engine<D: Disk + Drop> {
    pub(crate) core: SessionCore<D>,
    first: Snapshot<SessionCore<D>>,
}

impl<D: Disk + Drop> Model for Engine<D> {
    ghost use Rattle.engine_core.specs.Engine.{EngineState, IsEngine};

    ghost Value = { EngineState D };

    ghost view = { λ s. record { first = s.first.value; now = s.core } };

    ghost invariant = { λ s. IsEngine D.past D.faults D.memory_refusals D.is_later (record { first = s.first.value; now = s.core }) };
}

impl<D: Disk + Drop> Engine<D> {
    /// Starts an engine on a store at rest: tells `Started`, and makes no turn.
    ///
    /// # Errors
    /// Those of [`SessionCore::start`], with the store at rest.
    pub fn start(
        alloc: Global,
        rest: AtRest<D>,
        ring: Ring,
        options: SessionOptions,
    ) -> Result<Engine<D>, StartRefusal<D>>
        ensures begun { IfOk result (λ e. e.now ≡ session_begun rest ring options e.now.disk) }
        ensures first { IfOk result (λ e. e.first ≡ e.now) }
        ensures disk { IfOk result (λ e. HasBegun D.past D.is_later rest.disk e.now.disk) }
        // A store that the disk is at rest as, it is at rest as behind the mark too, at Ok and at a refusal.
        ensures begins { IfOk result (λ e. (store : SessionStore) → At (BeginsSession store ring options.active rest.next rest.sequence) (D.past rest.disk) → At (BeginsAt store e.first) (D.past e.first.disk.disk)) }
        ensures recorded { IfOk result (λ e. (store : SessionStore) → At (BeginsRecorded store ring options.active rest.next rest.sequence) (D.past rest.disk) → At (BeginsRecordAt store e.first) (D.past e.first.disk.disk)) }
        ensures begins_still { IfErr result (λ r. (store : SessionStore) → At (BeginsSession store ring options.active rest.next rest.sequence) (D.past rest.disk) → At (BeginsSession store ring options.active rest.next rest.sequence) (D.past r.rest.disk)) }
        ensures recorded_still { IfErr result (λ r. (store : SessionStore) → At (BeginsRecorded store ring options.active rest.next rest.sequence) (D.past rest.disk) → At (BeginsRecorded store ring options.active rest.next rest.sequence) (D.past r.rest.disk)) }
        ensures calls { IfOk result (λ e. D.clock e.now.disk.disk ≤ D.clock rest.disk + 1) }
        ensures may { OnOk result (MayStart ring options.active rest.spaces) }
        ensures refused { IfErr result (λ r. IsStartRefusal D.past D.faults D.memory_refusals ring options.active rest r.rest r.why) }
        ensures later { IfErr result (λ r. D.is_later rest.disk r.rest.disk) }
    {
        match SessionCore::start(alloc, rest, ring, options) {
            Ok(core) => {
                let _kept = core.spaces();
                let first = Snapshot::of(&core);
                Ok(Engine { core, first })
            }
            Err(refusal) => Err(refusal),
        }
    }
}

impl<D: Disk + Drop> Engine<D> {
    ghost use Rattle.std.specs.Prelude.{◌≡◌};
    ghost use Rattle.engine_core.specs.Engine.{IsEngine};
    ghost use Rattle.session_core.specs.Session.{IsSession};

    /// The spaces, in order of id, with ciphered state and floor after the journal.
    pub fn spaces(&self) -> &[SpaceInfo]
        ensures value { result.now ≡ self.now.now.store.spaces }
        // What the type keeps.
        ensures kept { IsEngine D.past D.faults D.memory_refusals D.is_later self.now }
        ensures session { IsSession D.past self.now.now }
    {
        self.core.spaces()
    }

    /// How many ring blocks the log has.
    pub fn blocks(&self) -> u64
        ensures { result ≡ self.now.now.store.header.blocks }
    {
        self.core.blocks()
    }

    /// How the store's pages and its log are ciphered.
    pub fn algorithm(&self) -> Algorithm
        ensures { result ≡ self.now.now.store.header.algorithm }
    {
        self.core.algorithm()
    }

    /// The entries, the oldest first.
    pub fn journal(&self) -> &[Entry]
        ensures { result.now ≡ self.now.now.journal }
    {
        self.core.journal()
    }

    /// How many entries were acknowledged.
    pub fn acked(&self) -> u64
        ensures { result ≡ self.now.now.acked }
    {
        self.core.acked()
    }

    /// The disk, with the number of its turns and what stopped it.
    pub fn disk(&self) -> &Counted<D>
        ensures { result.now ≡ self.now.now.disk }
    {
        self.core.disk()
    }

    /// Ends the engine with nothing done: its disk and its journal are handed on as they are. No call of
    /// the disk is made, no memory is taken, and there is no refusal.
    pub fn halt(self) -> Halted<D>
        ensures disk { result.disk ≡ self.now.disk.disk }
        ensures journal { result.journal ≡ self.now.journal }
        // Each image of the disk, and of each moment since the start, is as the type keeps.
        ensures kept { IsEngine D.past D.faults D.memory_refusals D.is_later self }
    {
        let Engine {
            core,
            first: _first,
        } = self;
        core.halt()
    }
}
