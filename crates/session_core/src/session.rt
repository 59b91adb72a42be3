// A session: its parts, its start, and what it tells of itself.
ghost use Rattle.std.specs.Prelude.{◌≡◌, ◌+◌, ◌≤◌, IfErr, IfOk, OnOk};
ghost use Rattle.disk_model.specs.Past.{At};
ghost use Rattle.redo_log.specs.Log.{IsOpen, empty_log};
ghost use Rattle.store_files.specs.Header.{most_spaces};
ghost use Rattle.store_form.specs.Rest.{IsRestForm, ReadsAtRest};
ghost use Rattle.space_head.specs.declared.space.SpaceInfo.{SpaceInfo};
ghost use Rattle.session_core.specs.Session.{empty_pool};
ghost use Rattle.session_core.specs.Start.{HasBegun, IsFirstFloorAbove, IsNoBeginning, IsStartRefusal, MayStart, rest_of, session_begun, start_fault};
ghost use Rattle.session_core.specs.Spaces.{NoneAbove};

use crate::journal::Entry;
use crate::keys::SessionKeys;
use crate::missing::{first_above, first_lacking};
use crate::stopping::check_up;
use crate::tablespaces::Tablespaces;
use crate::{EngineFault, SessionOptions, StartFault};
use aes_core::Algorithm;
use counted_disk::Counted;
use disk_model::{Disk, DiskError, Mark};
use key_ring::Ring;
use page_pool::Pool;
use redo_log::Log;
use space_head::SpaceInfo;
use std::alloc::Global;
use std::marker::Model;
use store_form::{AtRest, RestParts};

/// A session on a store.
#[derive(Drop)]
pub struct SessionCore<D: Disk + Drop> {
    pub(crate) alloc: Global,
    pub(crate) disk: Counted<D>,
    pub(crate) keys: SessionKeys,
    pub(crate) store: Tablespaces,
    pub(crate) journal: Vec<Entry>,
    pub(crate) log: Log,
    pub(crate) pool: Pool,
    pub(crate) active: u32,
    pub(crate) age: u32,
    // The number of the log's next block at the start.
    pub(crate) begins: u64,
    pub(crate) acked: u64,
    // The number of the next batch of the doublewrite file.
    pub(crate) batch: u64,
}

impl<D: Disk + Drop> Model for SessionCore<D> {
    ghost use Rattle.counted_disk.specs.contracts.counted.Stop.{the_row as stop_row};
    ghost use Rattle.page_pool.specs.contracts.pool.Pool.{the_row as pool_row};
    ghost use Rattle.redo_log.specs.contracts.log.Log.{the_row as log_row};
    ghost use Rattle.session_core.specs.Session.{IsSession, Running, counted_code, running_code};
    ghost use Rattle.session_core.specs.contracts.journal.Entry.{the_row as entry_row};
    ghost use Rattle.session_core.specs.contracts.keys.SessionKeys.{the_row as keys_row};
    ghost use Rattle.session_core.specs.contracts.tablespaces.Tablespaces.{the_row as spaces_row};

    ghost Value = { Running D };

    ghost coded = { running_code (counted_code D.code stop_row.coded) keys_row.coded spaces_row.coded entry_row.coded log_row.coded pool_row.coded };

    ghost view = { λ s. record { disk = s.disk; ring = s.keys; store = s.store; journal = s.journal.items; log = s.log; pool = s.pool; active = s.active; age = s.age; begins = s.begins; acked = s.acked; batch = s.batch } };

    ghost invariant = { λ s. IsSession D.past (record { disk = s.disk; ring = s.keys; store = s.store; journal = s.journal.items; log = s.log; pool = s.pool; active = s.active; age = s.age; begins = s.begins; acked = s.acked; batch = s.batch }) };
}

/// The store that a session wasn't started on, and why.
#[derive(Drop)]
pub struct StartRefusal<D: Disk + Drop> {
    /// The store at rest.
    pub rest: AtRest<D>,
    /// The first reason.
    pub why: StartFault,
}

// Refuses a version that is below the floor of a space.
fn check_floors(active: u32, spaces: &[SpaceInfo]) -> Result<(), StartFault>
    ensures none { OnOk result (NoneAbove active spaces.now) }
    ensures refused { IfErr result (λ e. (info : SpaceInfo) × IsFirstFloorAbove active spaces.now info × (e ≡ StartFault.VersionBelowFloor info.space info.floor active)) }
{
    match first_above(active, spaces) {
        Some(info) => Err(StartFault::VersionBelowFloor {
            space: info.space,
            floor: info.floor,
            version: active,
        }),
        None => Ok(()),
    }
}

// Why a session with this ring and active version isn't started on these spaces.
fn check_start(ring: &Ring, active: u32, spaces: &[SpaceInfo]) -> Result<(), StartFault>
    ensures may { OnOk result (MayStart ring.now active spaces.now) }
    ensures some { OnOk result (1 ≤ active) }
    ensures refused { IfErr result (IsNoBeginning ring.now active spaces.now) }
{
    match first_lacking(ring, active, spaces) {
        Some(id) => Err(StartFault::NoVersion {
            id,
            version: active,
        }),
        None => check_floors(active, spaces),
    }
}

fn no_memory<D: Disk + Drop>(rest: AtRest<D>) -> StartRefusal<D>
    ensures rest { result.rest ≡ rest }
    ensures why { result.why ≡ StartFault.OutOfMemory }
{
    StartRefusal {
        rest,
        why: StartFault::OutOfMemory,
    }
}

impl<D: Disk + Drop> SessionCore<D> {
    /// Starts a session on a store at rest: tells `Started`, and makes no turn.
    ///
    /// # Errors
    /// The first of these, with the store at rest: [`StartFault::NoVersion`] exactly where the ring lacks
    /// the active version of id 1 or of a space's key id, with the least such id;
    /// [`StartFault::VersionBelowFloor`] exactly where the active version is below a space's floor, with
    /// the first such space; [`StartFault::OutOfMemory`] where the machine has no memory for the session;
    /// then as the disk answers the mark, [`StartFault::DiskFault`] only where its count of faults rose.
    pub fn start(
        alloc: Global,
        rest: AtRest<D>,
        ring: Ring,
        options: SessionOptions,
    ) -> Result<SessionCore<D>, StartRefusal<D>>
        ensures begun { IfOk result (λ s. s ≡ session_begun rest ring options s.disk) }
        ensures disk { IfOk result (λ s. HasBegun D.past D.is_later rest.disk s.disk) }
        ensures may { OnOk result (MayStart ring options.active rest.spaces) }
        ensures refused { IfErr result (λ r. IsStartRefusal D.past D.faults D.memory_refusals ring options.active rest r.rest r.why) }
        ensures later { IfErr result (λ r. D.is_later rest.disk r.rest.disk) }
        ensures calls { IfOk result (λ s. D.clock s.disk.disk ≤ D.clock rest.disk + 1) }
        ensures no_fault { IfOk result (λ s. D.faults s.disk.disk ≡ D.faults rest.disk) }
        ensures no_refusal { IfOk result (λ s. D.memory_refusals s.disk.disk ≡ D.memory_refusals rest.disk) }
        ensures refused_calls { IfErr result (λ r. D.clock r.rest.disk ≤ D.clock rest.disk + 1) }
        ensures no_fault_at_want { IfErr result (λ r. r.why ≡ StartFault.OutOfMemory → D.faults r.rest.disk ≡ D.faults rest.disk) }
    {
        match check_start(&ring, options.active, rest.spaces()) {
            Ok(()) => prepare(alloc, rest, ring, options),
            Err(why) => Err(StartRefusal { rest, why }),
        }
    }
}

// Takes the memory that a session needs, and begins it.
fn prepare<D: Disk + Drop>(
    alloc: Global,
    rest: AtRest<D>,
    ring: Ring,
    options: SessionOptions,
) -> Result<SessionCore<D>, StartRefusal<D>>
    requires form { IsRestForm rest.header rest.spaces rest.homes rest.next rest.sequence }
    requires may { MayStart ring options.active rest.spaces }
    requires some { 1 ≤ options.active }
    ensures begun { IfOk result (λ s. s ≡ session_begun rest ring options s.disk) }
    ensures disk { IfOk result (λ s. HasBegun D.past D.is_later rest.disk s.disk) }
    ensures refused { IfErr result (λ r. IsStartRefusal D.past D.faults D.memory_refusals ring options.active rest r.rest r.why) }
    ensures later { IfErr result (λ r. D.is_later rest.disk r.rest.disk) }
    ensures calls { IfOk result (λ s. D.clock s.disk.disk ≤ D.clock rest.disk + 1) }
    ensures no_fault { IfOk result (λ s. D.faults s.disk.disk ≡ D.faults rest.disk) }
    ensures no_refusal { IfOk result (λ s. D.memory_refusals s.disk.disk ≡ D.memory_refusals rest.disk) }
    ensures refused_calls { IfErr result (λ r. D.clock r.rest.disk ≤ D.clock rest.disk + 1) }
    ensures no_fault_at_want { IfErr result (λ r. r.why ≡ StartFault.OutOfMemory → D.faults r.rest.disk ≡ D.faults rest.disk) }
{
    let Ok(pool) = Pool::new(alloc) else {
        return Err(no_memory(rest));
    };
    let Ok(keys) = SessionKeys::new(alloc, ring) else {
        return Err(no_memory(rest));
    };
    let Ok(log) = Log::new(alloc, rest.blocks(), rest.next(), rest.sequence()) else {
        return Err(no_memory(rest));
    };
    begin(alloc, rest.into_parts(), keys, log, pool, options)
}

// Tells `Started`, and puts the session together.
fn begin<D: Disk + Drop>(
    alloc: Global,
    parts: RestParts<D>,
    keys: SessionKeys,
    log: Log,
    pool: Pool,
    options: SessionOptions,
) -> Result<SessionCore<D>, StartRefusal<D>>
    requires format { parts.header.format ≡ 2 }
    requires count { parts.header.count ≤ most_spaces }
    requires form { IsRestForm (rest_of parts).header parts.spaces parts.homes parts.next parts.sequence }
    requires reads { At (ReadsAtRest (rest_of parts).header parts.spaces parts.homes parts.next parts.sequence) (D.past parts.disk) }
    requires log { log ≡ empty_log (rest_of parts).header.blocks parts.next parts.sequence }
    requires numbers { IsOpen log }
    requires pool { pool ≡ empty_pool }
    requires may { MayStart keys options.active parts.spaces }
    requires some { 1 ≤ options.active }
    ensures begun { IfOk result (λ s. s ≡ session_begun (rest_of parts) keys options s.disk) }
    ensures disk { IfOk result (λ s. HasBegun D.past D.is_later parts.disk s.disk) }
    ensures refused { IfErr result (λ r. IsStartRefusal D.past D.faults D.memory_refusals keys options.active (rest_of parts) r.rest r.why) }
    ensures later { IfErr result (λ r. D.is_later parts.disk r.rest.disk) }
    ensures calls { IfOk result (λ s. D.clock s.disk.disk ≤ D.clock parts.disk + 1) }
    ensures no_fault { IfOk result (λ s. D.faults s.disk.disk ≡ D.faults parts.disk) }
    ensures no_refusal { IfOk result (λ s. D.memory_refusals s.disk.disk ≡ D.memory_refusals parts.disk) }
    ensures refused_calls { IfErr result (λ r. D.clock r.rest.disk ≤ D.clock parts.disk + 1) }
    ensures no_fault_at_want { IfErr result (λ r. r.why ≡ StartFault.OutOfMemory → D.faults r.rest.disk ≡ D.faults parts.disk) }
{
    let RestParts {
        mut disk,
        header,
        spaces,
        homes,
        next,
        sequence,
    } = parts;
    match disk.tell(Mark::Started) {
        Ok(()) => {
            let counted = Counted::new(disk);
            let store = Tablespaces::of(header, spaces, homes);
            let journal = Vec::new(alloc);
            Ok(SessionCore {
                alloc,
                disk: counted,
                keys,
                store,
                journal,
                log,
                pool,
                active: options.active,
                age: options.age,
                begins: next,
                acked: 0,
                batch: 1,
            })
        }
        Err(error) => {
            let why = start_fault(error);
            let rest = AtRest::new(disk, header, spaces, homes, next, sequence);
            Err(StartRefusal { rest, why })
        }
    }
}

fn start_fault(error: DiskError) -> StartFault
    ensures { result ≡ start_fault error }
{
    match error {
        DiskError::Failed => StartFault::DiskFault,
        DiskError::NoMemory => StartFault::OutOfMemory,
    }
}

impl<D: Disk + Drop> SessionCore<D> {
    ghost use Rattle.std.specs.Prelude.{◌≡◌, None, OnOk};
    ghost use Rattle.session_core.specs.Session.{IsSession};
    ghost use Rattle.session_core.specs.Stops.{up_or_refused};

    /// The spaces, in order of id, with ciphered state and floor after the journal.
    pub fn spaces(&self) -> &[SpaceInfo]
        ensures value { result.now ≡ self.now.store.spaces }
        // What the type keeps.
        ensures kept { IsSession D.past self.now }
    {
        self.store.spaces()
    }

    /// How many ring blocks the log has.
    pub fn blocks(&self) -> u64
        ensures { result ≡ self.now.store.header.blocks }
    {
        self.store.blocks()
    }

    /// How the store's pages and its log are ciphered.
    pub fn algorithm(&self) -> Algorithm
        ensures { result ≡ self.now.store.header.algorithm }
    {
        self.store.algorithm()
    }

    /// The entries, the oldest first.
    pub fn journal(&self) -> &[Entry]
        ensures { result.now ≡ self.now.journal }
    {
        &self.journal
    }

    /// How many entries were acknowledged.
    pub fn acked(&self) -> u64
        ensures { result ≡ self.now.acked }
    {
        self.acked
    }

    /// Whether calls are taken.
    pub(crate) fn check(&self) -> Result<(), EngineFault>
        ensures value { result ≡ up_or_refused self.now.disk.stop self.now.disk.turns }
        ensures up { OnOk result (self.now.disk.stop ≡ None) }
    {
        check_up(&self.disk)
    }

    /// The disk, with the number of its turns and what stopped it.
    pub fn disk(&self) -> &Counted<D>
        ensures { result.now ≡ self.now.disk }
    {
        &self.disk
    }
}
