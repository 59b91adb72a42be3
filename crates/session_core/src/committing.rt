// Mini-transactions become entries of the journal.
ghost use Rattle.std.specs.Prelude.{◌≡◌, ℕ, ◌+◌, ◌<◌, ◌≤◌, ◌^◌, ◌∷◌, [], true, false, None, Some, IfErr, IfOk, OnErr, OnOk, length};
ghost use Rattle.counted_disk.specs.Counting.{IsCounted, count_of};
ghost use Rattle.crash_image.specs.Recovers.{AreOfStore};
ghost use Rattle.page_pool.specs.Changes.{pool_after};
ghost use Rattle.redo_log.specs.Log.{IsOpen, pending_count};
ghost use Rattle.page_pool.specs.declared.names.PageName.{PageName};
ghost use Rattle.redo_text.specs.Text.{AreAllowed};
ghost use Rattle.session_core.specs.Committing.{AreOfPages, AreSized, IsCommitRefusal, IsSized, IsUnfit, first_bad_range, first_missing_page};
ghost use Rattle.session_core.specs.Entering.{AreFromOne, EntersHeld, HasEntryRoom, HasNoEntryRoom, HoldsAfter, IsAppended, IsEntered, IsNotEntered, OnlyLooksFor, mtr_block_count, lsn_behind, receipt_of};
ghost use Rattle.session_core.specs.Files.{calls_of};
ghost use Rattle.session_core.specs.Holding.{AreAtHand, HoldsNamed, IsHoldRefusal};
ghost use Rattle.session_core.specs.Keys.{log_key};
ghost use Rattle.session_core.specs.Spaces.{is_page};

use crate::holding::hold_named;
use crate::journal::Entry;
use crate::naming::count_fresh;
use crate::reading::check_range;
use crate::tablespaces::Tablespaces;
use crate::{Author, EngineFault, Receipt, SessionCore};
use cause_core::OutOfMemory;
use disk_model::Disk;
use page_pool::{MOST_DIRTY, Pool};
use redo_log::Log;
use redo_text::{Change, LAST_BLOCK, Mtr, RedoKey, mtr_blocks};
use std::alloc::Global;

// The most blocks that a mini-transaction may have.
const MOST_BLOCKS: usize = store_files::MOST_MTR_BLOCKS as usize;

// Refuses a mini-transaction for which there is no room.
fn check_room(log: &Log, pool: &Pool, mtr: &Mtr) -> Result<(), EngineFault>
    requires many { length mtr.now ≤ 65536 }
    requires allowed { AreAllowed mtr.now }
    ensures room { OnOk result (HasEntryRoom log.now pool.now mtr.now) }
    ensures refused { IfErr result (HasNoEntryRoom log.now pool.now mtr.now) }
{
    let blocks = mtr_blocks(mtr);
    if MOST_BLOCKS < blocks {
        return Err(EngineFault::TooLong { blocks });
    }
    let needed = blocks as u64;
    let next = log.next();
    if next + needed > LAST_BLOCK {
        return Err(EngineFault::Spent { next });
    }
    let dirty = pool.dirty().len();
    let fresh = count_fresh(pool, mtr.changes());
    if MOST_DIRTY - dirty < fresh {
        return Err(EngineFault::PoolFull { dirty, fresh });
    }
    let free = log.free();
    if free < needed {
        return Err(EngineFault::LogFull { needed, free });
    }
    Ok(())
}

// Adds the blocks of a mini-transaction to the log and makes its changes, or neither: its LSN.
fn append_and_change(
    alloc: Global,
    log: &mut Log,
    pool: &mut Pool,
    mtr: &Mtr,
    key: &RedoKey,
) -> Result<u64, OutOfMemory>
    requires some { 0 < length mtr.now }
    requires many { length mtr.now ≤ 65536 }
    requires allowed { AreAllowed mtr.now }
    requires room { HasEntryRoom log.old pool.old mtr.now }
    requires version { 1 ≤ key.now.version }
    ensures lsn { IfOk result (λ lsn. lsn ≡ lsn_behind log.old mtr.now) }
    ensures appended { OnOk result (IsAppended log.old log.new mtr.now key.now) }
    ensures changed { OnOk result (pool.new ≡ pool_after (lsn_behind log.old mtr.now) log.old.next mtr.now pool.old) }
    ensures holds { OnOk result (HoldsAfter mtr.now pool.old pool.new) }
    ensures some { OnOk result (0 < mtr_block_count mtr.now) }
    ensures pending { OnOk result (pending_count log.new ≡ pending_count log.old + mtr_block_count mtr.now) }
    ensures open { IsOpen log.new }
    ensures log { OnErr result (log.new ≡ log.old) }
    ensures pool { OnErr result (pool.new ≡ pool.old) }
{
    let first = log.next();
    let Ok(lsn) = log.append(alloc, mtr, key) else {
        return Err(OutOfMemory);
    };
    match pool.change(mtr, lsn, first) {
        Ok(()) => Ok(lsn),
        Err(_) => {
            log.take_back(lsn);
            Err(OutOfMemory)
        }
    }
}

// Refuses a page that the store hasn't, and page 0.
fn check_page(store: &Tablespaces, space: u32, page: u32) -> Result<(), EngineFault>
    ensures there { OnOk result (is_page store.now.spaces space page ≡ true) }
    ensures refused { IfErr result (λ e. (is_page store.now.spaces space page ≡ false) × (e ≡ EngineFault.NoSuchPage space page)) }
{
    match store.page_info(space, page) {
        Some(_info) => Ok(()),
        None => Err(EngineFault::NoSuchPage { space, page }),
    }
}

// Refuses a change of bytes or of a type that names no page of the store, or page 0.
fn check_named(store: &Tablespaces, change: &Change) -> Result<(), EngineFault>
    ensures there { OnOk result (first_missing_page store.now.spaces (change.now ∷ []) ≡ None) }
    ensures refused { IfErr result (λ e. (name : PageName) × (first_missing_page store.now.spaces (change.now ∷ []) ≡ Some name) × (e ≡ EngineFault.NoSuchPage name.space name.page)) }
{
    match change {
        Change::Put {
            space,
            page,
            at: _,
            bytes: _,
        } => check_page(store, *space, *page),
        Change::Kind {
            space,
            page,
            kind: _,
        } => check_page(store, *space, *page),
        Change::Touch { space: _, page: _ } => Ok(()),
        Change::Floor {
            space: _,
            version: _,
        } => Ok(()),
        Change::Encrypt { space: _ } => Ok(()),
    }
}

// Refuses the first change that names no page of the store, or page 0.
fn check_pages(store: &Tablespaces, changes: &[Change]) -> Result<(), EngineFault>
    ensures there { OnOk result (first_missing_page store.now.spaces changes.now ≡ None) }
    ensures refused { IfErr result (λ e. (name : PageName) × (first_missing_page store.now.spaces changes.now ≡ Some name) × (e ≡ EngineFault.NoSuchPage name.space name.page)) }
{
    for change in changes {
        check_named(store, change)?;
    }
    Ok(())
}

fn known_page(space: u32, page: u32)
    ensures { (space < 2 ^ 32) × (page < 2 ^ 32) }
{
    let _ = space;
    let _ = page;
}

fn known_kind(kind: u16)
    ensures { kind < 2 ^ 16 }
{
    let _ = kind;
}

fn known_word(number: u32)
    ensures { number < 2 ^ 32 }
{
    let _ = number;
}

// Refuses a change whose range isn't one.
fn check_bytes(change: &Change) -> Result<(), EngineFault>
    ensures ranged { OnOk result (first_bad_range (change.now ∷ []) ≡ None) }
    ensures refused { IfErr result (λ e. (r : ℕ × ℕ) × (first_bad_range (change.now ∷ []) ≡ Some r) × (e ≡ EngineFault.BadRange r.0 r.1)) }
    ensures sized { IsSized change.now }
{
    match change {
        Change::Put {
            space,
            page,
            at,
            bytes,
        } => {
            known_page(*space, *page);
            check_range(*at, bytes.len())
        }
        Change::Kind { space, page, kind } => {
            known_page(*space, *page);
            known_kind(*kind);
            Ok(())
        }
        Change::Touch { space, page } => {
            known_page(*space, *page);
            Ok(())
        }
        Change::Floor { space, version } => {
            known_page(*space, *version);
            Ok(())
        }
        Change::Encrypt { space } => {
            known_word(*space);
            Ok(())
        }
    }
}

// Refuses the first change whose range isn't one.
fn check_ranges(changes: &[Change]) -> Result<(), EngineFault>
    ensures ranged { OnOk result (first_bad_range changes.now ≡ None) }
    ensures refused { IfErr result (λ e. (r : ℕ × ℕ) × (first_bad_range changes.now ≡ Some r) × (e ≡ EngineFault.BadRange r.0 r.1)) }
    ensures sized { OnOk result (AreSized changes.now) }
{
    for change in changes {
        check_bytes(change)?;
    }
    Ok(())
}

// Refuses the first change that names no page of the store, or page 0, and then the first whose range
// isn't one.
fn check_changes(store: &Tablespaces, changes: &[Change]) -> Result<(), EngineFault>
    requires forms { AreOfPages changes.now }
    ensures pages { OnOk result (first_missing_page store.now.spaces changes.now ≡ None) }
    ensures ranges { OnOk result (first_bad_range changes.now ≡ None) }
    ensures from { OnOk result (AreFromOne changes.now) }
    ensures allowed { OnOk result (AreAllowed changes.now) }
    ensures of_store { OnOk result (AreOfStore store.now.header.spaces changes.now) }
    ensures refused { IfErr result (IsUnfit store.now.spaces changes.now) }
{
    let _spaces = store.spaces();
    check_pages(store, changes)?;
    check_ranges(changes)
}

impl<D: Disk + Drop> SessionCore<D> {
    // Holds the pages that a mini-transaction names.
    fn hold(&mut self, mtr: &Mtr) -> Result<(), EngineFault>
        requires up { self.old.disk.stop ≡ None }
        requires few { length mtr.now ≤ 64 }
        requires from { AreFromOne mtr.now }
        requires of_store { AreOfStore self.old.store.header.spaces mtr.now }
        ensures held { OnOk result (HoldsNamed self.old.ring self.old.store (D.past self.old.disk.disk) mtr.now self.old.pool self.new.pool) }
        ensures refused { IfErr result (IsHoldRefusal self.old.ring self.old.store (D.past self.old.disk.disk) mtr.now self.new.disk self.old.pool) }
        ensures looks { OnlyLooksFor D.past mtr.now self.old self.new }
        ensures still { AreAtHand self.old.store mtr.now self.old.pool → self.new.disk ≡ self.old.disk }
        ensures up { OnOk result (self.new.disk.stop ≡ None) }
        ensures later { D.is_later self.old.disk.disk self.new.disk.disk × IsCounted (count_of D.past D.faults D.memory_refusals self.old.disk) (count_of D.past D.faults D.memory_refusals self.new.disk) }
        ensures calls { calls_of D.clock self.new.disk ≤ calls_of D.clock self.old.disk + length mtr.now }
    {
        hold_named(
            &mut self.disk,
            &mut self.keys,
            &self.store,
            &mut self.pool,
            mtr.changes(),
        )
    }

    // The key of the log's blocks at the active version.
    fn active_key(&mut self) -> RedoKey
        ensures key { log_key self.old.ring self.old.store.header.algorithm self.old.store.header.salt self.old.active ≡ Some result }
        ensures version { 1 ≤ result.version }
        ensures same { self.new ≡ self.old }
    {
        let salt = self.store.log_salt();
        let Some(key) = self
            .keys
            .redo_key(self.store.algorithm(), &salt, self.active)
        else {
            unreachable!();
        };
        key
    }

    // Enters a mini-transaction whose pages are at hand.
    fn enter_held(&mut self, by: Option<Author>, mtr: Mtr) -> Result<Receipt, EngineFault>
        requires some { 0 < length mtr }
        requires few { length mtr ≤ 64 }
        requires from { AreFromOne mtr }
        requires allowed { AreAllowed mtr }
        requires of_store { AreOfStore self.old.store.header.spaces mtr }
        requires room { HasEntryRoom self.old.log self.old.pool mtr }
        ensures entered { OnOk result (EntersHeld by mtr self.old self.new) }
        ensures receipt { IfOk result (λ r. r ≡ receipt_of self.old mtr) }
        ensures refused { IfErr result (λ e. e ≡ EngineFault.OutOfMemory) }
        ensures unchanged { OnErr result (self.new ≡ self.old) }
        ensures disk { self.new.disk ≡ self.old.disk }
    {
        let key = self.active_key();
        let Ok(()) = self.journal.try_reserve(1) else {
            return Err(EngineFault::OutOfMemory);
        };
        let Ok(lsn) = append_and_change(self.alloc, &mut self.log, &mut self.pool, &mtr, &key)
        else {
            return Err(EngineFault::OutOfMemory);
        };
        self.store.change_all(mtr.changes());
        let Ok(()) = self.journal.push(Entry { by, lsn, mtr }) else {
            unreachable!();
        };
        Ok(Receipt {
            place: self.journal.len() as u64,
            lsn,
        })
    }

    // Enters a mini-transaction, by an author or by the session itself.
    pub(crate) fn enter(&mut self, by: Option<Author>, mtr: Mtr) -> Result<Receipt, EngineFault>
        requires up { self.old.disk.stop ≡ None }
        requires some { 0 < length mtr }
        requires few { length mtr ≤ 64 }
        requires from { AreFromOne mtr }
        requires allowed { AreAllowed mtr }
        requires of_store { AreOfStore self.old.store.header.spaces mtr }
        ensures entered { OnOk result (IsEntered D.past by mtr self.old self.new) }
        ensures receipt { IfOk result (λ r. r ≡ receipt_of self.old mtr) }
        ensures refused { IfErr result (IsNotEntered D.past mtr self.old self.new) }
        ensures still { AreAtHand self.old.store mtr self.old.pool → self.new.disk ≡ self.old.disk }
        ensures up { OnOk result (self.new.disk.stop ≡ None) }
        ensures later { D.is_later self.old.disk.disk self.new.disk.disk × IsCounted (count_of D.past D.faults D.memory_refusals self.old.disk) (count_of D.past D.faults D.memory_refusals self.new.disk) }
        ensures calls { calls_of D.clock self.new.disk ≤ calls_of D.clock self.old.disk + length mtr }
    {
        check_room(&self.log, &self.pool, &mtr)?;
        self.hold(&mtr)?;
        self.enter_held(by, mtr)
    }

    /// Makes the changes of a mini-transaction, as the next entry of the journal, and answers how many
    /// entries there are with it, and its LSN. Its blocks are pending: they are durable behind the next
    /// [`SessionCore::sync`]. Its pages that are neither held nor unused are read from their homes, by at
    /// most one call of the disk for each change. It has 1 to 64 changes, each a Put or a Kind, none of
    /// which sets the type 8 or 9.
    ///
    /// # Errors
    /// The first of these, in this order, and nothing but the clean pages is changed:
    /// [`EngineFault::Down`] or [`EngineFault::OutOfMemory`] exactly where the disk was stopped;
    /// [`EngineFault::NoSuchPage`] with the first page that the store hasn't, or that is page 0;
    /// [`EngineFault::BadRange`] with the first range that is empty or doesn't lie in bytes 38 to 16376;
    /// [`EngineFault::TooLong`] exactly where it has more than 16 blocks; [`EngineFault::Spent`] exactly
    /// where the number behind its last block is past the last one that the log has;
    /// [`EngineFault::PoolFull`] exactly where more than 256 pages would be dirty;
    /// [`EngineFault::LogFull`] exactly where it has more blocks than are free; those of
    /// [`SessionCore::read`] where a page is read; [`EngineFault::OutOfMemory`] where the machine has no
    /// memory for its pages, its blocks or its entry.
    pub fn commit(&mut self, by: Author, mtr: Mtr) -> Result<Receipt, EngineFault>
        requires some { 0 < length mtr }
        requires few { length mtr ≤ 64 }
        requires forms { AreOfPages mtr }
        ensures entered { OnOk result (IsEntered D.past (Some by) mtr self.old self.new) }
        ensures receipt { IfOk result (λ r. r ≡ receipt_of self.old mtr) }
        ensures pages { OnOk result (first_missing_page self.old.store.spaces mtr ≡ None) }
        ensures ranges { OnOk result (first_bad_range mtr ≡ None) }
        ensures was_up { OnOk result (self.old.disk.stop ≡ None) }
        ensures refused { IfErr result (IsCommitRefusal D.past mtr self.old self.new) }
        ensures still { AreAtHand self.old.store mtr self.old.pool → self.new.disk ≡ self.old.disk }
        ensures up { OnOk result (self.new.disk.stop ≡ None) }
        ensures later { D.is_later self.old.disk.disk self.new.disk.disk × IsCounted (count_of D.past D.faults D.memory_refusals self.old.disk) (count_of D.past D.faults D.memory_refusals self.new.disk) }
        ensures calls { calls_of D.clock self.new.disk ≤ calls_of D.clock self.old.disk + length mtr }
    {
        self.check()?;
        check_changes(&self.store, mtr.changes())?;
        self.enter(Some(by), mtr)
    }
}
