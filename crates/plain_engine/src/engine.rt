// The engine: a journal whose entries a log holds.
ghost use Rattle.std.specs.Prelude.{◌-◌, ◌≡◌, ◌≢◌, ◌⊎◌, ℕ, List, Some, Ok, Err, ◌+◌, ◌*◌, ◌<◌, ◌≤◌, ◌++◌, [], ◌∷◌, length, IfOk, IfErr, OnOk, OnErr};
ghost use Rattle.cause_core.specs.Counts.{Rose};
ghost use Rattle.disk_model.specs.Event.{Event};
ghost use Rattle.disk_model.specs.Past.{Later, At, Throughout};
ghost use Rattle.plain_engine.specs.Turns.{turns_after, sync_turns};
ghost use Rattle.plain_engine.specs.Text.{IsSmall};
ghost use Rattle.plain_engine.specs.Layer.{LogReady};
ghost use Rattle.plain_engine.specs.Stands.{AllStand, AllRecover, AllRefusable};
ghost use Rattle.plain_engine.specs.Kept.{up_or_refused, IsAckedOrUntold};

use crate::log::{PlainLog, append, tell_acked, tell_started, write_out};
use crate::{Author, EngineFault, Entry, Journal, Receipt, StartFault, State};
use disk_model::{Disk, DiskError};
use std::alloc::Global;
use std::marker::Model;
use std::snapshot::Snapshot;
use store_model::Mtr;

/// An engine over a disk. Contracts see the disk, the disk as `start` left it, the journal, how many
/// of its entries the disk holds for sure, how many were acknowledged, how many turns were made
/// since `start`, and whether calls are taken.
#[derive(Drop)]
pub struct Engine<D: Disk + Drop> {
    alloc: Global,
    disk: D,
    first: Snapshot<D>,
    journal: Vec<Entry>,
    log: PlainLog,
    turns: u64,
    state: State,
}

impl<D: Disk + Drop> Model for Engine<D> {
    ghost use Rattle.plain_engine.specs.Kept.{Running, running_code, IsSound};
    ghost use Rattle.plain_engine.specs.contracts.journal.Entry.{the_row as entry_row};
    ghost use Rattle.plain_engine.specs.contracts.fault.State.{the_row as state_row};

    ghost Value = { Running D };

    ghost coded = { running_code D.code entry_row.coded state_row.coded };

    ghost view = { λ s. record { disk = s.disk; first = s.first.value; journal = s.journal.items; settled = s.log.settled; acked = s.log.acked; turns = s.turns; state = s.state } };

    ghost invariant = { λ s. IsSound D.past D.may_fail_to_tell s.log.blocks.items (record { disk = s.disk; first = s.first.value; journal = s.journal.items; settled = s.log.settled; acked = s.log.acked; turns = s.turns; state = s.state }) };
}

/// The disk that an engine wasn't started on, and why.
#[derive(Drop)]
pub struct StartRefusal<D> {
    pub disk: D,
    pub why: StartFault,
}

/// The disk and the journal of an engine that was stopped.
#[derive(Drop)]
pub struct Halted<D> {
    pub disk: D,
    pub journal: Journal,
}

// The state after a fault of the disk, and the refusal that tells it.
fn after_fault(e: DiskError, turns: u64) -> (State, EngineFault)
    ensures failed { e ≡ DiskError.Failed → result ≡ (State.Down turns, EngineFault.DiskFault turns) }
    ensures down { result.0 ≢ State.Up }
    ensures why { (turn : ℕ) → result.1 ≡ EngineFault.DiskFault turn → e ≡ DiskError.Failed }
    ensures refused { e ≡ DiskError.NoMemory → result ≡ (State.OutOfMemory, EngineFault.OutOfMemory) }
{
    match e {
        DiskError::Failed => (State::Down(turns), EngineFault::DiskFault { turn: turns }),
        DiskError::NoMemory => (State::OutOfMemory, EngineFault::OutOfMemory),
    }
}

// The refusal of an engine that takes no calls.
fn check_up(state: State) -> Result<(), EngineFault>
    ensures value { result ≡ up_or_refused state }
    ensures up { OnOk result (state ≡ State.Up) }
{
    match state {
        State::Up => Ok(()),
        State::Down(turn) => Err(EngineFault::Down { turn }),
        State::OutOfMemory => Err(EngineFault::OutOfMemory),
    }
}

impl<D: Disk + Drop> Engine<D> {
    ghost use Rattle.plain_engine.specs.Kept.{IsExact, Somewhere, StandsSince, AreEntries, with_journal};

    /// Starts a session on a log that holds no mini-transaction, as `create` makes it: tells `Started`,
    /// and takes the snapshot from which on each image stands for a beginning of the journal. A
    /// refusal hands back the disk.
    pub fn start(alloc: Global, disk: D) -> Result<Engine<D>, StartRefusal<D>>
        requires { At (LogReady [] 0 0 0) (D.past disk) }
        ensures ok { IfOk result (λ e. (e.journal ≡ []) × (e.first ≡ e.disk) × (e.settled ≡ 0) × (e.acked ≡ 0) × (e.turns ≡ 0) × (e.state ≡ State.Up)) }
        ensures stands { IfOk result (λ e. StandsSince D.past e) }
        ensures begun { IfOk result (λ e. Throughout (AllStand []) (D.past disk) (D.past e.disk)) }
        ensures refused { IfErr result (λ r. Throughout (AllStand []) (D.past disk) (D.past r.disk)) }
        ensures begun_refusable { IfOk result (λ e. Throughout AllRefusable (D.past disk) (D.past e.disk)) }
        ensures refused_refusable { IfErr result (λ r. Throughout AllRefusable (D.past disk) (D.past r.disk)) }
        ensures cause { IfErr result (λ r. r.why ≡ StartFault.DiskFault → Rose (D.faults disk) (D.faults r.disk)) }
        ensures memory { IfErr result (λ r. r.why ≡ StartFault.OutOfMemory → Rose (D.memory_refusals disk) (D.memory_refusals r.disk)) }
        ensures tells { IfErr result (λ r. r.why ≡ StartFault.DiskFault → Somewhere D.may_fail_to_tell) }
        ensures later { IfOk result (λ e. D.is_later disk e.disk) }
        ensures refused_later { IfErr result (λ r. D.is_later disk r.disk) }
    {
        let mut disk = disk;
        match tell_started(&mut disk) {
            Ok(()) => {
                let first = Snapshot::of(&disk);
                let log = PlainLog {
                    blocks: Vec::new(alloc),
                    settled: 0,
                    acked: 0,
                };
                Ok(Engine {
                    alloc,
                    disk,
                    first,
                    journal: Vec::new(alloc),
                    log,
                    turns: 0,
                    state: State::Up,
                })
            }
            Err(DiskError::Failed) => Err(StartRefusal {
                disk,
                why: StartFault::DiskFault,
            }),
            Err(DiskError::NoMemory) => Err(StartRefusal {
                disk,
                why: StartFault::OutOfMemory,
            }),
        }
    }

    /// Adds a mini-transaction to the journal. It isn't on the disk before the next `sync`. Its place
    /// is the journal's length then, and its LSN 4096 times its block's number plus one. After a
    /// refusal nothing has changed. `OutOfMemory` comes of the call's own growth, and always where
    /// the disk was refused memory before.
    pub fn commit(&mut self, by: Author, mtr: Mtr) -> Result<Receipt, EngineFault>
        requires small { IsSmall mtr }
        requires room { length self.old.journal < 256 }
        ensures ok { IfOk result (λ r. (r.place ≡ length self.old.journal + 1) × (r.lsn ≡ (length self.old.journal + 3) * 4096) × (self.new ≡ with_journal self.old (self.old.journal ++ (record { by = Some by; lsn = r.lsn; mtr = mtr }) ∷ []))) }
        ensures err { OnErr result (self.new ≡ self.old) }
        ensures up { IfErr (up_or_refused self.old.state) (λ e. result ≡ Err e) }
        ensures cause { IfErr result (λ e. (e ≡ EngineFault.OutOfMemory) ⊎ (up_or_refused self.old.state ≡ Err e)) }
        ensures stands { StandsSince D.past self.new }
        ensures exact { At (IsExact self.new.journal self.new.settled self.new.acked) (D.past self.new.disk) }
    {
        check_up(self.state)?;
        let place = self.journal.len() as u64 + 1;
        let lsn = (place + 2) * 4096;
        let kept = self.log.blocks.len();
        let Ok(()) = append(self.alloc, &mut self.log, &mtr) else {
            return Err(EngineFault::OutOfMemory);
        };
        let entry = Entry {
            by: Some(by),
            lsn,
            mtr,
        };
        let Ok(()) = self.journal.push(entry) else {
            self.log.blocks.truncate(kept);
            return Err(EngineFault::OutOfMemory);
        };
        Ok(Receipt { place, lsn })
    }

    /// Writes out what is pending, a write for each block in order and one sync of the log, and then
    /// acknowledges the whole journal. Gives its length. Takes no memory of its own.
    pub fn sync(&mut self) -> Result<u64, EngineFault>
        ensures ok { IfOk result (λ n. (n ≡ length self.new.journal) × (self.new.settled ≡ n) × (self.new.acked ≡ n) × (self.new.state ≡ State.Up)) }
        ensures journal { self.new.journal ≡ self.old.journal }
        ensures first { self.new.first ≡ self.old.first }
        ensures up { IfErr (up_or_refused self.old.state) (λ e. (result ≡ Err e) × (self.new ≡ self.old)) }
        ensures fault { (turn : ℕ) → result ≡ Err (EngineFault.DiskFault turn) → (self.new.state ≡ State.Down turn) × (turn ≡ self.new.turns) × Rose (D.faults self.old.disk) (D.faults self.new.disk) }
        ensures down { (turn : ℕ) → result ≡ Err (EngineFault.Down turn) → self.old.state ≡ State.Down turn }
        ensures memory { result ≡ Err EngineFault.OutOfMemory → (self.new.state ≡ State.OutOfMemory) × ((self.old.state ≡ State.OutOfMemory) ⊎ Rose (D.memory_refusals self.old.disk) (D.memory_refusals self.new.disk)) }
        ensures turns { OnOk result (self.new.turns ≡ turns_after self.old.turns (sync_turns (length self.old.journal - self.old.settled))) }
        ensures turn { (turn : ℕ) → result ≡ Err (EngineFault.DiskFault turn) → turn ≤ turns_after self.old.turns (sync_turns (length self.old.journal - self.old.settled)) }
        ensures later { D.is_later self.old.disk self.new.disk }
        ensures tells { (turn : ℕ) → result ≡ Err (EngineFault.DiskFault turn) → (self.new.settled ≡ self.old.settled) ⊎ Somewhere D.may_fail_to_tell }
        ensures unacked { OnErr result (self.new.acked ≡ self.old.acked) }
        ensures settled { OnErr result ((self.new.settled ≡ self.old.settled) ⊎ (self.new.settled ≡ length self.new.journal)) }
        ensures stands { StandsSince D.past self.new }
        ensures exact { At (IsExact self.new.journal self.new.settled self.new.acked) (D.past self.new.disk) }
        ensures all_acked { IsAckedOrUntold D.may_fail_to_tell self.new.state self.new.acked self.new.settled }
    {
        check_up(self.state)?;
        if let Err(e) = write_out(&mut self.disk, &mut self.turns, &self.log) {
            let (state, fault) = after_fault(e, self.turns);
            self.state = state;
            return Err(fault);
        }
        self.log.settled = self.log.blocks.len();
        if let Err(e) = tell_acked(&mut self.disk, &self.log) {
            let (state, fault) = after_fault(e, self.turns);
            self.state = state;
            return Err(fault);
        }
        self.log.acked = self.log.settled;
        Ok(self.log.acked as u64)
    }

    /// The entries, the oldest first.
    pub fn journal(&self) -> &[Entry]
        ensures journal { result.now ≡ self.now.journal }
        ensures entries { AreEntries 2 self.now.journal }
        ensures room { length self.now.journal ≤ 256 }
        ensures stands { StandsSince D.past self.now }
    {
        &self.journal
    }

    /// How many entries the disk holds for sure.
    pub fn settled(&self) -> u64
        ensures { result ≡ self.now.settled }
    {
        self.log.settled as u64
    }

    /// How many entries were acknowledged.
    pub fn acked(&self) -> u64
        ensures { result ≡ self.now.acked }
    {
        self.log.acked as u64
    }

    /// How many turns of the disk, which are writes and syncs, were made since `start`.
    pub fn turns(&self) -> u64
        ensures { result ≡ self.now.turns }
    {
        self.turns
    }

    /// Whether calls are taken.
    pub fn state(&self) -> State
        ensures { result ≡ self.now.state }
    {
        self.state
    }

    /// The disk and the journal, as they are.
    pub fn halt(self) -> Halted<D>
        ensures disk { result.disk ≡ self.disk }
        ensures journal { result.journal ≡ self.journal }
        ensures entries { AreEntries 2 self.journal }
        ensures since { Throughout (AllStand self.journal) (D.past self.first) (D.past self.disk) }
        ensures stand { At (AllStand self.journal) (D.past self.disk) }
        ensures exact { At (IsExact self.journal self.settled self.acked) (D.past self.disk) }
        ensures order { self.settled ≤ length self.journal }
        ensures all_acked { self.state ≡ State.Up → self.acked ≡ self.settled }

        // Where they differ, memory was refused, or a disk's `tell` may fail.
        ensures tells { IsAckedOrUntold D.may_fail_to_tell self.state self.acked self.settled }

        // A crash whose torn writes have their last byte inverted is lucky, now and at each moment since `start`.
        ensures refusable { At AllRefusable (D.past self.disk) }
        ensures refusable_since { Throughout AllRefusable (D.past self.first) (D.past self.disk) }

        // With nothing pending each image has exactly the settled entries.
        ensures settled { self.state ≡ State.Up → At (AllRecover self.journal self.settled) (D.past self.disk) }

        // Each moment of the disk is one that it had by the start, or stands.
        ensures earlier { (m : List Event) → Later (Some m) (D.past self.disk) → Later (Some m) (D.past self.first) ⊎ AllStand self.journal m }
    {
        let Engine {
            alloc: _,
            disk,
            first: _,
            journal,
            log: _,
            turns: _,
            state: _,
        } = self;
        Halted {
            disk,
            journal: Journal::of(journal),
        }
    }
}
