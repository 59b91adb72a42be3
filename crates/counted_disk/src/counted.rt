// A disk that counts its turns, and stops at the first call that isn't answered Ok.
ghost use Rattle.std.specs.Prelude.{◌≡◌, ◌+◌, ◌≤◌, ◌⊎◌, false, true, length, take, drop, is_some, None, Some, OnOk, OnErr, IfOk, IfSome, IfErr, IsErrOf};
ghost use Rattle.cause_core.specs.Counts.{Rose};
ghost use Rattle.disk_model.specs.Event.{Make, Write, Sync, Tell, is_there, reads};
ghost use Rattle.disk_model.specs.Image.{InFile};
ghost use Rattle.disk_model.specs.Past.{grow, At, MayGrow, Is, IsWrite, HasDiskCause, HasDiskMemoryCause};
ghost use Rattle.disk_model.specs.declared.names.DiskError.TheVariants.{Failed};
ghost use Rattle.counted_disk.specs.declared.counted.Stop.{Stop};
ghost use Rattle.counted_disk.specs.Counting.{IsCounted, IsStoppedBy, RunsOn, count_of, counts_none, counts_then, faults_after, refusals_after, faults_told, refusals_told};

use disk_model::{Disk, DiskError, FileName, Mark};

/// What stopped a disk.
#[derive(Clone, Copy, Debug, PartialEq, Eq)]
pub struct Stop {
    /// The error that was answered.
    pub error: DiskError,
    /// Whether the call was a turn, a write or a sync.
    pub in_turn: bool,
}

/// A disk that counts its turns. The first call that is answered an error stops it: from then on each
/// call answers that error, and the disk isn't called.
#[derive(Drop)]
pub struct Counted<D: Disk + Drop> {
    disk: D,
    turns: u64,
    stop: Option<Stop>,
    // How many calls were answered since it stopped, by their error.
    faults_since: u64,
    refusals_since: u64,
}

impl<D: Disk + Drop> Counted<D> {
    /// This disk, which has made no turn yet.
    pub fn new(disk: D) -> Counted<D>
        ensures disk { result.disk ≡ disk }
        ensures turns { result.turns ≡ 0 }
        ensures stop { result.stop ≡ None }
        ensures faults { result.faults_since ≡ 0 }
        ensures refusals { result.refusals_since ≡ 0 }
    {
        Counted {
            disk,
            turns: 0,
            stop: None,
            faults_since: 0,
            refusals_since: 0,
        }
    }

    /// How many turns were made, the one that stopped it included. It stays at 2^64 - 1.
    pub fn turns(&self) -> u64
        ensures { result ≡ self.now.turns }
    {
        self.turns
    }

    /// What stopped it, if it was stopped.
    pub fn stop(&self) -> Option<Stop>
        ensures { result ≡ self.now.stop }
    {
        self.stop
    }

    // The answer of a disk that was stopped, which is counted.
    fn check_running(&mut self) -> Result<(), DiskError>
        ensures running { OnOk result ((self.old.stop ≡ None) × (self.new ≡ self.old)) }
        ensures stopped { IfErr result (λ e. (s : Stop) × (self.old.stop ≡ Some s) × (s.error ≡ e) × (self.new ≡ record self.old { faults_since = faults_after e self.old.faults_since; refusals_since = refusals_after e self.old.refusals_since })) }
        ensures cause { HasDiskCause (faults_told self.old.stop self.old.faults_since) (faults_told self.new.stop self.new.faults_since) result }
        ensures memory { HasDiskMemoryCause (refusals_told self.old.stop self.old.refusals_since) (refusals_told self.new.stop self.new.refusals_since) result }
    {
        let Some(stop) = self.stop else {
            return Ok(());
        };
        match stop.error {
            DiskError::Failed => {
                self.faults_since = self.faults_since.saturating_add(1);
                Err(DiskError::Failed)
            }
            DiskError::NoMemory => {
                self.refusals_since = self.refusals_since.saturating_add(1);
                Err(DiskError::NoMemory)
            }
        }
    }

    /// The disk.
    pub fn into_disk(self) -> D
        ensures { result ≡ self.disk }
    {
        self.disk
    }
}

// Keeps what stopped the disk, if the call was answered an error.
fn keep_stop<T>(
    stop: &mut Option<Stop>,
    in_turn: bool,
    done: Result<T, DiskError>,
) -> Result<T, DiskError>
    ensures same { result ≡ done }
    ensures ok { OnOk done (stop.new ≡ stop.old) }
    ensures err { IfErr done (λ e. stop.new ≡ Some (record { error = e; in_turn = in_turn })) }
{
    if let Err(error) = done {
        *stop = Some(Stop { error, in_turn });
    }
    done
}

impl<D: Disk + Drop> Disk for Counted<D> {
    ghost past = { λ c. D.past c.disk };

    ghost clock = { λ c. D.clock c.disk + (c.faults_since + c.refusals_since) };

    // The answers of its own, none while it runs. So a call that answers an error says what stopped it, also
    // where the disk inside has counted as far as it counts.
    ghost faults = { λ c. faults_told c.stop c.faults_since };

    ghost memory_refusals = { λ c. refusals_told c.stop c.refusals_since };

    ghost is_later = { λ old new. D.is_later old.disk new.disk × IsCounted (count_of D.past D.faults D.memory_refusals old) (count_of D.past D.faults D.memory_refusals new) };

    ghost may_fail_to_tell = { λ c. D.may_fail_to_tell c.disk ⊎ IsStoppedBy Failed c.stop };

    ghost is_later_reflexive = { λ c. (D.is_later_reflexive c.disk, counts_none (count_of D.past D.faults D.memory_refusals c)) };

    ghost is_later_transitive = { λ a b c p q. (D.is_later_transitive a.disk b.disk c.disk p.0 q.0, counts_then _ _ _ p.1 q.1) };

    fn make(&mut self, file: FileName, length: u64) -> Result<(), DiskError>
        requires { At (λ es. is_there file es ≡ false) (D.past self.old.disk) }
        ensures ok { OnOk result (D.past self.new.disk ≡ grow (Make file length) (D.past self.old.disk)) }
        ensures err { OnErr result (MayGrow (Is (Make file length)) (D.past self.old.disk) (D.past self.new.disk)) }
        ensures later { D.is_later self.old.disk self.new.disk × IsCounted (count_of D.past D.faults D.memory_refusals self.old) (count_of D.past D.faults D.memory_refusals self.new) }
        ensures time { Rose (D.clock self.old.disk + (self.old.faults_since + self.old.refusals_since)) (D.clock self.new.disk + (self.new.faults_since + self.new.refusals_since)) }
        ensures once { D.clock self.new.disk + (self.new.faults_since + self.new.refusals_since) ≤ D.clock self.old.disk + (self.old.faults_since + self.old.refusals_since) + 1 }
        ensures cause { HasDiskCause (faults_told self.old.stop self.old.faults_since) (faults_told self.new.stop self.new.faults_since) result }
        ensures memory { HasDiskMemoryCause (refusals_told self.old.stop self.old.refusals_since) (refusals_told self.new.stop self.new.refusals_since) result }
        ensures no_fault { OnOk result (faults_told self.new.stop self.new.faults_since ≡ faults_told self.old.stop self.old.faults_since) }
        ensures no_fault_at_want { IsErrOf result DiskError.NoMemory → faults_told self.new.stop self.new.faults_since ≡ faults_told self.old.stop self.old.faults_since }
        ensures no_refusal { OnOk result (refusals_told self.new.stop self.new.refusals_since ≡ refusals_told self.old.stop self.old.refusals_since) }
        ensures running { self.old.stop ≡ None → RunsOn false self.old.turns self.new.turns self.new.stop result }
        ensures stopped { (s : Stop) → self.old.stop ≡ Some s → IsErrOf result s.error × (self.new.disk ≡ self.old.disk) × (self.new.turns ≡ self.old.turns) × (self.new.stop ≡ self.old.stop) }
    {
        if let Err(error) = self.check_running() {
            return Err(error);
        }
        let done = self.disk.make(file, length);
        keep_stop(&mut self.stop, false, done)
    }

    fn size(&mut self, file: FileName) -> Result<Option<u64>, DiskError>
        ensures there { IfOk result (λ n. At (λ es. is_some n ≡ is_there file es) (D.past self.old.disk)) }
        ensures size { IfOk result (λ n. IfSome n (λ n. At (λ es. n ≡ length (reads file es)) (D.past self.old.disk))) }
        ensures same { D.past self.new.disk ≡ D.past self.old.disk }
        ensures later { D.is_later self.old.disk self.new.disk × IsCounted (count_of D.past D.faults D.memory_refusals self.old) (count_of D.past D.faults D.memory_refusals self.new) }
        ensures time { Rose (D.clock self.old.disk + (self.old.faults_since + self.old.refusals_since)) (D.clock self.new.disk + (self.new.faults_since + self.new.refusals_since)) }
        ensures once { D.clock self.new.disk + (self.new.faults_since + self.new.refusals_since) ≤ D.clock self.old.disk + (self.old.faults_since + self.old.refusals_since) + 1 }
        ensures cause { HasDiskCause (faults_told self.old.stop self.old.faults_since) (faults_told self.new.stop self.new.faults_since) result }
        ensures memory { HasDiskMemoryCause (refusals_told self.old.stop self.old.refusals_since) (refusals_told self.new.stop self.new.refusals_since) result }
        ensures no_fault { OnOk result (faults_told self.new.stop self.new.faults_since ≡ faults_told self.old.stop self.old.faults_since) }
        ensures no_fault_at_want { IsErrOf result DiskError.NoMemory → faults_told self.new.stop self.new.faults_since ≡ faults_told self.old.stop self.old.faults_since }
        ensures no_refusal { OnOk result (refusals_told self.new.stop self.new.refusals_since ≡ refusals_told self.old.stop self.old.refusals_since) }
        ensures running { self.old.stop ≡ None → RunsOn false self.old.turns self.new.turns self.new.stop result }
        ensures stopped { (s : Stop) → self.old.stop ≡ Some s → IsErrOf result s.error × (self.new.disk ≡ self.old.disk) × (self.new.turns ≡ self.old.turns) × (self.new.stop ≡ self.old.stop) }
    {
        if let Err(error) = self.check_running() {
            return Err(error);
        }
        let done = self.disk.size(file);
        keep_stop(&mut self.stop, false, done)
    }

    fn read(&mut self, file: FileName, at: u64, into: &mut [u8]) -> Result<(), DiskError>
        requires { At (InFile file at (length into.old)) (D.past self.old.disk) }
        ensures bytes { OnOk result (At (λ es. into.new ≡ take (length into.old) (drop at (reads file es))) (D.past self.old.disk)) }
        ensures same { D.past self.new.disk ≡ D.past self.old.disk }
        ensures later { D.is_later self.old.disk self.new.disk × IsCounted (count_of D.past D.faults D.memory_refusals self.old) (count_of D.past D.faults D.memory_refusals self.new) }
        ensures time { Rose (D.clock self.old.disk + (self.old.faults_since + self.old.refusals_since)) (D.clock self.new.disk + (self.new.faults_since + self.new.refusals_since)) }
        ensures once { D.clock self.new.disk + (self.new.faults_since + self.new.refusals_since) ≤ D.clock self.old.disk + (self.old.faults_since + self.old.refusals_since) + 1 }
        ensures cause { HasDiskCause (faults_told self.old.stop self.old.faults_since) (faults_told self.new.stop self.new.faults_since) result }
        ensures memory { HasDiskMemoryCause (refusals_told self.old.stop self.old.refusals_since) (refusals_told self.new.stop self.new.refusals_since) result }
        ensures no_fault { OnOk result (faults_told self.new.stop self.new.faults_since ≡ faults_told self.old.stop self.old.faults_since) }
        ensures no_fault_at_want { IsErrOf result DiskError.NoMemory → faults_told self.new.stop self.new.faults_since ≡ faults_told self.old.stop self.old.faults_since }
        ensures no_refusal { OnOk result (refusals_told self.new.stop self.new.refusals_since ≡ refusals_told self.old.stop self.old.refusals_since) }
        ensures running { self.old.stop ≡ None → RunsOn false self.old.turns self.new.turns self.new.stop result }
        ensures stopped { (s : Stop) → self.old.stop ≡ Some s → IsErrOf result s.error × (self.new.disk ≡ self.old.disk) × (self.new.turns ≡ self.old.turns) × (self.new.stop ≡ self.old.stop) }
    {
        if let Err(error) = self.check_running() {
            return Err(error);
        }
        let done = self.disk.read(file, at, into);
        keep_stop(&mut self.stop, false, done)
    }

    fn write(&mut self, file: FileName, at: u64, bytes: &[u8]) -> Result<(), DiskError>
        requires { At (InFile file at (length bytes.now)) (D.past self.old.disk) }
        ensures ok { OnOk result (D.past self.new.disk ≡ grow (Write file at bytes.now bytes.now) (D.past self.old.disk)) }
        ensures err { OnErr result (MayGrow (IsWrite file at bytes.now) (D.past self.old.disk) (D.past self.new.disk)) }
        ensures later { D.is_later self.old.disk self.new.disk × IsCounted (count_of D.past D.faults D.memory_refusals self.old) (count_of D.past D.faults D.memory_refusals self.new) }
        ensures time { Rose (D.clock self.old.disk + (self.old.faults_since + self.old.refusals_since)) (D.clock self.new.disk + (self.new.faults_since + self.new.refusals_since)) }
        ensures once { D.clock self.new.disk + (self.new.faults_since + self.new.refusals_since) ≤ D.clock self.old.disk + (self.old.faults_since + self.old.refusals_since) + 1 }
        ensures cause { HasDiskCause (faults_told self.old.stop self.old.faults_since) (faults_told self.new.stop self.new.faults_since) result }
        ensures memory { HasDiskMemoryCause (refusals_told self.old.stop self.old.refusals_since) (refusals_told self.new.stop self.new.refusals_since) result }
        ensures no_fault { OnOk result (faults_told self.new.stop self.new.faults_since ≡ faults_told self.old.stop self.old.faults_since) }
        ensures no_fault_at_want { IsErrOf result DiskError.NoMemory → faults_told self.new.stop self.new.faults_since ≡ faults_told self.old.stop self.old.faults_since }
        ensures no_refusal { OnOk result (refusals_told self.new.stop self.new.refusals_since ≡ refusals_told self.old.stop self.old.refusals_since) }
        ensures running { self.old.stop ≡ None → RunsOn true self.old.turns self.new.turns self.new.stop result }
        ensures stopped { (s : Stop) → self.old.stop ≡ Some s → IsErrOf result s.error × (self.new.disk ≡ self.old.disk) × (self.new.turns ≡ self.old.turns) × (self.new.stop ≡ self.old.stop) }
    {
        if let Err(error) = self.check_running() {
            return Err(error);
        }
        self.turns = self.turns.saturating_add(1);
        let done = self.disk.write(file, at, bytes);
        keep_stop(&mut self.stop, true, done)
    }

    fn sync(&mut self, file: FileName) -> Result<(), DiskError>
        ensures ok { OnOk result (D.past self.new.disk ≡ grow (Sync file) (D.past self.old.disk)) }
        ensures err { OnErr result (D.past self.new.disk ≡ D.past self.old.disk) }
        ensures later { D.is_later self.old.disk self.new.disk × IsCounted (count_of D.past D.faults D.memory_refusals self.old) (count_of D.past D.faults D.memory_refusals self.new) }
        ensures time { Rose (D.clock self.old.disk + (self.old.faults_since + self.old.refusals_since)) (D.clock self.new.disk + (self.new.faults_since + self.new.refusals_since)) }
        ensures once { D.clock self.new.disk + (self.new.faults_since + self.new.refusals_since) ≤ D.clock self.old.disk + (self.old.faults_since + self.old.refusals_since) + 1 }
        ensures cause { HasDiskCause (faults_told self.old.stop self.old.faults_since) (faults_told self.new.stop self.new.faults_since) result }
        ensures memory { HasDiskMemoryCause (refusals_told self.old.stop self.old.refusals_since) (refusals_told self.new.stop self.new.refusals_since) result }
        ensures no_fault { OnOk result (faults_told self.new.stop self.new.faults_since ≡ faults_told self.old.stop self.old.faults_since) }
        ensures no_fault_at_want { IsErrOf result DiskError.NoMemory → faults_told self.new.stop self.new.faults_since ≡ faults_told self.old.stop self.old.faults_since }
        ensures no_refusal { OnOk result (refusals_told self.new.stop self.new.refusals_since ≡ refusals_told self.old.stop self.old.refusals_since) }
        ensures running { self.old.stop ≡ None → RunsOn true self.old.turns self.new.turns self.new.stop result }
        ensures stopped { (s : Stop) → self.old.stop ≡ Some s → IsErrOf result s.error × (self.new.disk ≡ self.old.disk) × (self.new.turns ≡ self.old.turns) × (self.new.stop ≡ self.old.stop) }
    {
        if let Err(error) = self.check_running() {
            return Err(error);
        }
        self.turns = self.turns.saturating_add(1);
        let done = self.disk.sync(file);
        keep_stop(&mut self.stop, true, done)
    }

    fn tell(&mut self, mark: Mark) -> Result<(), DiskError>
        ensures ok { OnOk result (D.past self.new.disk ≡ grow (Tell mark) (D.past self.old.disk)) }
        ensures err { OnErr result (MayGrow (Is (Tell mark)) (D.past self.old.disk) (D.past self.new.disk)) }
        ensures tells { IsErrOf result DiskError.Failed → D.may_fail_to_tell self.old.disk ⊎ IsStoppedBy Failed self.old.stop }
        ensures later { D.is_later self.old.disk self.new.disk × IsCounted (count_of D.past D.faults D.memory_refusals self.old) (count_of D.past D.faults D.memory_refusals self.new) }
        ensures time { Rose (D.clock self.old.disk + (self.old.faults_since + self.old.refusals_since)) (D.clock self.new.disk + (self.new.faults_since + self.new.refusals_since)) }
        ensures once { D.clock self.new.disk + (self.new.faults_since + self.new.refusals_since) ≤ D.clock self.old.disk + (self.old.faults_since + self.old.refusals_since) + 1 }
        ensures cause { HasDiskCause (faults_told self.old.stop self.old.faults_since) (faults_told self.new.stop self.new.faults_since) result }
        ensures memory { HasDiskMemoryCause (refusals_told self.old.stop self.old.refusals_since) (refusals_told self.new.stop self.new.refusals_since) result }
        ensures no_fault { OnOk result (faults_told self.new.stop self.new.faults_since ≡ faults_told self.old.stop self.old.faults_since) }
        ensures no_fault_at_want { IsErrOf result DiskError.NoMemory → faults_told self.new.stop self.new.faults_since ≡ faults_told self.old.stop self.old.faults_since }
        ensures no_refusal { OnOk result (refusals_told self.new.stop self.new.refusals_since ≡ refusals_told self.old.stop self.old.refusals_since) }
        ensures running { self.old.stop ≡ None → RunsOn false self.old.turns self.new.turns self.new.stop result }
        ensures stopped { (s : Stop) → self.old.stop ≡ Some s → IsErrOf result s.error × (self.new.disk ≡ self.old.disk) × (self.new.turns ≡ self.old.turns) × (self.new.stop ≡ self.old.stop) }
    {
        if let Err(error) = self.check_running() {
            return Err(error);
        }
        let done = self.disk.tell(mark);
        keep_stop(&mut self.stop, false, done)
    }
}
