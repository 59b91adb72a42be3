// What the answer of calls tells of the stop of the disk that they were made over.
ghost use Rattle.std.specs.Prelude.{◌≡◌, ℕ, Option, None, Some, Result, OnOk, IfErr};
ghost use Rattle.disk_model.specs.Past.{HasDiskCause, HasDiskMemoryCause};
ghost use Rattle.disk_model.specs.declared.names.DiskError.{DiskError};
ghost use Rattle.counted_disk.specs.Counting.{faults_told, refusals_told};
ghost use Rattle.counted_disk.specs.declared.counted.Stop.{Stop};

/// Behind any calls over a disk that ran: where they answered an error, that error has stopped it, and
/// where they answered Ok it runs on, also where the disk inside has counted as far as it counts.
pub fn answer_tells_stop()
    ensures stopped { (old new : Option Stop) (f g r q : ℕ) (result : Result (Unit {0}) DiskError) → old ≡ None → HasDiskCause (faults_told old f) (faults_told new g) result → HasDiskMemoryCause (refusals_told old r) (refusals_told new q) result → IfErr result (λ e. (s : Stop) × (new ≡ Some s) × (s.error ≡ e)) }
    ensures runs { (old new : Option Stop) (f g r q : ℕ) (result : Result (Unit {0}) DiskError) → old ≡ None → OnOk result (faults_told new g ≡ faults_told old f) → OnOk result (refusals_told new q ≡ refusals_told old r) → OnOk result (new ≡ None) }
{}
