// What a reader at a stage answers, over its buffer.

ghost use Rattle.std.specs.Prelude.{◌≡◌, ◌≢◌, ◌<◌, ◌≤◌, ◌-◌, ◌⊎◌, [], max, Ok, Err, None, length, IfOk, IfSome, IsErrOf, OnErr, false, true};
ghost use Rattle.io_core.specs.Told.{Told};
ghost use Rattle.binlog_text.specs.Faults.{is_outside_fault};
ghost use Rattle.binlog_text.specs.Events.{answered, placed};
ghost use Rattle.binlog_text.specs.Sealed.{StandsStored};
ghost use Rattle.binlog_text.specs.Reading.{FitsMark, IsBehindEvent, Keeps, StandsAt, WantsFile, due_at, left_at, shown_step};
ghost use Rattle.binlog_text.specs.Stages.{holds_within, is_settled};
ghost use Rattle.binlog_text.specs.Advances.{ReaderCauses};

use crate::BinlogFault;
use crate::buffer::EventBuffer;
use crate::reading::read_event;
use crate::stage::{Position, Stage, StageStep};
use crate::start::start;
use io_core::Library;
use key_ring::Ring;

// Where the next event begins.
fn find_position<L: Library>(
    buffer: &mut EventBuffer,
    stage: Stage,
    files: &mut L,
    name: &str,
) -> Result<Position, BinlogFault>
    requires keeps { Told (λ fs. Keeps (fs name.now) stage buffer.old.rest) (L.files files.old) }
    requires settled { is_settled stage ≡ true }
    requires within { holds_within stage buffer.old.rest ≡ true }
    ensures position { Told (λ fs. is_outside_fault result ≡ false → placed (fs name.now) stage ≡ result) (L.files files.old) }
    ensures keeps { IfOk result (λ position. Told (λ fs. Keeps (fs name.now) (Stage.Events position) buffer.new.rest) (L.files files.old)) }
    ensures kept { OnErr result (Told (λ fs. Keeps (fs name.now) stage buffer.new.rest) (L.files files.old)) }
    ensures left { IfOk result (λ position. position.size - position.place ≤ left_at stage) }
    ensures at { IfOk result (λ position. StandsAt stage position.place) }
    ensures placed { (position : Position) → stage ≡ Stage.Events position → result ≡ Ok position }
    ensures held { stage ≢ Stage.Start → buffer.new.rest ≡ buffer.old.rest }
    ensures within { IfOk result (λ position. length buffer.new.rest ≤ position.size - position.place) }
    ensures room { buffer.new.room ≤ max buffer.old.room 65536 }
    ensures again { (fault : BinlogFault) → stage ≡ Stage.Refused fault → result ≡ Err fault }
    ensures same { L.files files.new ≡ L.files files.old }
    ensures causes { ReaderCauses stage (L.faults files.old) (L.faults files.new) (L.absences files.old) (L.absences files.new) result }
    ensures no_fault { is_outside_fault result ≡ false → L.faults files.new ≡ L.faults files.old }
    ensures no_fault_at_want { IsErrOf result BinlogFault.OutOfMemory → L.faults files.new ≡ L.faults files.old }
    ensures present { (result ≡ Err BinlogFault.Missing → stage ≡ Stage.Refused BinlogFault.Missing) → L.absences files.new ≡ L.absences files.old }
    ensures missing_first { (position : Position) → stage ≡ Stage.Events position → result ≢ Err BinlogFault.Missing }
    ensures refusals_later { L.memory_refusals files.old ≤ L.memory_refusals files.new }
    ensures no_refusal { is_outside_fault result ≡ false → L.memory_refusals files.new ≡ L.memory_refusals files.old }
    ensures failed { IsErrOf result BinlogFault.FileFault → L.failed_last files.new name.now }
    ensures wanted { IsErrOf result BinlogFault.FileFault → WantsFile stage buffer.old.rest }
{
    match stage {
        Stage::Start => start(buffer, files, name),
        Stage::Events(position) => Ok(position),
        Stage::Refused(fault) => Err(fault),
    }
}

/// The next event, not yet passed.
///
/// # Errors
/// The first refusal; `FileFault`, `OutOfMemory`.
pub(crate) fn answer<L: Library>(
    buffer: &mut EventBuffer,
    stage: Stage,
    files: &mut L,
    name: &str,
    ring: &Ring,
) -> Result<Option<StageStep>, BinlogFault>
    requires keeps { Told (λ fs. Keeps (fs name.now) stage buffer.old.rest) (L.files files.old) }
    requires settled { is_settled stage ≡ true }
    requires within { holds_within stage buffer.old.rest ≡ true }
    ensures answer { Told (λ fs. is_outside_fault result ≡ false → answered ring.now (fs name.now) stage ≡ shown_step buffer.new.event result) (L.files files.old) }
    ensures keeps { IfOk result (λ found. IfSome found (λ step. Told (λ fs. Keeps (fs name.now) (Stage.Events step.next) buffer.new.rest) (L.files files.old))) }
    ensures kept { (is_outside_fault result ≡ true) ⊎ (result ≡ Ok None) → Told (λ fs. Keeps (fs name.now) stage buffer.new.rest) (L.files files.old) }
    ensures held { stage ≢ Stage.Start → is_outside_fault result ≡ true → buffer.new.rest ≡ buffer.old.rest }
    ensures within { IfOk result (λ found. IfSome found (λ step. length buffer.new.rest ≤ step.next.size - step.next.place)) }
    ensures bounded { (position : Position) → stage ≡ Stage.Events position → length buffer.new.rest ≤ position.size - position.place }
    ensures left { IfOk result (λ found. IfSome found (λ step. left_at (Stage.Events step.next) < left_at stage)) }
    ensures fits { IfOk result (λ found. IfSome found (λ step. FitsMark step.mark buffer.new.event)) }
    ensures sealed { Told (λ fs. IfOk result (λ found. IfSome found (λ step. StandsStored ring.now (fs name.now) (placed (fs name.now) stage) (record { mark = step.mark; bytes = buffer.new.event })))) (L.files files.old) }
    ensures behind { IfOk result (λ found. IfSome found (λ step. IsBehindEvent stage (record { mark = step.mark; bytes = buffer.new.event }) (Stage.Events step.next))) }
    ensures room { buffer.new.room ≤ max buffer.old.room 16777216 }
    ensures grown { Told (λ fs. buffer.new.room ≤ max buffer.old.room (max 65536 (due_at (fs name.now) stage))) (L.files files.old) }
    ensures again { (fault : BinlogFault) → stage ≡ Stage.Refused fault → result ≡ Err fault }
    ensures same { L.files files.new ≡ L.files files.old }
    ensures causes { ReaderCauses stage (L.faults files.old) (L.faults files.new) (L.absences files.old) (L.absences files.new) result }
    ensures no_fault { is_outside_fault result ≡ false → L.faults files.new ≡ L.faults files.old }
    ensures no_fault_at_want { IsErrOf result BinlogFault.OutOfMemory → L.faults files.new ≡ L.faults files.old }
    ensures present { (result ≡ Err BinlogFault.Missing → stage ≡ Stage.Refused BinlogFault.Missing) → L.absences files.new ≡ L.absences files.old }
    ensures missing_first { (position : Position) → stage ≡ Stage.Events position → result ≢ Err BinlogFault.Missing }
    ensures refusals_later { L.memory_refusals files.old ≤ L.memory_refusals files.new }
    ensures no_refusal { is_outside_fault result ≡ false → L.memory_refusals files.new ≡ L.memory_refusals files.old }
    ensures failed { IsErrOf result BinlogFault.FileFault → L.failed_last files.new name.now }
    ensures wanted { IsErrOf result BinlogFault.FileFault → WantsFile stage buffer.old.rest }
{
    let position = find_position(buffer, stage, files, name)?;
    read_event(buffer, &position, files, name, ring)
}

/// Forgets the bytes that were read at the start, where a reader holds none.
pub(crate) fn forget_start(buffer: &mut EventBuffer, stage: Stage)
    ensures start { stage ≡ Stage.Start → buffer.new.rest ≡ [] }
    ensures held { stage ≢ Stage.Start → buffer.new.rest ≡ buffer.old.rest }
    ensures within { ((position : Position) → stage ≡ Stage.Events position → length buffer.old.rest ≤ position.size - position.place) → holds_within stage buffer.new.rest ≡ true }
    ensures room { buffer.new.room ≡ buffer.old.room }
{
    match stage {
        Stage::Start => buffer.clear(),
        Stage::Events(_) | Stage::Refused(_) => {}
    }
}
