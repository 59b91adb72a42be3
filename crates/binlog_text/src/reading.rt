// One event read.

ghost use Rattle.std.specs.Prelude.{◌≡◌, ◌≢◌, ◌+◌, ◌-◌, ◌^◌, ◌<◌, ◌≤◌, ◌⊎◌, ℕ, List, Ok, Err, Some, length, take, drop, min, max, IfOk, IfErr, IfSome, IsErrOf, OnErr, OnOk, false, true};
ghost use Rattle.io_core.specs.Told.{Told};
ghost use Rattle.io_core.specs.Files.{bytes_from};
ghost use Rattle.byte_list.specs.Bytes.{part_of};
ghost use Rattle.binlog_text.specs.Faults.{HasBinlogCauses, IsBinlogRefusal, is_outside, is_outside_fault};
ghost use Rattle.binlog_text.specs.Header.{kind_of, least_stored, sum_length};
ghost use Rattle.binlog_text.specs.Held.{IsFront};
ghost use Rattle.binlog_text.specs.Events.{event_in, judged_event, opened, opened_event, step_of};
ghost use Rattle.binlog_text.specs.Reading.{Moves, Reaches, WantsEvent, due_in, shown_step};
ghost use Rattle.binlog_text.specs.Sealed.{IsStoredEvent};

use crate::BinlogFault;
use crate::buffer::EventBuffer;
use crate::format::{HEADER_LEN, LogFormat, framed, has_sum, whole};
use crate::judging::judge;
use crate::opening::open;
use crate::stage::{Position, StageStep};
use crate::view::EventMark;
use io_core::Library;
use key_ring::Ring;

/// The plain event in place of what stands in the file, and the format after it.
pub(crate) fn read_plain(
    ring: &Ring,
    position: &Position,
    event: &mut [u8],
) -> Result<LogFormat, BinlogFault>
    requires long { 19 ≤ length event.old }
    requires least { least_stored position.now.format (kind_of event.old) ≤ length event.old }
    ensures refusal { IfErr result IsBinlogRefusal }
    ensures long { IfOk result (λ after. 19 + sum_length after.checksum ≤ length event.old) }
    ensures value { opened_event position.now (opened ring.now position.now.format position.now.place event.old) ≡ judged_event position.now event.new result }
    ensures sealed { OnOk result (IsStoredEvent ring.now position.now.format position.now.place event.new event.old) }
{
    open(ring, &position.format, position.place, event)?;
    judge(&position.format, position.place, event)
}

/// The same of a part of a buffer.
pub(crate) fn read_within(
    ring: &Ring,
    position: &Position,
    bytes: &mut [u8],
    at: usize,
    to: usize,
) -> Result<LogFormat, BinlogFault>
    requires long { at + 19 ≤ to }
    requires inside { to ≤ length bytes.old }
    requires least { least_stored position.now.format (kind_of (part_of bytes.old at to)) ≤ to - at }
    ensures refusal { IfErr result IsBinlogRefusal }
    ensures long { IfOk result (λ after. 19 + sum_length after.checksum ≤ to - at) }
    ensures value { opened_event position.now (opened ring.now position.now.format position.now.place (part_of bytes.old at to)) ≡ judged_event position.now (part_of bytes.new at to) result }
    ensures rest { drop to bytes.new ≡ drop to bytes.old }
    ensures sealed { OnOk result (IsStoredEvent ring.now position.now.format position.now.place (part_of bytes.new at to) (part_of bytes.old at to)) }
{
    read_plain(ring, position, &mut bytes[at..to])
}

// How many bytes the file has from a position on.
fn left_of(position: &Position) -> u64
    ensures left { result ≡ position.now.size - position.now.place }
    ensures fits { position.now.place + result < 2 ^ 64 }
{
    position.size.saturating_sub(position.place)
}

// Reads on in the file until the event at a position is here, or all that the file has of it. After an
// error the same bytes are here as before.
fn reach<L: Library>(
    buffer: &mut EventBuffer,
    position: &Position,
    files: &mut L,
    name: &str,
) -> Result<(), BinlogFault>
    requires { length buffer.old.rest ≤ position.now.size - position.now.place }
    ensures front { Told (λ fs. IsFront buffer.old.rest (bytes_from position.now.place name.now fs) → IsFront buffer.new.rest (bytes_from position.now.place name.now fs)) (L.files files.old) }
    ensures reached { OnOk result (Told (λ fs. IsFront buffer.old.rest (bytes_from position.now.place name.now fs)
        → length (bytes_from position.now.place name.now fs) ≡ position.now.size - position.now.place
        → Reaches position.now buffer.new.rest (bytes_from position.now.place name.now fs)) (L.files files.old)) }
    ensures room { buffer.new.room ≤ max buffer.old.room 16777216 }
    ensures grown { Told (λ fs. IsFront buffer.old.rest (bytes_from position.now.place name.now fs)
        → length (bytes_from position.now.place name.now fs) ≡ position.now.size - position.now.place
        → buffer.new.room ≤ max buffer.old.room (max 65536 (due_in position.now (bytes_from position.now.place name.now fs)))) (L.files files.old) }
    ensures bounded { length buffer.new.rest ≤ position.now.size - position.now.place }
    ensures kept { OnErr result (buffer.new.rest ≡ buffer.old.rest) }
    ensures outside { IfErr result (λ fault. is_outside fault ≡ true) }
    ensures same { L.files files.new ≡ L.files files.old }
    ensures causes { HasBinlogCauses (L.faults files.old) (L.faults files.new) (L.absences files.old) (L.absences files.new) result }
    ensures no_fault { is_outside_fault result ≡ false → L.faults files.new ≡ L.faults files.old }
    ensures no_fault_at_want { IsErrOf result BinlogFault.OutOfMemory → L.faults files.new ≡ L.faults files.old }
    ensures absences { L.absences files.new ≡ L.absences files.old }
    ensures refusals_later { L.memory_refusals files.old ≤ L.memory_refusals files.new }
    ensures no_refusal { is_outside_fault result ≡ false → L.memory_refusals files.new ≡ L.memory_refusals files.old }
    ensures failed { IsErrOf result BinlogFault.FileFault → L.failed_last files.new name.now }
    ensures wanted { IsErrOf result BinlogFault.FileFault → WantsEvent position.now buffer.old.rest }
{
    let held = buffer.rest().len();
    let left = left_of(position);
    let header = left.min(HEADER_LEN as u64) as usize;
    buffer.fill(files, name, position.place, left, header)?;
    match framed(&position.format, position.place, buffer.rest()) {
        Ok(Some(length)) => {
            let need = left.min(length as u64) as usize;
            match buffer.fill(files, name, position.place, left, need) {
                Ok(()) => Ok(()),
                Err(fault) => {
                    buffer.shorten(held);
                    Err(fault)
                }
            }
        }
        Ok(None) => Ok(()),
        Err(_) => Ok(()),
    }
}

// The event that begins the rest of the buffer becomes its event, in clear.
#[tactic(auto, unfolding(crate::specs::Events::event_in))]
fn take_event(
    buffer: &mut EventBuffer,
    position: &Position,
    ring: &Ring,
) -> Result<Option<StageStep>, BinlogFault>
    requires { length buffer.old.rest ≤ position.now.size - position.now.place }
    ensures refusal { IfErr result IsBinlogRefusal }
    ensures value { event_in ring.now buffer.old.rest position.now ≡ shown_step buffer.new.event result }
    ensures rest { IfOk result (λ step. IfSome step (λ s. buffer.new.rest ≡ drop (length buffer.new.event) buffer.old.rest)) }
    ensures end { result ≡ Ok None → buffer.new ≡ buffer.old }
    ensures moves { IfOk result (λ step. IfSome step (Moves position.now buffer.new.event)) }
    ensures room { buffer.new.room ≡ buffer.old.room }
    ensures within { IfOk result (λ step. IfSome step (λ s. length buffer.new.event ≤ length buffer.old.rest)) }
    ensures bounded { length buffer.new.rest ≤ length buffer.old.rest }
    ensures left { IfOk result (λ step. IfSome step (λ s. length buffer.new.rest ≤ s.next.size - s.next.place)) }
    ensures sealed { IfOk result (λ step. IfSome step (λ s. IsStoredEvent ring.now position.now.format position.now.place buffer.new.event (take (length buffer.new.event) buffer.old.rest))) }
{
    let Some(length) = whole(&position.format, position.place, buffer.rest())? else {
        return Ok(None);
    };
    buffer.take(length);
    let format = buffer.read(ring, position)?;
    Ok(Some(step_of(position, length, format)))
}

// What stands at a position, the format after it being known.
fn step_of(position: &Position, length: usize, format: LogFormat) -> StageStep
    requires { position.now.place + length ≤ position.now.size }
    ensures { result ≡ step_of position.now length format }
{
    let key = match position.format.cipher {
        Some(cipher) => Some(cipher.version),
        None => None,
    };
    StageStep {
        mark: EventMark {
            place: position.place,
            key,
            has_sum: has_sum(format.checksum),
        },
        next: Position {
            place: position.place + length as u64,
            size: position.size,
            format,
        },
    }
}

/// Reads the event at a position. After a fault of the file or want of memory the same bytes are held as
/// before.
///
/// # Errors
/// The first refusal; `FileFault`, `OutOfMemory`.
pub(crate) fn read_event<L: Library>(
    buffer: &mut EventBuffer,
    position: &Position,
    files: &mut L,
    name: &str,
    ring: &Ring,
) -> Result<Option<StageStep>, BinlogFault>
    requires { length buffer.old.rest ≤ position.now.size - position.now.place }
    ensures event { Told (λ fs. IsFront buffer.old.rest (bytes_from position.now.place name.now fs)
        → length (bytes_from position.now.place name.now fs) ≡ position.now.size - position.now.place
        → is_outside_fault result ≡ false → event_in ring.now (bytes_from position.now.place name.now fs) position.now ≡ shown_step buffer.new.event result) (L.files files.old) }
    ensures rest { Told (λ fs. IsFront buffer.old.rest (bytes_from position.now.place name.now fs)
        → length (bytes_from position.now.place name.now fs) ≡ position.now.size - position.now.place
        → IfOk result (λ step. IfSome step (λ s. IsFront buffer.new.rest (drop (length buffer.new.event) (bytes_from position.now.place name.now fs))))) (L.files files.old) }
    ensures stays { Told (λ fs. IsFront buffer.old.rest (bytes_from position.now.place name.now fs)
        → (is_outside_fault result ≡ true) ⊎ (result ≡ Ok None) → IsFront buffer.new.rest (bytes_from position.now.place name.now fs)) (L.files files.old) }
    ensures moves { IfOk result (λ step. IfSome step (Moves position.now buffer.new.event)) }
    ensures kept { is_outside_fault result ≡ true → buffer.new.rest ≡ buffer.old.rest }
    ensures bounded { length buffer.new.rest ≤ position.now.size - position.now.place }
    ensures left { IfOk result (λ step. IfSome step (λ s. length buffer.new.rest ≤ s.next.size - s.next.place)) }
    ensures room { buffer.new.room ≤ max buffer.old.room 16777216 }
    ensures grown { Told (λ fs. IsFront buffer.old.rest (bytes_from position.now.place name.now fs)
        → length (bytes_from position.now.place name.now fs) ≡ position.now.size - position.now.place
        → buffer.new.room ≤ max buffer.old.room (max 65536 (due_in position.now (bytes_from position.now.place name.now fs)))) (L.files files.old) }
    ensures same { L.files files.new ≡ L.files files.old }
    ensures causes { HasBinlogCauses (L.faults files.old) (L.faults files.new) (L.absences files.old) (L.absences files.new) result }
    ensures no_fault { is_outside_fault result ≡ false → L.faults files.new ≡ L.faults files.old }
    ensures no_fault_at_want { IsErrOf result BinlogFault.OutOfMemory → L.faults files.new ≡ L.faults files.old }
    ensures absences { L.absences files.new ≡ L.absences files.old }
    ensures refusals_later { L.memory_refusals files.old ≤ L.memory_refusals files.new }
    ensures no_refusal { is_outside_fault result ≡ false → L.memory_refusals files.new ≡ L.memory_refusals files.old }
    ensures failed { IsErrOf result BinlogFault.FileFault → L.failed_last files.new name.now }
    ensures wanted { IsErrOf result BinlogFault.FileFault → WantsEvent position.now buffer.old.rest }
    ensures there { result ≢ Err BinlogFault.Missing }
    ensures sealed { Told (λ fs. IsFront buffer.old.rest (bytes_from position.now.place name.now fs)
        → IfOk result (λ step. IfSome step (λ s. IsStoredEvent ring.now position.now.format position.now.place buffer.new.event (take (length buffer.new.event) (bytes_from position.now.place name.now fs))))) (L.files files.old) }
{
    reach(buffer, position, files, name)?;
    take_event(buffer, position, ring)
}
