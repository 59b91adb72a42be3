// The beginning of a file: its length, and its first bytes.

ghost use Rattle.std.specs.Prelude.{◌≡◌, ◌≢◌, ◌-◌, ◌≤◌, max, length, Err, IfOk, IsErrOf, true, false};
ghost use Rattle.io_core.specs.Told.{Told};
ghost use Rattle.binlog_text.specs.Events.{first_position, is_log, placed};
ghost use Rattle.binlog_text.specs.Faults.{HasBinlogCauses, is_outside_fault};
ghost use Rattle.binlog_text.specs.Reading.{IsSize, Starts};

use crate::BinlogFault;
use crate::buffer::EventBuffer;
use crate::format::LogFormat;
use crate::stage::Position;
use io_core::{IoError, Library};

// Whether bytes begin as a binary log does.
#[tactic(auto, unfolding(crate::specs::Events::is_log))]
fn is_log(bytes: &[u8]) -> bool
    ensures value { result ≡ is_log bytes.now }
    ensures long { result ≡ true → 4 ≤ length bytes.now }
{
    bytes.len() >= 4 && bytes[0] == 0xfe && bytes[1] == 0x62 && bytes[2] == 0x69 && bytes[3] == 0x6e
}

// The length of the file in bytes.
fn size_of<L: Library>(files: &mut L, name: &str) -> Result<u64, BinlogFault>
    ensures size { Told (λ fs. is_outside_fault result ≡ false → IsSize (fs name.now) result) (L.files files.old) }
    ensures same { L.files files.new ≡ L.files files.old }
    ensures causes { HasBinlogCauses (L.faults files.old) (L.faults files.new) (L.absences files.old) (L.absences files.new) result }
    ensures no_fault { is_outside_fault result ≡ false → L.faults files.new ≡ L.faults files.old }
    ensures no_fault_at_want { IsErrOf result BinlogFault.OutOfMemory → L.faults files.new ≡ L.faults files.old }
    ensures present { result ≢ Err BinlogFault.Missing → L.absences files.new ≡ L.absences files.old }
    ensures refusals_later { L.memory_refusals files.old ≤ L.memory_refusals files.new }
    ensures no_refusal { is_outside_fault result ≡ false → L.memory_refusals files.new ≡ L.memory_refusals files.old }
    ensures failed { IsErrOf result BinlogFault.FileFault → L.failed_last files.new name.now }
{
    match files.length(name) {
        Ok(Some(size)) => Ok(size),
        Ok(None) => Err(BinlogFault::Missing),
        Err(IoError::Failed) => Err(BinlogFault::FileFault),
        Err(IoError::NoMemory) => Err(BinlogFault::OutOfMemory),
    }
}

/// The position of the first event.
///
/// # Errors
/// `Missing`, then `BadMagic`; `FileFault`, `OutOfMemory`.
pub(crate) fn start<L: Library>(
    buffer: &mut EventBuffer,
    files: &mut L,
    name: &str,
) -> Result<Position, BinlogFault>
    ensures position { Told (λ fs. is_outside_fault result ≡ false → Starts (fs name.now) buffer.new.rest result) (L.files files.old) }
    ensures room { buffer.new.room ≤ max buffer.old.room 65536 }
    ensures first { IfOk result (λ position. position ≡ first_position position.size) }
    ensures within { IfOk result (λ position. length buffer.new.rest ≤ position.size - position.place) }
    ensures same { L.files files.new ≡ L.files files.old }
    ensures causes { HasBinlogCauses (L.faults files.old) (L.faults files.new) (L.absences files.old) (L.absences files.new) result }
    ensures no_fault { is_outside_fault result ≡ false → L.faults files.new ≡ L.faults files.old }
    ensures no_fault_at_want { IsErrOf result BinlogFault.OutOfMemory → L.faults files.new ≡ L.faults files.old }
    ensures present { result ≢ Err BinlogFault.Missing → L.absences files.new ≡ L.absences files.old }
    ensures refusals_later { L.memory_refusals files.old ≤ L.memory_refusals files.new }
    ensures no_refusal { is_outside_fault result ≡ false → L.memory_refusals files.new ≡ L.memory_refusals files.old }
    ensures failed { IsErrOf result BinlogFault.FileFault → L.failed_last files.new name.now }
{
    let size = size_of(files, name)?;
    buffer.clear();
    buffer.fill(files, name, 0, size, size.min(4) as usize)?;
    if !is_log(buffer.rest()) {
        return Err(BinlogFault::BadMagic);
    }
    buffer.take(4);
    Ok(Position {
        place: 4,
        size,
        format: LogFormat {
            checksum: None,
            cipher: None,
        },
    })
}
