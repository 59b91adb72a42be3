// Pieces of a file, read into a buffer.

ghost use Rattle.std.specs.Prelude.{◌≡◌, ◌+◌, ◌-◌, ◌≤◌, length, take, min, max, false, true, IfOk, IfErr, IsErrOf, OnOk, vec_len};
ghost use Rattle.io_core.specs.Told.{Told};
ghost use Rattle.io_core.specs.Files.{IsFilled, bytes_from};
ghost use Rattle.binlog_text.specs.Faults.{HasBinlogCauses, is_outside, is_outside_fault};
ghost use Rattle.byte_list.specs.Bytes.{part_of};
ghost use Rattle.binlog_text.specs.Held.{IsFront};

use crate::BinlogFault;
use io_core::{IoError, Library};

// Reads bytes of the file.
fn read_piece<L: Library>(
    files: &mut L,
    name: &str,
    place: u64,
    into: &mut [u8],
) -> Result<usize, BinlogFault>
    ensures within { IfOk result (λ n. n ≤ length into.old) }
    ensures bytes { IfOk result (λ n. Told (λ fs. IsFilled (bytes_from place name.now fs) into.old n into.new) (L.files files.old)) }
    ensures same { L.files files.new ≡ L.files files.old }
    ensures causes { HasBinlogCauses (L.faults files.old) (L.faults files.new) (L.absences files.old) (L.absences files.new) result }
    ensures no_fault { is_outside_fault result ≡ false → L.faults files.new ≡ L.faults files.old }
    ensures no_fault_at_want { IsErrOf result BinlogFault.OutOfMemory → L.faults files.new ≡ L.faults files.old }
    ensures absences { L.absences files.new ≡ L.absences files.old }
    ensures refusals_later { L.memory_refusals files.old ≤ L.memory_refusals files.new }
    ensures no_refusal { is_outside_fault result ≡ false → L.memory_refusals files.new ≡ L.memory_refusals files.old }
    ensures failed { IsErrOf result BinlogFault.FileFault → L.failed_last files.new name.now }
    ensures outside { IfErr result (λ fault. is_outside fault ≡ true) }
{
    match files.read(name, place, into) {
        Ok(count) => Ok(count),
        Err(IoError::Failed) => Err(BinlogFault::FileFault),
        Err(IoError::NoMemory) => Err(BinlogFault::OutOfMemory),
    }
}

// Reads bytes of the file, from a place on, behind the first `held` bytes of a buffer: as many as the
// file has, or up to `want` bytes in all. The first ones stay.
fn read_behind<L: Library>(
    files: &mut L,
    name: &str,
    place: u64,
    bytes: &mut [u8],
    held: usize,
    want: usize,
) -> Result<usize, BinlogFault>
    requires order { held ≤ want }
    requires long { want ≤ length bytes.old }
    ensures within { IfOk result (λ n. held + n ≤ want) }
    ensures kept { take held bytes.new ≡ take held bytes.old }
    ensures front { IfOk result (λ n. Told (λ fs. IsFront (part_of bytes.new held (held + n)) (bytes_from place name.now fs)) (L.files files.old)) }
    ensures enough { IfOk result (λ n. Told (λ fs. min (want - held) (length (bytes_from place name.now fs)) ≤ n) (L.files files.old)) }
    ensures same { L.files files.new ≡ L.files files.old }
    ensures causes { HasBinlogCauses (L.faults files.old) (L.faults files.new) (L.absences files.old) (L.absences files.new) result }
    ensures no_fault { is_outside_fault result ≡ false → L.faults files.new ≡ L.faults files.old }
    ensures no_fault_at_want { IsErrOf result BinlogFault.OutOfMemory → L.faults files.new ≡ L.faults files.old }
    ensures absences { L.absences files.new ≡ L.absences files.old }
    ensures refusals_later { L.memory_refusals files.old ≤ L.memory_refusals files.new }
    ensures no_refusal { is_outside_fault result ≡ false → L.memory_refusals files.new ≡ L.memory_refusals files.old }
    ensures failed { IsErrOf result BinlogFault.FileFault → L.failed_last files.new name.now }
    ensures outside { IfErr result (λ fault. is_outside fault ≡ true) }
{
    read_piece(files, name, place, &mut bytes[held..want])
}

// Moves a part of the buffer to its beginning.
fn move_to_front(bytes: &mut [u8], from: usize, to: usize)
    requires order { from ≤ to }
    requires inside { to ≤ length bytes.old }
    ensures { take (to - from) bytes.new ≡ part_of bytes.old from to }
{
    bytes.copy_within(from..to, 0);
}

// Makes the buffer as long as this, where it is shorter.
//
// # Errors
// `OutOfMemory`, after which it is as long as it was.
fn grow(bytes: &mut Vec<u8>, length: usize) -> Result<(), BinlogFault>
    ensures long { OnOk result (vec_len bytes.new ≡ max (vec_len bytes.old) length) }
    ensures most { vec_len bytes.new ≤ max (vec_len bytes.old) length }
    ensures least { vec_len bytes.old ≤ vec_len bytes.new }
    ensures kept { take (vec_len bytes.old) bytes.new.items ≡ bytes.old.items }
    ensures memory { IfErr result (λ fault. fault ≡ BinlogFault.OutOfMemory) }
{
    let before = bytes.len();
    if length > before {
        if bytes.reserve_exact(length - before).is_err() {
            return Err(BinlogFault::OutOfMemory);
        }
        if bytes.resize(length, 0).is_err() {
            return Err(BinlogFault::OutOfMemory);
        }
    }
    Ok(())
}

/// Moves a part of the buffer to its beginning, and reads bytes of the file behind it, from a place on:
/// as many as the file has, or up to `want` bytes in all. The buffer grows where that needs it. Returns
/// how many were read.
///
/// # Errors
/// `FileFault`, `OutOfMemory`, after which the part stands at the beginning too.
pub(crate) fn read_on<L: Library>(
    files: &mut L,
    name: &str,
    place: u64,
    bytes: &mut Vec<u8>,
    from: usize,
    to: usize,
    want: usize,
) -> Result<usize, BinlogFault>
    requires order { from ≤ to }
    requires inside { to ≤ vec_len bytes.old }
    requires few { to - from ≤ want }
    ensures within { IfOk result (λ n. (to - from) + n ≤ want) }
    ensures long { IfOk result (λ n. (to - from) + n ≤ vec_len bytes.new) }
    ensures least { vec_len bytes.old ≤ vec_len bytes.new }
    ensures most { vec_len bytes.new ≤ max (vec_len bytes.old) want }
    ensures kept { take (to - from) bytes.new.items ≡ part_of bytes.old.items from to }
    ensures front { IfOk result (λ n. Told (λ fs. IsFront (part_of bytes.new.items (to - from) ((to - from) + n)) (bytes_from place name.now fs)) (L.files files.old)) }
    ensures enough { IfOk result (λ n. Told (λ fs. min (want - (to - from)) (length (bytes_from place name.now fs)) ≤ n) (L.files files.old)) }
    ensures same { L.files files.new ≡ L.files files.old }
    ensures causes { HasBinlogCauses (L.faults files.old) (L.faults files.new) (L.absences files.old) (L.absences files.new) result }
    ensures no_fault { is_outside_fault result ≡ false → L.faults files.new ≡ L.faults files.old }
    ensures no_fault_at_want { IsErrOf result BinlogFault.OutOfMemory → L.faults files.new ≡ L.faults files.old }
    ensures absences { L.absences files.new ≡ L.absences files.old }
    ensures refusals_later { L.memory_refusals files.old ≤ L.memory_refusals files.new }
    ensures no_refusal { is_outside_fault result ≡ false → L.memory_refusals files.new ≡ L.memory_refusals files.old }
    ensures failed { IsErrOf result BinlogFault.FileFault → L.failed_last files.new name.now }
    ensures outside { IfErr result (λ fault. is_outside fault ≡ true) }
{
    move_to_front(bytes, from, to);
    grow(bytes, want)?;
    read_behind(files, name, place, bytes, to - from, want)
}
