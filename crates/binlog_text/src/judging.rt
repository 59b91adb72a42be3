// A plain event judged: the first event's type, its checksum algorithm, the checksum, the scheme.

ghost use Rattle.std.specs.Prelude.{◌≡◌, ◌+◌, ◌-◌, ◌<◌, ◌≤◌, ℕ, List, Ok, Err, Some, length, take, drop, IfOk, IfErr};
ghost use Rattle.byte_list.specs.Bytes.{range};
ghost use Rattle.binlog_text.specs.Faults.{IsBinlogRefusal};
ghost use Rattle.binlog_text.specs.Header.{kind_of, least_of, sum_length};
ghost use Rattle.binlog_text.specs.Events.{algorithm_for, algorithm_of, event_sum, format_after, judged, stored_event_sum, sum_checked};

use crate::BinlogFault;
use crate::format::{
    ChecksumAlgorithm, EventCipher, FORMAT_DESCRIPTION, LogFormat, START_ENCRYPTION,
};
use byte_list::fields::le32_at;
use bytes_core::crc32;

fn algorithm_of(number: u8) -> Result<ChecksumAlgorithm, BinlogFault>
    ensures value { result ≡ algorithm_of number }
    ensures refusal { IfErr result IsBinlogRefusal }
{
    match number {
        0 => Ok(ChecksumAlgorithm::Off),
        1 => Ok(ChecksumAlgorithm::Crc32),
        _ => Err(BinlogFault::Algorithm(number)),
    }
}

// The algorithm that counts for an event.
fn algorithm_for(
    checksum: Option<ChecksumAlgorithm>,
    event: &[u8],
) -> Result<ChecksumAlgorithm, BinlogFault>
    requires { 19 ≤ length event.now }
    ensures value { result ≡ algorithm_for checksum event.now }
    ensures room { least_of checksum (kind_of event.now) ≤ length event.now → IfOk result (λ algorithm. 19 + sum_length (Some algorithm) ≤ length event.now) }
    ensures refusal { IfErr result IsBinlogRefusal }
{
    match checksum {
        Some(algorithm) => Ok(algorithm),
        None if event[4] == FORMAT_DESCRIPTION => algorithm_of(event[event.len() - 5]),
        None => Err(BinlogFault::NoFormat { kind: event[4] }),
    }
}

// The checksum of an event. Bit 0 of a format description's flags is taken as 0: it says that the log
// is in use, and is cleared in place once the log is closed.
fn event_sum(event: &mut [u8]) -> u32
    requires { 23 ≤ length event.old }
    ensures sum { result ≡ event_sum event.old }
    ensures same { event.new ≡ event.old }
{
    let end = event.len() - 4;
    if event[4] != FORMAT_DESCRIPTION {
        return crc32(&event[..end]);
    }
    let flags = event[17];
    event[17] = flags & 0xfe;
    let sum = crc32(&event[..end]);
    event[17] = flags;
    sum
}

// The checksum is the event's, where there is one.
fn check_sum(algorithm: ChecksumAlgorithm, place: u64, event: &mut [u8]) -> Result<(), BinlogFault>
    requires { algorithm ≡ ChecksumAlgorithm.Crc32 → 23 ≤ length event.old }
    ensures refusal { IfErr result IsBinlogRefusal }
    ensures value { result ≡ sum_checked algorithm place event.old }
    ensures same { event.new ≡ event.old }
{
    match algorithm {
        ChecksumAlgorithm::Off => Ok(()),
        ChecksumAlgorithm::Crc32 => compare_sums(place, event),
    }
}

// The last four bytes are the checksum of all bytes before them.
fn compare_sums(place: u64, event: &mut [u8]) -> Result<(), BinlogFault>
    requires { 23 ≤ length event.old }
    ensures refusal { IfErr result IsBinlogRefusal }
    ensures value { result ≡ sum_checked ChecksumAlgorithm.Crc32 place event.old }
    ensures same { event.new ≡ event.old }
{
    let stored = le32_at(event, event.len() - 4);
    let computed = event_sum(event);
    if stored != computed {
        return Err(BinlogFault::Checksum {
            at: place,
            stored,
            computed,
        });
    }
    Ok(())
}

// The twelve bytes from byte 24 on.
fn nonce_of(event: &[u8]) -> [u8; 12]
    requires { 36 ≤ length event.now }
    ensures { result ≡ range 24 12 event.now }
{
    let mut nonce = [0; 12];
    nonce.copy_from_slice(&event[24..36]);
    nonce
}

// What counts after an event.
fn format_after(
    format: &LogFormat,
    algorithm: ChecksumAlgorithm,
    event: &[u8],
) -> Result<LogFormat, BinlogFault>
    requires { least_of format.now.checksum (kind_of event.now) ≤ length event.now }
    ensures value { result ≡ format_after format.now algorithm event.now }
    ensures refusal { IfErr result IsBinlogRefusal }
    ensures checksum { IfOk result (λ after. after.checksum ≡ Some algorithm) }
{
    let checksum = Some(algorithm);
    if event[4] != START_ENCRYPTION {
        return Ok(LogFormat {
            checksum,
            cipher: format.cipher,
        });
    }
    if event[19] != 1 {
        return Err(BinlogFault::Scheme(event[19]));
    }
    let cipher = Some(EventCipher {
        version: le32_at(event, 20),
        nonce: nonce_of(event),
    });
    Ok(LogFormat { checksum, cipher })
}

/// What counts after a plain event, which is as long as its type may be.
///
/// # Errors
/// The first of these: `NoFormat`, `Algorithm`, `Checksum`, `Scheme`.
#[tactic(auto, unfolding(crate::specs::Events::judged))]
pub(crate) fn judge(
    format: &LogFormat,
    place: u64,
    event: &mut [u8],
) -> Result<LogFormat, BinlogFault>
    requires { least_of format.now.checksum (kind_of event.old) ≤ length event.old }
    ensures value { result ≡ judged format.now place event.old }
    ensures refusal { IfErr result IsBinlogRefusal }
    ensures long { IfOk result (λ after. 19 + sum_length after.checksum ≤ length event.old) }
    ensures same { event.new ≡ event.old }
{
    let algorithm = algorithm_for(format.checksum, event)?;
    check_sum(algorithm, place, event)?;
    format_after(format, algorithm, event)
}
