// What the events so far say of those that follow, and what an event's header says.

ghost use Rattle.std.specs.Prelude.{◌≡◌, ◌+◌, ◌<◌, ◌≤◌, ℕ, List, Ok, Some, None, length, slice_index, IfOk, IfErr, IfSome};
ghost use Rattle.byte_list.specs.Fields.{le32_at};
ghost use Rattle.binlog_text.specs.Faults.{IsBinlogRefusal};
ghost use Rattle.binlog_text.specs.Header.{framed, has_sum, whole, kind_of, least_of, least_stored, length_of, sum_length};

use crate::BinlogFault;
use byte_list::fields::le32_at;

/// The checksum that each event of a log ends with. The names are MariaDB's.
#[derive(Clone, Copy)]
pub(crate) enum ChecksumAlgorithm {
    /// None, 0 in the format description.
    Off,
    /// CRC-32 in four bytes, 1 in the format description.
    Crc32,
}

/// What a start encryption says of the events after it.
#[derive(Clone, Copy)]
pub(crate) struct EventCipher {
    /// The version of key 1 under which they are ciphered.
    pub version: u32,
    /// The first bytes of each IV.
    pub nonce: [u8; 12],
}

/// What the events so far say of those that follow.
#[derive(Clone, Copy)]
pub(crate) struct LogFormat {
    /// The checksum, once the format description was read.
    pub checksum: Option<ChecksumAlgorithm>,
    /// The cipher, once a start encryption was read.
    pub cipher: Option<EventCipher>,
}

/// The type of a format description.
pub(crate) const FORMAT_DESCRIPTION: u8 = 15;

/// The type of a start encryption.
pub(crate) const START_ENCRYPTION: u8 = 164;

/// The bytes of an event's header.
pub(crate) const HEADER_LEN: usize = 19;

/// The most bytes that an event may have.
pub(crate) const MOST: u32 = 16_777_216;

/// Whether events end with a checksum. Before the first format description there is none.
pub(crate) fn has_sum(checksum: Option<ChecksumAlgorithm>) -> bool
    ensures { result ≡ has_sum checksum }
{
    match checksum {
        Some(ChecksumAlgorithm::Crc32) => true,
        Some(ChecksumAlgorithm::Off) | None => false,
    }
}

// The bytes of the checksum.
fn sum_len(checksum: Option<ChecksumAlgorithm>) -> u32
    ensures { result ≡ sum_length checksum }
{
    if has_sum(checksum) { 4 } else { 0 }
}

/// The least length of an event of a type.
pub(crate) fn least_of(checksum: Option<ChecksumAlgorithm>, kind: u8) -> u32
    ensures { result ≡ least_of checksum kind }
{
    if kind == FORMAT_DESCRIPTION {
        81
    } else if kind == START_ENCRYPTION {
        36 + sum_len(checksum)
    } else {
        19 + sum_len(checksum)
    }
}

// The least length of an event as it stands in the file: the type of one that is ciphered isn't known.
fn least_stored(format: &LogFormat, kind: u8) -> u32
    ensures { result ≡ least_stored format.now kind }
{
    if format.cipher.is_some() {
        19 + sum_len(format.checksum)
    } else {
        least_of(format.checksum, kind)
    }
}

/// The length of the event that begins the bytes, as its header says, and None where there are no bytes.
///
/// # Errors
/// `ShortEvent` where there are fewer bytes than a header has, then `BadLength`.
#[tactic(auto, unfolding(crate::specs::Header::framed))]
pub(crate) fn framed(
    format: &LogFormat,
    place: u64,
    bytes: &[u8],
) -> Result<Option<usize>, BinlogFault>
    ensures refusal { IfErr result IsBinlogRefusal }
    ensures most { IfOk result (λ found. IfSome found (λ long. long ≤ 16777216)) }
    ensures value { result ≡ framed format.now place bytes.now }
    ensures header { IfOk result (λ found. IfSome found (λ long. 19 ≤ long)) }
    ensures least { IfOk result (λ found. IfSome found (λ long. least_stored format.now (kind_of bytes.now) ≤ long)) }
    ensures checksum { IfOk result (λ found. IfSome found (λ long. 19 + sum_length format.now.checksum ≤ long)) }
{
    if bytes.is_empty() {
        return Ok(None);
    }
    if bytes.len() < HEADER_LEN {
        return Err(BinlogFault::ShortEvent {
            at: place,
            wanted: HEADER_LEN as u64,
            found: bytes.len() as u64,
        });
    }
    let length = le32_at(bytes, 9);
    if length < least_stored(format, bytes[4]) || length > MOST {
        return Err(BinlogFault::BadLength { at: place, length });
    }
    Ok(Some(length as usize))
}

/// The same, where all of the event is there.
///
/// # Errors
/// As [`framed`], then `ShortEvent` where the bytes end within the event.
pub(crate) fn whole(
    format: &LogFormat,
    place: u64,
    bytes: &[u8],
) -> Result<Option<usize>, BinlogFault>
    ensures refusal { IfErr result IsBinlogRefusal }
    ensures value { result ≡ whole format.now place bytes.now }
    ensures within { IfOk result (λ found. IfSome found (λ long. long ≤ length bytes.now)) }
    ensures header { IfOk result (λ found. IfSome found (λ long. 19 ≤ long)) }
    ensures least { IfOk result (λ found. IfSome found (λ long. least_stored format.now (kind_of bytes.now) ≤ long)) }
    ensures checksum { IfOk result (λ found. IfSome found (λ long. 19 + sum_length format.now.checksum ≤ long)) }
{
    let Some(length) = framed(format, place, bytes)? else {
        return Ok(None);
    };
    if bytes.len() < length {
        return Err(BinlogFault::ShortEvent {
            at: place,
            wanted: length as u64,
            found: bytes.len() as u64,
        });
    }
    Ok(Some(length))
}
