// The cipher's worked row, and a small ciphered log: as it is, cut, damaged at each byte, and with a
// second start encryption.

use crate::{BinlogFault, LogReader, decipher_event, encipher_event};
use aes_core::BlockKey;
use bytes_core::crc32;
use io_core::Shelf;
use key_ring::{Ring, RingFault};
use std::alloc::{AllocError, Global};
use std::test::Fail;

const KEY_ONE: [u8; 16] = [0, 1, 2, 3, 4, 5, 6, 7, 8, 9, 10, 11, 12, 13, 14, 15];

const KEY_TWO: [u8; 16] = [7; 16];

const NONCE: [u8; 12] = [0, 1, 2, 3, 4, 5, 6, 7, 8, 9, 10, 11];

const SECOND_NONCE: [u8; 12] = [9; 12];

#[test]
fn an_event_is_enciphered_and_comes_back(rt: HostRuntime) -> Result<(), Fail> {
    let key = BlockKey::new(&[
        0x2b, 0x7e, 0x15, 0x16, 0x28, 0xae, 0xd2, 0xa6, 0xab, 0xf7, 0x15, 0x88, 0x09, 0xcf, 0x4f,
        0x3c,
    ])
    .ok_or("a key")?;
    let plain = [
        0u8, 0, 0, 0, 3, 1, 0, 0, 0, 0x13, 0, 0, 0, 0x1f, 0x0d, 0x0e, 0x0f, 0, 0,
    ];
    let cipher = [
        0x6du8, 0x32, 0xb6, 0xda, 0x53, 0xff, 0x67, 0xcc, 0x99, 0x13, 0, 0, 0, 0x16, 0x3a, 0xe7,
        0x94, 0xaf, 0xec,
    ];
    let mut event = plain;
    encipher_event(&key, &NONCE, 252_579_084, &mut event);
    assert_eq!(rt; event, cipher);
    decipher_event(&key, &NONCE, 252_579_084, &mut event);
    assert_eq!(rt; event, plain);
    Ok(())
}

// Appends an event with a checksum, enciphered under a nonce where there is a key.
fn push_event(
    alloc: Global,
    log: &mut Vec<u8>,
    kind: u8,
    body: &[u8],
    key: Option<&BlockKey>,
    nonce: &[u8; 12],
) -> Result<(), AllocError> {
    let length = (body.len() & 0xff_ffff) as u32 + 23;
    let place = (log.len() & 0xff_ffff) as u32;
    let mut event = Vec::new(alloc);
    event.extend_from_slice(&[0, 0, 0, 0, kind, 1, 0, 0, 0])?;
    event.extend_from_slice(&length.to_le_bytes())?;
    event.extend_from_slice(&(place + length).to_le_bytes())?;
    event.extend_from_slice(&[0, 0])?;
    event.extend_from_slice(body)?;
    let sum = crc32(&event);
    event.extend_from_slice(&sum.to_le_bytes())?;
    if let Some(key) = key {
        if event.len() >= 19 {
            encipher_event(key, nonce, place, &mut event);
        }
    }
    log.extend_from_slice(&event)
}

// The body of a format description with CRC-32.
fn description() -> [u8; 222] {
    let mut body = [0u8; 222];
    body[0] = 4;
    body[56] = 19;
    body[221] = 1;
    body
}

// The body of a start encryption: scheme 1, version 1, and a nonce.
fn first_start() -> [u8; 17] {
    [1, 1, 0, 0, 0, 0, 1, 2, 3, 4, 5, 6, 7, 8, 9, 10, 11]
}

// The same of version 2.
fn second_start() -> [u8; 17] {
    [1, 2, 0, 0, 0, 9, 9, 9, 9, 9, 9, 9, 9, 9, 9, 9, 9]
}

// A format description at 4, a start encryption at 249, a ciphered stop at 289; 312 bytes.
fn small_log(alloc: Global) -> Result<Vec<u8>, AllocError> {
    let mut log = Vec::from_slice(alloc, &[0xfe, 0x62, 0x69, 0x6e])?;
    push_event(alloc, &mut log, 15, &description(), None, &NONCE)?;
    push_event(alloc, &mut log, 164, &first_start(), None, &NONCE)?;
    let key = BlockKey::new(&KEY_ONE);
    push_event(alloc, &mut log, 3, &[], key.as_ref(), &NONCE)?;
    Ok(log)
}

// The small log, in use, with a ciphered start encryption at 312 and a query under its key at 352.
fn rotated_log(alloc: Global) -> Result<Vec<u8>, AllocError> {
    let mut log = small_log(alloc)?;
    let first = BlockKey::new(&KEY_ONE);
    push_event(
        alloc,
        &mut log,
        164,
        &second_start(),
        first.as_ref(),
        &NONCE,
    )?;
    let second = BlockKey::new(&KEY_TWO);
    push_event(alloc, &mut log, 2, b"query", second.as_ref(), &SECOND_NONCE)?;
    if let Some(byte) = log.get_mut(21) {
        *byte = 1;
    }
    Ok(log)
}

// What the view of an event shows.
#[derive(Drop)]
struct Row {
    kind: u8,
    flags: u16,
    place: u64,
    key: Option<u32>,
    body: Vec<u8>,
}

// The events of a file, and how it ends. The call of the library of this number fails, if there is one,
// and after a fault of the file the reader is called again.
fn read_log(
    alloc: Global,
    file: &[u8],
    ring: &Ring,
    failing: u64,
) -> Result<(Vec<Row>, Result<(), BinlogFault>), AllocError> {
    let mut rows = Vec::new(alloc);
    let mut files = Vec::new(alloc);
    let name = String::from_str(alloc, "log")?;
    let bytes = Vec::from_slice(alloc, file)?;
    files.push((name, bytes)).map_err(AllocError::from)?;
    let mut shelf = Shelf::new(files, vec![in alloc; failing]?);
    let mut reader = LogReader::new(alloc);
    'events: for _ in 0..20 {
        match reader.next(&mut shelf, "log", ring) {
            Ok(Some(view)) => {
                let row = Row {
                    kind: view.kind(),
                    flags: view.flags(),
                    place: view.place(),
                    key: view.key(),
                    body: Vec::from_slice(alloc, view.body())?,
                };
                rows.push(row).map_err(AllocError::from)?;
            }
            Ok(None) => return Ok((rows, Ok(()))),
            Err(BinlogFault::FileFault) => continue,
            Err(fault) => return Ok((rows, Err(fault))),
        }
    }
    Ok((rows, Ok(())))
}

// How many events a file has, and how it ends.
fn count_events(
    alloc: Global,
    file: &[u8],
    ring: &Ring,
) -> Result<(usize, Result<(), BinlogFault>), AllocError> {
    let (rows, end) = read_log(alloc, file, ring, 0)?;
    Ok((rows.len(), end))
}

// The ring with key 1 in versions 1 and 2.
fn small_ring(alloc: Global) -> Result<Ring, RingFault> {
    let mut ring = Ring::new(alloc);
    ring.add(1, 1, &KEY_ONE)?;
    ring.add(1, 2, &KEY_TWO)?;
    Ok(ring)
}

// How many events the first n bytes of the small log have, and how they end.
fn end_of_front(n: usize) -> (usize, Result<(), BinlogFault>) {
    let (at, length, events) = match n {
        0..=3 => return (0, Err(BinlogFault::BadMagic)),
        4..=248 => (4, 245, 0),
        249..=288 => (249, 40, 1),
        289..=311 => (289, 23, 2),
        _ => return (3, Ok(())),
    };
    let found = n.saturating_sub(at) as u64;
    if found == 0 {
        return (events, Ok(()));
    }
    let wanted = if found < 19 { 19 } else { length };
    let at = at as u64;
    (events, Err(BinlogFault::ShortEvent { at, wanted, found }))
}

// A refusal of the checksum of the event at a place, whatever its numbers are.
fn sum_fault(at: u64) -> BinlogFault {
    BinlogFault::Checksum {
        at,
        stored: 0,
        computed: 0,
    }
}

// The same for a length past the file's end.
fn short_event(at: u64, wanted: u64) -> BinlogFault {
    let found = 312u64.saturating_sub(at);
    BinlogFault::ShortEvent { at, wanted, found }
}

// What the format refuses where the byte at a place of the small log is inverted: a magic byte, the first
// event's type and algorithm, each byte of the three lengths (245, 40 and 23), and else a checksum. Of
// the ciphered event another implementation was asked what type it then deciphers to: none that has a
// least length of its own.
fn damage_at(place: usize) -> BinlogFault {
    match place {
        0..=3 => BinlogFault::BadMagic,
        8 => BinlogFault::NoFormat { kind: 240 },
        13 => BinlogFault::BadLength { at: 4, length: 10 },
        14 => short_event(4, 65_525),
        15 => short_event(4, 16_711_925),
        16 => BinlogFault::BadLength {
            at: 4,
            length: 4_278_190_325,
        },
        244 => BinlogFault::Algorithm(254),
        258 => short_event(249, 215),
        259 => short_event(249, 65_320),
        260 => short_event(249, 16_711_720),
        261 => BinlogFault::BadLength {
            at: 249,
            length: 4_278_190_120,
        },
        298 => short_event(289, 232),
        299 => short_event(289, 65_303),
        300 => short_event(289, 16_711_703),
        301 => BinlogFault::BadLength {
            at: 289,
            length: 4_278_190_103,
        },
        _ => sum_fault(event_of(place).1),
    }
}

// How many events stand before the one at a place of the small log, and where that begins.
fn event_of(place: usize) -> (usize, u64) {
    match place {
        0..=248 => (0, 4),
        249..=288 => (1, 249),
        _ => (2, 289),
    }
}

// A fault without the numbers of a checksum.
fn without_sums(fault: BinlogFault) -> BinlogFault {
    match fault {
        BinlogFault::Checksum { at, .. } => sum_fault(at),
        _ => fault,
    }
}

#[test]
fn each_event_shows_its_fields(rt: HostRuntime) -> Result<(), Fail> {
    let alloc = rt.alloc();
    let log = rotated_log(alloc)?;
    let ring = small_ring(alloc)?;
    let (rows, end) = read_log(alloc, &log, &ring, 0)?;
    let (format, first, second) = (description(), first_start(), second_start());
    let table: [(u8, u16, u64, Option<u32>, &[u8]); 5] = [
        (15, 1, 4, None, &format),
        (164, 0, 249, None, &first),
        (3, 0, 289, Some(1), &[]),
        (164, 0, 312, Some(1), &second),
        (2, 0, 352, Some(2), b"query"),
    ];
    assert!(rt; end.is_ok());
    assert!(rt; rows.len() == 5);
    for (row, (kind, flags, place, key, body)) in rows.iter().zip(table) {
        assert!(rt; row.kind == kind && row.flags == flags && row.place == place);
        assert!(rt; row.key == key && *row.body == *body);
    }
    Ok(())
}

#[test]
fn each_front_of_a_log_reads_to_its_end(rt: HostRuntime) -> Result<(), Fail> {
    let alloc = rt.alloc();
    let log = small_log(alloc)?;
    let ring = small_ring(alloc)?;
    for n in 0..313 {
        let front = log.get(..n).ok_or("a front")?;
        assert!(rt; count_events(alloc, front, &ring)? == end_of_front(n));
    }
    let empty = Ring::new(alloc);
    let missing = BinlogFault::MissingKey { version: 1 };
    assert!(rt; count_events(alloc, &log, &empty)? == (2, Err(missing)));
    Ok(())
}

#[test]
fn each_damaged_byte_is_found(rt: HostRuntime) -> Result<(), Fail> {
    let alloc = rt.alloc();
    let log = small_log(alloc)?;
    let ring = small_ring(alloc)?;
    for place in 0..312 {
        let mut damaged = Vec::from_slice(alloc, &log)?;
        if let Some(byte) = damaged.get_mut(place) {
            *byte = !*byte;
        }
        let (count, end) = count_events(alloc, &damaged, &ring)?;
        let wanted = (event_of(place).0, Err(damage_at(place)));
        assert!(rt; (count, end.map_err(without_sums)) == wanted);
    }
    Ok(())
}

#[test]
fn a_first_byte_00_is_no_log(rt: HostRuntime) -> Result<(), Fail> {
    let alloc = rt.alloc();
    let mut log = small_log(alloc)?;
    if let Some(byte) = log.get_mut(0) {
        *byte = 0;
    }
    let ring = small_ring(alloc)?;
    assert!(rt; count_events(alloc, &log, &ring)? == (0, Err(BinlogFault::BadMagic)));
    Ok(())
}

// A format description at 4, events of 60,000 and 70,000 bytes at 249 and 60249, a stop at 130249.
fn long_log(alloc: Global) -> Result<Vec<u8>, AllocError> {
    let mut log = small_log(alloc)?;
    log.truncate(249);
    for length in [59_977usize, 69_977] {
        let body = vec![in alloc; 7u8; length]?;
        push_event(alloc, &mut log, 2, &body, None, &NONCE)?;
    }
    push_event(alloc, &mut log, 3, &[], None, &NONCE)?;
    Ok(log)
}

#[test]
fn a_reader_goes_on_after_a_fault(rt: HostRuntime) -> Result<(), Fail> {
    let alloc = rt.alloc();
    let log = long_log(alloc)?;
    let ring = Ring::new(alloc);
    for failing in 1..6 {
        let (rows, end) = read_log(alloc, &log, &ring, failing)?;
        assert!(rt; end.is_ok() && rows.len() == 4, "{failing}");
        let table = [(4, 222), (249, 59_977), (60_249, 69_977), (130_249, 0)];
        for (row, (place, length)) in rows.iter().zip(table) {
            assert!(rt; row.place == place && row.body.len() == length, "{failing}");
        }
    }
    Ok(())
}
