// A small ciphered log: its listing, what damage to it and other words give, and each call of the outside
// failing in turn.

use crate::{ListOutcome, ListStatus, NamingLibrary, binlog, end_with, list_binlog, read_words};
use aes_core::BlockKey;
use binlog_text::{BinlogFault, encipher_event};
use bytes_core::crc32;
use io_core::{ByteSink, Shelf};
use key_file::{KeyFault, LoadFault};
use std::alloc::{AllocError, Global};
use std::test::Fail;

const KEYS: &[u8] = b"1;000102030405060708090a0b0c0d0e0f\n";

const KEY_ONE: [u8; 16] = [0, 1, 2, 3, 4, 5, 6, 7, 8, 9, 10, 11, 12, 13, 14, 15];

const NONCE: [u8; 12] = [0, 1, 2, 3, 4, 5, 6, 7, 8, 9, 10, 11];

const FIRST: &str = "4 format_description time 0 server 1 length 245 next 249 flags 0 clear\n";

const TWO: &str =
    "4 format_description time 0 server 1 length 245 next 249 flags 0 clear\n249 start_encryption time 0 server 1 length 40 next 289 flags 0 clear\n";

const WHOLE: &str =
    "4 format_description time 0 server 1 length 245 next 249 flags 0 clear\n249 start_encryption time 0 server 1 length 40 next 289 flags 0 clear\n289 stop time 0 server 1 length 23 next 312 flags 0 key 1\nend 312\n";

// Appends an event with a checksum, enciphered where there is a key.
fn push_event(
    alloc: Global,
    log: &mut Vec<u8>,
    kind: u8,
    body: &[u8],
    key: Option<&BlockKey>,
) -> Result<(), AllocError> {
    let length = (body.len() & 0xff_ffff) as u32 + 23;
    let place = (log.len() & 0xff_ffff) as u32;
    let mut event = Vec::new(alloc);
    event.extend_from_slice(&[0, 0, 0, 0, kind, 1, 0, 0, 0])?;
    event.extend_from_slice(&length.to_le_bytes())?;
    event.extend_from_slice(&(place + length).to_le_bytes())?;
    event.extend_from_slice(&[0, 0])?;
    event.extend_from_slice(body)?;
    let sum = crc32(&event);
    event.extend_from_slice(&sum.to_le_bytes())?;
    if let Some(key) = key {
        if event.len() >= 19 {
            encipher_event(key, &NONCE, place, &mut event);
        }
    }
    log.extend_from_slice(&event)
}

// A format description at 4, a start encryption at 249, a ciphered stop at 289; 312 bytes.
fn small_log(alloc: Global) -> Result<Vec<u8>, AllocError> {
    let mut description = [0u8; 222];
    description[0] = 4;
    description[56] = 19;
    description[221] = 1;
    let start = [1, 1, 0, 0, 0, 0, 1, 2, 3, 4, 5, 6, 7, 8, 9, 10, 11];
    let mut log = Vec::from_slice(alloc, &[0xfe, 0x62, 0x69, 0x6e])?;
    push_event(alloc, &mut log, 15, &description, None)?;
    push_event(alloc, &mut log, 164, &start, None)?;
    let key = BlockKey::new(&KEY_ONE);
    push_event(alloc, &mut log, 3, &[], key.as_ref())?;
    Ok(log)
}

// The words of a line.
fn words_of(alloc: Global, line: &str) -> Result<Vec<String>, AllocError> {
    let mut words = Vec::new(alloc);
    for word in line.split_whitespace() {
        let word = String::from_str(alloc, word)?;
        words.push(word).map_err(AllocError::from)?;
    }
    Ok(words)
}

// The files `log` and `keys1`.
fn shelf_of(alloc: Global, log: &[u8], failing: u64) -> Result<Shelf, AllocError> {
    let mut files = Vec::new(alloc);
    let name = String::from_str(alloc, "log")?;
    let bytes = Vec::from_slice(alloc, log)?;
    files.push((name, bytes)).map_err(AllocError::from)?;
    let name = String::from_str(alloc, "keys1")?;
    let bytes = Vec::from_slice(alloc, KEYS)?;
    files.push((name, bytes)).map_err(AllocError::from)?;
    Ok(Shelf::new(files, vec![in alloc; failing]?))
}

// Runs the tool over these; these calls of the library and of the sink fail. A status is told by its
// number and its line.
fn run(
    alloc: Global,
    log: &[u8],
    line: &str,
    failing: [u64; 2],
) -> Result<(u8, String, Vec<u8>), AllocError> {
    let words = words_of(alloc, line)?;
    let mut files = NamingLibrary::new(alloc, shelf_of(alloc, log, failing[0])?);
    let mut out = ByteSink::new(alloc, vec![in alloc; failing[1]]?);
    let outcome = list_binlog(alloc, &words, &mut files, &mut out);
    let ended = end_with(alloc, &outcome, "log", files.failed())?;
    Ok((
        ended.number,
        ended.line,
        Vec::from_slice(alloc, out.bytes())?,
    ))
}

#[test]
fn a_ciphered_log_is_listed(rt: HostRuntime) -> Result<(), Fail> {
    let alloc = rt.alloc();
    let log = small_log(alloc)?;
    let table = [
        ("--key-file keys1 log", 0, "", WHOLE),
        ("log --key-file=keys1 --digest sha256", 0, "", WHOLE),
        ("log", 1, "binlog: log at 289: MissingKey 1\n", TWO),
        ("none", 1, "binlog: missing log\n", ""),
        ("log --key-file none", 3, "binlog: missing none\n", ""),
        (
            "log --key-file log",
            3,
            "binlog: key file 0: NoDigits 1\n",
            "",
        ),
        ("log --digest md5", 2, "binlog: usage\n", ""),
        ("--hex", 2, "binlog: usage\n", ""),
        ("log other", 2, "binlog: usage\n", ""),
        ("--help", 2, "binlog: usage\n", ""),
    ];
    for (words, number, line, text) in table {
        let (ended, said, listed) = run(alloc, &log, words, [0, 0])?;
        assert_eq!(rt; ended, number, "{words}");
        assert_eq!(rt; said.as_str(), line, "{words}");
        assert_eq!(rt; listed.as_slice(), text.as_bytes(), "{words}");
    }
    Ok(())
}

// The small log cut, or with a byte inverted.
fn damaged_log(alloc: Global, length: usize, inverted: usize) -> Result<Vec<u8>, AllocError> {
    let mut log = small_log(alloc)?;
    log.truncate(length);
    if let Some(byte) = log.get_mut(inverted) {
        *byte = !*byte;
    }
    Ok(log)
}

// A format description, 1,500 events of 100 bytes, one of 100,000 and a stop, all in clear; 250,272 bytes.
fn long_log(alloc: Global) -> Result<Vec<u8>, AllocError> {
    let mut log = small_log(alloc)?;
    log.truncate(249);
    for _ in 0..1500 {
        push_event(alloc, &mut log, 2, &[7; 77], None)?;
    }
    let body = vec![in alloc; 7u8; 99_977]?;
    push_event(alloc, &mut log, 2, &body, None)?;
    push_event(alloc, &mut log, 3, &[], None)?;
    Ok(log)
}

// Its last lines.
const LAST: &[u8] =
    b"150249 query time 0 server 1 length 100000 next 250249 flags 0 clear\n250249 stop time 0 server 1 length 23 next 250272 flags 0 clear\nend 250272\n";

#[test]
fn a_log_of_many_pieces_is_listed(rt: HostRuntime) -> Result<(), Fail> {
    let alloc = rt.alloc();
    let log = long_log(alloc)?;
    let (ended, _, listed) = run(alloc, &log, "log", [0, 0])?;
    let text = listed.as_slice();
    assert_eq!(rt; ended, 0);
    assert_eq!(rt; text.iter().filter(|byte| **byte == b'\n').count(), 1504);
    assert!(rt; text.ends_with(LAST));
    for failing in [[3, 0], [0, 2]] {
        let (ended, _, front) = run(alloc, &log, "log", failing)?;
        assert_eq!(rt; ended, 7, "{failing:?}");
        assert!(rt; !front.is_empty());
        assert!(rt; text.starts_with(front.as_slice()));
    }
    Ok(())
}

#[test]
fn a_file_fault_stays_where_the_output_fails_too(rt: HostRuntime) -> Result<(), Fail> {
    let alloc = rt.alloc();
    let log = long_log(alloc)?;
    let (ended, said, listed) = run(alloc, &log, "log", [3, 1])?;
    assert_eq!(rt; ended, 7);
    assert!(rt;
        said.as_bytes()
            .starts_with(b"binlog: file fault in log at ")
    );
    assert!(rt; listed.is_empty());
    Ok(())
}

#[test]
fn a_damaged_log_is_listed_up_to_the_damage(rt: HostRuntime) -> Result<(), Fail> {
    let alloc = rt.alloc();
    let table = [
        (300, 999, "binlog: log at 289: ShortEvent 289 19 11\n", TWO),
        (
            260,
            999,
            "binlog: log at 249: ShortEvent 249 19 11\n",
            FIRST,
        ),
        (311, 999, "binlog: log at 289: ShortEvent 289 23 22\n", TWO),
        (312, 0, "binlog: log at 0: BadMagic\n", ""),
        (312, 8, "binlog: log at 4: NoFormat 240\n", ""),
        (312, 244, "binlog: log at 4: Algorithm 254\n", ""),
        (0, 999, "binlog: log at 0: BadMagic\n", ""),
    ];
    for (length, inverted, line, text) in table {
        let log = damaged_log(alloc, length, inverted)?;
        let (ended, said, listed) = run(alloc, &log, "log --key-file keys1", [0, 0])?;
        assert_eq!(rt; ended, 1, "{length} {inverted}");
        assert_eq!(rt; said.as_str(), line, "{length} {inverted}");
        assert_eq!(rt; listed.as_slice(), text.as_bytes(), "{length} {inverted}");
    }
    Ok(())
}

#[test]
fn a_log_with_no_event_gives_nothing(rt: HostRuntime) -> Result<(), Fail> {
    let alloc = rt.alloc();
    let log = damaged_log(alloc, 312, 8)?;
    let (ended, said, _) = run(alloc, &log, "log", [0, 1])?;
    assert_eq!(rt; ended, 1);
    assert_eq!(rt; said.as_str(), "binlog: log at 4: NoFormat 240\n");
    Ok(())
}

#[test]
fn the_last_byte_of_a_log_is_part_of_a_checksum(rt: HostRuntime) -> Result<(), Fail> {
    let alloc = rt.alloc();
    let words = words_of(alloc, "log --key-file keys1")?;
    let log = damaged_log(alloc, 312, 311)?;
    let mut shelf = shelf_of(alloc, &log, 0)?;
    let mut out = ByteSink::new(alloc, Vec::new(alloc));
    let status = binlog(alloc, &words, &mut shelf, &mut out);
    let at = match status {
        ListStatus::Log(BinlogFault::Checksum { at, .. }) => at,
        _ => 0,
    };
    assert_eq!(rt; at, 289);
    assert_eq!(rt; out.bytes(), TWO.as_bytes());
    Ok(())
}

#[test]
fn the_bytes_of_an_event_are_in_clear(rt: HostRuntime) -> Result<(), Fail> {
    let alloc = rt.alloc();
    let log = small_log(alloc)?;
    let (ended, _, listed) = run(alloc, &log, "--hex log --key-file keys1", [0, 0])?;
    let text = listed.as_slice();
    let stop = b"flags 0 key 1\n00000000030100000017000000380100000000";
    let behind = text
        .windows(stop.len())
        .position(|part| part == stop.as_slice());
    assert_eq!(rt; ended, 0);
    assert!(rt; behind.is_some());
    assert_eq!(rt; text.iter().filter(|byte| **byte == b'\n').count(), 7);
    Ok(())
}

#[test]
fn at_most_64_key_files_are_taken(rt: HostRuntime) -> Result<(), Fail> {
    let alloc = rt.alloc();
    let log = small_log(alloc)?;
    for (count, number) in [(0, 1), (1, 0), (64, 0), (65, 2)] {
        let mut line = String::from_str(alloc, "log")?;
        for _ in 0..count {
            line.push_str(" --key-file keys1")?;
        }
        let (ended, _, _) = run(alloc, &log, line.as_str(), [0, 0])?;
        assert_eq!(rt; ended, number, "{count}");
    }
    Ok(())
}

#[test]
fn each_call_of_the_outside_fails_in_turn(rt: HostRuntime) -> Result<(), Fail> {
    let alloc = rt.alloc();
    let log = small_log(alloc)?;
    let table = [
        ([1, 0], 7, "binlog: file fault in keys1\n", ""),
        ([2, 0], 7, "binlog: file fault in keys1\n", ""),
        ([3, 0], 7, "binlog: file fault in log at 4\n", ""),
        ([4, 0], 7, "binlog: file fault in log at 4\n", ""),
        ([5, 0], 0, "", WHOLE),
        ([0, 1], 7, "binlog: output fault at 312\n", ""),
        ([0, 2], 0, "", WHOLE),
    ];
    for (failing, number, line, text) in table {
        let (ended, said, listed) = run(alloc, &log, "log --key-file keys1", failing)?;
        assert_eq!(rt; ended, number, "{failing:?}");
        assert_eq!(rt; said.as_str(), line, "{failing:?}");
        assert_eq!(rt; listed.as_slice(), text.as_bytes(), "{failing:?}");
    }
    Ok(())
}

#[test]
fn a_status_has_its_number_and_line(rt: HostRuntime) -> Result<(), Fail> {
    let alloc = rt.alloc();
    let table = [
        (ListStatus::Done, Some(312), 0, ""),
        (
            ListStatus::Log(BinlogFault::BadLength { at: 4, length: 18 }),
            Some(4),
            1,
            "binlog: log at 4: BadLength 4 18\n",
        ),
        (
            ListStatus::Log(BinlogFault::Scheme(2)),
            Some(249),
            1,
            "binlog: log at 249: Scheme 2\n",
        ),
        (
            ListStatus::Key(LoadFault::KeyFile {
                index: 3,
                fault: KeyFault::KeyLength(2, 31),
            }),
            None,
            3,
            "binlog: key file 3: KeyLength 2 31\n",
        ),
        (
            ListStatus::FileFault,
            Some(4),
            7,
            "binlog: file fault in log at 4\n",
        ),
        (
            ListStatus::FileFault,
            None,
            7,
            "binlog: file fault in the key files\n",
        ),
        (
            ListStatus::OutFault,
            Some(4),
            7,
            "binlog: output fault at 4\n",
        ),
        (ListStatus::OutOfMemory, None, 8, "binlog: out of memory\n"),
    ];
    for (status, reached, number, line) in table {
        let outcome = ListOutcome { status, reached };
        let ended = end_with(alloc, &outcome, "log", None)?;
        assert_eq!(rt; ended.number, number);
        assert_eq!(rt; ended.line.as_str(), line);
    }
    Ok(())
}

#[test]
fn the_version_is_told(rt: HostRuntime) -> Result<(), Fail> {
    let alloc = rt.alloc();
    let words = words_of(alloc, "--version")?;
    let text = match read_words(alloc, &words) {
        Ok(_) => String::new(alloc),
        Err(e) => format!(in alloc; "{e}")?,
    };
    assert_eq!(rt; text.as_str(), "binlog 1.0.0\n");
    Ok(())
}
