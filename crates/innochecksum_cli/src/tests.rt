use crate::{CheckStatus, end_with, innochecksum, read_words};
use bytes_core::crc32c;
use io_core::{ByteSink, Shelf};
use space_head::HeadFault;
use std::alloc::{AllocError, Global};
use std::test::Fail;

// Appends a page with a right checksum.
fn push_page(
    file: &mut Vec<u8>,
    alloc: Global,
    size: usize,
    version: u32,
    kind: u16,
    flags: u32,
) -> Result<(), AllocError> {
    let start = file.len();
    file.extend_from_slice(&version.to_be_bytes())?;
    file.extend_from_slice(&[7; 20])?;
    file.extend_from_slice(&kind.to_be_bytes())?;
    file.extend_from_slice(&[9; 28])?;
    file.extend_from_slice(&flags.to_be_bytes())?;
    let body = vec![in alloc; 3u8; size.saturating_sub(62)]?;
    file.extend_from_slice(&body)?;
    let sum = crc32c(file.get(start..).unwrap_or(&[]));
    file.extend_from_slice(&sum.to_be_bytes())
}

// Pages of 16384 bytes of types 8, 5, 3, 17855, 17855, zero and 10, all but page 0 and the zero page
// ciphered.
fn seven_pages(alloc: Global) -> Result<Vec<u8>, AllocError> {
    let mut file = Vec::new(alloc);
    push_page(&mut file, alloc, 16384, 0, 8, 0x15)?;
    for kind in [5u16, 3, 17855, 17855] {
        push_page(&mut file, alloc, 16384, 1, kind, 0)?;
    }
    let zero = vec![in alloc; 0u8; 16384]?;
    file.extend_from_slice(&zero)?;
    push_page(&mut file, alloc, 16384, 2, 10, 0)?;
    Ok(file)
}

// The same with byte 100 of page 4 inverted, and that page's line.
fn damaged_pages(alloc: Global) -> Result<(Vec<u8>, String), Fail> {
    let mut file = seven_pages(alloc)?;
    if let Some(byte) = file.get_mut(4 * 16384 + 100) {
        *byte = !*byte;
    }
    let page = file.get(4 * 16384..5 * 16384).ok_or("page 4")?;
    let (front, sum) = page.split_at_checked(16380).ok_or("a page")?;
    let (a, b, c, d) = match sum {
        [a, b, c, d] => (*a, *b, *c, *d),
        _ => return Err(Fail::from("a sum")),
    };
    let stored = u32::from_be_bytes([a, b, c, d]);
    let computed = crc32c(front);
    let line = format!(in alloc; "page 4 stored {stored:08x} computed {computed:08x}\n")?;
    Ok((file, line))
}

// Runs the tool over the file `t.ibd`; these calls of the library and of the sink fail.
fn run(
    alloc: Global,
    file: &[u8],
    words: &str,
    failing: [u64; 2],
) -> Result<(CheckStatus, Vec<u8>), AllocError> {
    let mut files = Vec::new(alloc);
    let name = String::from_str(alloc, "t.ibd")?;
    let bytes = Vec::from_slice(alloc, file)?;
    files.push((name, bytes)).map_err(AllocError::from)?;
    let mut shelf = Shelf::new(files, vec![in alloc; failing[0]]?);
    let mut out = ByteSink::new(alloc, vec![in alloc; failing[1]]?);
    let mut list = Vec::new(alloc);
    for word in words.split_whitespace() {
        let word = String::from_str(alloc, word)?;
        list.push(word).map_err(AllocError::from)?;
    }
    let status = innochecksum(alloc, &list, &mut shelf, &mut out);
    Ok((status, Vec::from_slice(alloc, out.bytes())?))
}

#[test]
fn seven_pages_one_of_which_is_damaged(rt: HostRuntime) -> Result<(), Fail> {
    let alloc = rt.alloc();
    let (file, line) = damaged_pages(alloc)?;
    let stopped = "stopped mismatches 1 allowed 0\n";
    let summary = "type 3 inode 1\ntype 5 ibuf_bitmap 1\ntype 8 fsp_hdr 1\ntype 10 blob 1\n\
        type 17855 index 2\nunused 1\nciphered 5\nchecked 7 mismatches 1\n";
    let table = [
        ("-a 0 t.ibd", CheckStatus::Mismatch, true, stopped),
        ("t.ibd -a 1 -S", CheckStatus::Done, true, summary),
        ("-c t.ibd", CheckStatus::Done, false, "pages 7\n"),
        ("-p 4 t.ibd", CheckStatus::Mismatch, true, stopped),
        ("-s 4 -e 4 t.ibd", CheckStatus::Mismatch, true, stopped),
        (
            "-p 3 -e 1 t.ibd",
            CheckStatus::Done,
            false,
            "checked 1 mismatches 0\n",
        ),
        (
            "-s 5 -e 3 t.ibd",
            CheckStatus::Done,
            false,
            "checked 0 mismatches 0\n",
        ),
        (
            "-s 5 --end-page=6 t.ibd",
            CheckStatus::Done,
            false,
            "checked 2 mismatches 0\n",
        ),
        (
            "-p 5 -S t.ibd",
            CheckStatus::Done,
            false,
            "unused 1\nciphered 0\nchecked 1 mismatches 0\n",
        ),
        (
            "-p 7 t.ibd",
            CheckStatus::Done,
            false,
            "checked 0 mismatches 0\n",
        ),
        ("-p x t.ibd", CheckStatus::Usage, false, ""),
        (
            "-p 18446744073709551616 t.ibd",
            CheckStatus::Usage,
            false,
            "",
        ),
        ("-c", CheckStatus::Usage, false, ""),
        ("--help", CheckStatus::Usage, false, ""),
        ("none.ibd", CheckStatus::Missing, false, ""),
    ];
    for (words, want, is_met, rest) in table {
        let (status, text) = run(alloc, &file, words, [0, 0])?;
        let met = if is_met { line.as_str() } else { "" };
        let whole = format!(in alloc; "{met}{rest}")?;
        assert_eq!(rt; status, want, "{words}");
        assert_eq!(rt; text.as_slice(), whole.as_bytes(), "{words}");
    }
    Ok(())
}

#[test]
fn files_that_are_cut_or_refused(rt: HostRuntime) -> Result<(), Fail> {
    let alloc = rt.alloc();
    let mut file = seven_pages(alloc)?;
    file.truncate(6 * 16384 + 100);
    let truncated = "checked 6 mismatches 0\ntruncated page 6 bytes 100\n";
    let table = [
        ("t.ibd", CheckStatus::Truncated, truncated),
        ("-e 5 t.ibd", CheckStatus::Done, "checked 6 mismatches 0\n"),
        ("-s 7 t.ibd", CheckStatus::Done, "checked 0 mismatches 0\n"),
        ("-c t.ibd", CheckStatus::Done, "pages 6\n"),
    ];
    for (words, want, text) in table {
        let got = run(alloc, &file, words, [0, 0])?;
        assert_eq!(rt; got.0, want, "{words}");
        assert_eq!(rt; got.1.as_slice(), text.as_bytes(), "{words}");
    }
    let three = "checked 3 mismatches 0\n";
    let sizes = [
        (4096, 0x13, 3 * 4096, "t.ibd", CheckStatus::Done, three),
        (4096, 0x15, 3 * 4096, "t.ibd", CheckStatus::Short(12288), ""),
        (4096, 0x13, 4095, "t.ibd", CheckStatus::Short(4095), ""),
        (16384, 0x15, 16383, "t.ibd", CheckStatus::Short(16383), ""),
        (
            16384,
            5,
            16384,
            "t.ibd",
            CheckStatus::Head(HeadFault::NoMarker(5)),
            "",
        ),
        (
            16384,
            0x55,
            16384,
            "t.ibd",
            CheckStatus::Head(HeadFault::FlagBits(85)),
            "",
        ),
        (
            65536,
            0x17,
            131_073,
            "-c t.ibd",
            CheckStatus::Done,
            "pages 2\n",
        ),
    ];
    for (size, flags, bytes, words, want, text) in sizes {
        let mut file = Vec::new(alloc);
        for _ in 0..3 {
            push_page(&mut file, alloc, size, 0, 8, flags)?;
        }
        file.truncate(bytes);
        let got = run(alloc, &file, words, [0, 0])?;
        assert_eq!(rt; got.0, want, "flags {flags:x} of {bytes} bytes");
        assert_eq!(rt;
            got.1.as_slice(),
            text.as_bytes(),
            "flags {flags:x} of {bytes} bytes"
        );
    }
    Ok(())
}

#[test]
fn each_call_of_the_outside_fails_in_turn(rt: HostRuntime) -> Result<(), Fail> {
    let alloc = rt.alloc();
    let (file, line) = damaged_pages(alloc)?;
    let whole = format!(in alloc; "{line}checked 7 mismatches 1\n")?;
    for call in 1..10u64 {
        let (status, text) = run(alloc, &file, "-a 1 t.ibd", [call, 0])?;
        let want = if call > 7 { line.as_bytes() } else { b"" };
        assert_eq!(rt; status, CheckStatus::FileFault, "call {call}");
        assert_eq!(rt; text.as_slice(), want, "call {call}");
    }
    let gives = [
        (1, CheckStatus::OutFault, ""),
        (2, CheckStatus::OutFault, line.as_str()),
        (3, CheckStatus::Done, whole.as_str()),
    ];
    for (call, want, text) in gives {
        let got = run(alloc, &file, "-a 1 t.ibd", [0, call])?;
        assert_eq!(rt; got.0, want, "give {call}");
        assert_eq!(rt; got.1.as_slice(), text.as_bytes(), "give {call}");
    }
    Ok(())
}

#[test]
fn a_status_has_its_number_and_line(rt: HostRuntime) -> Result<(), Fail> {
    let alloc = rt.alloc();
    let table = [
        (CheckStatus::Done, 0, ""),
        (CheckStatus::Mismatch, 1, "innochecksum: mismatch t.ibd\n"),
        (CheckStatus::Truncated, 1, "innochecksum: truncated t.ibd\n"),
        (CheckStatus::Short(12288), 1, "innochecksum: short 12288\n"),
        (
            CheckStatus::Head(HeadFault::NoMarker(5)),
            1,
            "innochecksum: head NoMarker 5\n",
        ),
        (CheckStatus::Usage, 2, "innochecksum: usage\n"),
        (CheckStatus::Missing, 3, "innochecksum: missing t.ibd\n"),
        (
            CheckStatus::FileFault,
            7,
            "innochecksum: file fault t.ibd\n",
        ),
        (CheckStatus::OutFault, 7, "innochecksum: output fault\n"),
        (CheckStatus::OutOfMemory, 8, "innochecksum: out of memory\n"),
    ];
    for (status, number, line) in table {
        let ended = end_with(alloc, status, "t.ibd")?;
        assert_eq!(rt; ended.number, number, "{status:?}");
        assert_eq!(rt; ended.line.as_str(), line, "{status:?}");
    }
    let words = vec![in alloc; String::from_str(alloc, "--version")?]?;
    let text = match read_words(alloc, &words) {
        Ok(_) => String::new(alloc),
        Err(e) => format!(in alloc; "{e}")?,
    };
    assert_eq!(rt; text.as_str(), "innochecksum 1.0.0\n");
    Ok(())
}
