// The checksums' measurements.
use crate::figure::Figure;
use crate::{by_eight, by_one};
use anyhow::{Result, bail};
use std::alloc::{AllocError, Global};
use std::io::Print;
use std::time::{Clock, Instant};

/// 64 MiB.
const SIZE: usize = 64 * 1024 * 1024;

// Bytes with no short period.
fn text(alloc: Global) -> Result<Vec<u8>, AllocError> {
    let mut text = vec![in alloc; 0u8; SIZE]?;
    let mut seed = 0x1234_5678u32;
    for byte in text.iter_mut() {
        seed = seed.wrapping_mul(1_103_515_245).wrapping_add(12_345);
        *byte = (seed >> 24) as u8;
    }
    Ok(text)
}

fn in_lanes(rt: &(impl Print + Clock), text: &[u8]) -> Result<u32> {
    let first = bytes_core::crc32c(text);
    let start = Instant::now(rt)?;
    let sum = bytes_core::crc32c(text);
    let figure = Figure {
        name: "crc32c in three lanes",
        bytes: text.len(),
        time: start.elapsed(rt)?,
    };
    println!(rt; "{figure}")?;
    if first != sum {
        bail!("crc32c of one text is {first:08x} and {sum:08x}");
    }
    Ok(sum)
}

fn by_eight(rt: &(impl Print + Clock), text: &[u8]) -> Result<u32> {
    let first = by_eight::crc32c(text);
    let start = Instant::now(rt)?;
    let sum = by_eight::crc32c(text);
    let figure = Figure {
        name: "crc32c by eight in one stream",
        bytes: text.len(),
        time: start.elapsed(rt)?,
    };
    println!(rt; "{figure}")?;
    if first != sum {
        bail!("crc32c of one text is {first:08x} and {sum:08x}");
    }
    Ok(sum)
}

fn by_one(rt: &(impl Print + Clock), text: &[u8]) -> Result<u32> {
    let first = by_one::crc32c(text);
    let start = Instant::now(rt)?;
    let sum = by_one::crc32c(text);
    let figure = Figure {
        name: "crc32c by one",
        bytes: text.len(),
        time: start.elapsed(rt)?,
    };
    println!(rt; "{figure}")?;
    if first != sum {
        bail!("crc32c of one text is {first:08x} and {sum:08x}");
    }
    Ok(sum)
}

/// Times CRC-32C in three lanes of eight bytes at a time, by eight bytes in one stream and by one byte
/// at a time, on one text of 64 MiB, each in a second pass over it. It fails where they differ.
pub fn measure(alloc: Global, rt: &(impl Print + Clock)) -> Result<()> {
    let text = text(alloc)?;
    let lanes = in_lanes(rt, text.as_slice())?;
    let eight = by_eight(rt, text.as_slice())?;
    let one = by_one(rt, text.as_slice())?;
    if lanes != eight || lanes != one {
        bail!("crc32c is {lanes:08x} in lanes, {eight:08x} by eight and {one:08x} by one");
    }
    println!(rt; "each way crc32c is {lanes:08x}")?;
    Ok(())
}
