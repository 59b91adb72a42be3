// The measurements of the redo log, and of cipher and checksum alone on the same blocks.
ghost use Rattle.std.specs.Prelude.{◌≡◌, ◌+◌, ◌*◌, ◌<◌, ◌≤◌, IfOk, OnOk, length, false};
ghost use Rattle.disk_model.specs.Event.{is_there};
ghost use Rattle.disk_model.specs.Past.{At};
ghost use Rattle.disk_model.specs.declared.names.FileName.TheVariants.{Log as LogFile};
ghost use Rattle.places.specs.Places.{HasFile};
ghost use Rattle.redo_text.specs.Block.{block_count};
ghost use Rattle.redo_text.specs.Text.{text_of, AreAllowed};
ghost use Rattle.crash_image.specs.LogForm.{log_places};
ghost use Rattle.store_image.specs.View.{most_mtr_blocks};

use crate::figure::timed;
use aes_core::{Algorithm, BlockKey, cbc_tail_encrypt, ctr_apply};
use anyhow::{Result, bail};
use bytes_core::crc32c;
use disk_model::{Disk, FileName, MemDisk};
use page_places::PAGE_BODY_AT;
use redo_log::{BLOCK, BLOCK_BYTES, Log, scan};
use redo_text::{Change, Mtr, Piece, RedoKey, encode};
use std::alloc::{AllocError, Global};
use std::io::Print;
use std::time::Clock;
use store_files::FRONT_BLOCKS;

const LOCAL: [u8; 16] = [3; 16];

const IV: [u8; 16] = [9; 16];

/// A mini-transaction of four blocks has a text of 4 * 4076 bytes: 17 of its one change, and these.
const PUT: usize = 16287;

/// As many mini-transactions of four blocks as come to 64 MiB.
const MTRS: u64 = 4096;

const BYTES: usize = 64 * 1024 * 1024;

/// Where the ciphered bytes of a block begin, and where its checksum stands behind them.
const BODY_AT: usize = 16;

const SUM_AT: usize = store_files::BLOCK_SUM_AT;

/// The ring that is scanned, and how many mini-transactions of four blocks fill it.
const RING_BLOCKS: u64 = 4096;

const RING_MTRS: u64 = 1024;

const RING_BYTES: usize = RING_BLOCKS as usize * BLOCK;

fn bytes_of(alloc: Global, n: usize) -> Result<Vec<u8>, AllocError>
    ensures { IfOk result (λ v. length v.items ≡ n) }
{
    vec![in alloc; 5u8; n]
}

// A mini-transaction of one put.
fn mtr_of(alloc: Global) -> Result<Mtr, AllocError>
    ensures some { IfOk result (λ m. length m ≡ 1) }
    ensures allowed { IfOk result (λ m. AreAllowed m) }
    ensures few { IfOk result (λ m. block_count (text_of m) ≤ most_mtr_blocks) }
{
    let bytes = Piece::of(bytes_of(alloc, PUT)?);
    let mut changes = Vec::new(alloc);
    let Ok(()) = changes.push(Change::Put {
        space: 5,
        page: 1,
        at: PAGE_BODY_AT as u32,
        bytes,
    }) else {
        return Err(AllocError);
    };
    Ok(Mtr::of(changes))
}

fn key_of(algorithm: Algorithm) -> RedoKey
    ensures { 1 ≤ result.version }
{
    RedoKey {
        version: 1,
        local: LOCAL,
        algorithm,
    }
}

// The blocks of each mini-transaction, whose lengths are summed up.
fn encode_all(alloc: Global, mtr: &Mtr, key: &RedoKey) -> Result<usize>
    requires some { 0 < length mtr.now }
    requires allowed { AreAllowed mtr.now }
    requires few { block_count (text_of mtr.now) ≤ most_mtr_blocks }
    requires version { 1 ≤ key.now.version }
{
    let mut total = 0usize;
    for i in 0..MTRS {
        let blocks = encode(alloc, mtr, 2 + 4 * i, key)?;
        total = total.saturating_add(blocks.len());
    }
    Ok(total)
}

// Cipher and checksum of as many blocks.
fn cipher_all(key: &BlockKey, algorithm: Algorithm, block: &mut [u8; BLOCK]) -> u32 {
    let mut sums = 0u32;
    for _ in 0..4 * MTRS {
        match algorithm {
            Algorithm::Cbc => cbc_tail_encrypt(key, &IV, &mut block[BODY_AT..SUM_AT]),
            Algorithm::Ctr => ctr_apply(key, &IV, &mut block[BODY_AT..SUM_AT]),
        }
        sums = sums.wrapping_add(crc32c(&block[..SUM_AT]));
    }
    sums
}

fn measure_blocks(
    alloc: Global,
    rt: &(impl Print + Clock),
    algorithm: Algorithm,
    name: &str,
    alone: &str,
) -> Result<()> {
    let mtr = mtr_of(alloc)?;
    let key = key_of(algorithm);
    let Some(block_key) = BlockKey::new(&LOCAL) else {
        bail!("a key of 16 bytes is refused");
    };
    let total = timed!(rt, name, BYTES, encode_all(alloc, &mtr, &key)?);
    if total != BYTES {
        bail!("the blocks are {total} bytes");
    }
    let mut block = [5; BLOCK];
    let sums = timed!(
        rt,
        alone,
        BYTES,
        cipher_all(&block_key, algorithm, &mut block)
    );
    println!(rt; "sum of the checksums: {sums}")?;
    Ok(())
}

// A log whose ring is full.
fn fill_log<D: Disk>(alloc: Global, disk: &mut D) -> Result<()>
    requires { At (HasFile LogFile (log_places 4096)) (D.past disk.old) }
    ensures { At (HasFile LogFile (log_places 4096)) (D.past disk.new) }
{
    let mtr = mtr_of(alloc)?;
    let mut log = Log::new(alloc, RING_BLOCKS, 2, 1)?;
    append_all(alloc, &mut log, &mtr)?;
    let Ok(()) = log.write_out(disk) else {
        bail!("the log is not written out");
    };
    Ok(())
}

fn append_all(alloc: Global, log: &mut Log, mtr: &Mtr) -> Result<()>
    requires some { 0 < length mtr.now }
    requires many { length mtr.now ≤ 65536 }
    requires allowed { AreAllowed mtr.now }
    requires few { block_count (text_of mtr.now) ≤ most_mtr_blocks }
    requires ring { log.old.blocks ≡ 4096 }
    ensures ring { log.new.blocks ≡ 4096 }
{
    for _ in 0..RING_MTRS {
        log.append(alloc, mtr, &key_of(Algorithm::Ctr))?;
    }
    Ok(())
}

fn made_log<D: Disk>(disk: &mut D) -> Result<()>
    requires { At (λ es. is_there LogFile es ≡ false) (D.past disk.old) }
    ensures { OnOk result (At (HasFile LogFile (log_places 4096)) (D.past disk.new)) }
{
    let Ok(()) = disk.make(
        FileName::Log,
        (FRONT_BLOCKS as u64 + RING_BLOCKS) * BLOCK_BYTES,
    ) else {
        bail!("the log is not made");
    };
    Ok(())
}

fn measure_scan(alloc: Global, rt: &(impl Print + Clock)) -> Result<()> {
    let mut disk = MemDisk::new(alloc, Vec::new(alloc));
    made_log(&mut disk)?;
    fill_log(alloc, &mut disk)?;
    let Ok(run) = timed!(
        rt,
        "scan of 4096 log blocks",
        RING_BYTES,
        scan(alloc, &mut disk, RING_BLOCKS, 2)
    ) else {
        bail!("the log is not read");
    };
    if run.last != 4097 || run.versions.len() != 1 {
        bail!("the run ends with block {}", run.last);
    }
    Ok(())
}

/// Times the blocks of 4096 mini-transactions of four blocks each under AES_CBC and AES_CTR, and beside
/// each, on as many blocks, what of it is cipher and checksum: the cipher of bytes 16 to 4092, and
/// CRC-32C of the first 4092. Then it times a scan of a full ring of 4096 blocks on a memory disk. It
/// fails where the blocks or the run have another length.
pub fn measure(alloc: Global, rt: &(impl Print + Clock)) -> Result<()> {
    measure_blocks(
        alloc,
        rt,
        Algorithm::Cbc,
        "log blocks under AES_CBC, encode",
        "cipher and checksum alone, CBC",
    )?;
    measure_blocks(
        alloc,
        rt,
        Algorithm::Ctr,
        "log blocks under AES_CTR, encode",
        "cipher and checksum alone, CTR",
    )?;
    measure_scan(alloc, rt)
}
