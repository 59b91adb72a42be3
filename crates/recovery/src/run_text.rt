// The text of the blocks of a run.
ghost use Rattle.std.specs.Prelude.{◌≡◌, ◌+◌, ◌*◌, ◌<◌, ◌≤◌, ◌++◌, true, false, length, take, List, ◌%◌, ◌^◌, IfOk, IfErr, IfSome, IfNone, IsErrOf, OnOk};
ghost use Rattle.aes_core.specs.Algorithm.{deciphered};
ghost use Rattle.byte_list.specs.Bytes.{AreBytes};
ghost use Rattle.cause_core.specs.Cause.{HasCauseOf};
ghost use Rattle.crash_image.specs.LogForm.{log_places};
ghost use Rattle.disk_model.specs.Event.{reads};
ghost use Rattle.disk_model.specs.Past.{At};
ghost use Rattle.disk_model.specs.declared.names.FileName.TheVariants.{Log};
ghost use Rattle.doublewrite.specs.Refuse.{IsDiskRefuse};
ghost use Rattle.doublewrite.specs.declared.refuse.OpenRefuse.TheVariants.{DiskFault, OutOfMemory};
ghost use Rattle.key_ring.specs.Ring.{RingEntry};
ghost use Rattle.places.specs.Places.{HasFile};
ghost use Rattle.redo_text.specs.Block.{log_iv};
ghost use Rattle.redo_text.specs.Reading.{block_version, used_of};
ghost use Rattle.store_files.specs.Header.{HeldHeader};
ghost use Rattle.store_files.specs.RingBlock.{ends_mtr, is_ring_block};
ghost use Rattle.store_files.specs.Run.{block_at};
ghost use Rattle.store_form.specs.Said.{header_said};
ghost use Rattle.store_image.specs.View.{block_bytes};
ghost use Rattle.recovery.specs.RunText.{AddsText, IsBlockRefusal};

use crate::layout::{BLOCK_BYTES, FRONT_BLOCKS, LOG_KEY};
use crate::reading::read;
use aes_core::{Algorithm, BlockKey};
use byte_list::fields::be32_at;
use bytes_core::crc32c;
use disk_model::{Disk, FileName};
use doublewrite::OpenRefuse;
use key_ring::Ring;
use redo_text::read_block;
use std::alloc::AllocError;
use store_form::Header;

// Where the body of a block begins, and where it ends.
const BODY_AT: usize = 16;

const SUM_AT: usize = 4092;

// The place of a number's block in the log's file, in bytes.
fn byte_of(blocks: u64, number: u64) -> u64
    requires some { 0 < blocks }
    requires most { blocks ≤ 4096 }
    ensures { result ≡ (3 + number % blocks) * block_bytes }
{
    (FRONT_BLOCKS + number % blocks) * BLOCK_BYTES
}

// Reads the block at the place of a number.
pub(crate) fn read_number<D: Disk>(
    disk: &mut D,
    blocks: u64,
    number: u64,
    block: &mut [u8],
) -> Result<(), OpenRefuse>
    requires some { 0 < blocks }
    requires most { blocks ≤ 4096 }
    requires long { length block.old ≡ block_bytes }
    requires log { At (HasFile Log (log_places blocks)) (D.past disk.old) }
    ensures bytes { OnOk result (At (λ es. block.new ≡ block_at blocks (reads Log es) number) (D.past disk.old)) }
    ensures long { length block.new ≡ block_bytes }
    ensures refused { IfErr result IsDiskRefuse }
    ensures same { D.past disk.new ≡ D.past disk.old }
    ensures later { D.is_later disk.old disk.new }
    ensures calls { D.clock disk.new ≤ D.clock disk.old + 1 }
    ensures cause { HasCauseOf DiskFault (D.faults disk.old) (D.faults disk.new) result }
    ensures memory { HasCauseOf OutOfMemory (D.memory_refusals disk.old) (D.memory_refusals disk.new) result }
    ensures no_fault { (IsErrOf result DiskFault → ⊥) → D.faults disk.new ≡ D.faults disk.old }
    ensures no_refusal { OnOk result (D.memory_refusals disk.new ≡ D.memory_refusals disk.old) }
{
    read(disk, FileName::Log, byte_of(blocks, number), block)
}

// What a ring block says of its text.
#[derive(Clone, Copy)]
struct TextHead {
    version: u32,
    used: usize,
    last: bool,
}

// Each element of a block is a byte.
#[inline(always)]
fn known_bytes(block: &[u8])
    ensures { AreBytes block.now }
{
    let _ = block.len();
}

// What the block says, where it is a valid one of this number.
fn head_of(block: &[u8], number: u64) -> Option<TextHead>
    requires { length block.now ≡ block_bytes }
    ensures valid { IfSome result (λ head. is_ring_block number block.now ≡ true) }
    ensures version { IfSome result (λ head. head.version ≡ block_version block.now) }
    ensures used { IfSome result (λ head. head.used ≡ used_of block.now) }
    ensures last { IfSome result (λ head. head.last ≡ ends_mtr block.now) }
    ensures none { IfNone result (is_ring_block number block.now ≡ false) }
{
    known_bytes(block);
    match read_block(block, number) {
        Ok(view) => Some(TextHead {
            version: view.version(),
            used: usize::from(view.used()),
            last: view.last(),
        }),
        Err(_fault) => None,
    }
}

// The IV of a block, or its first counter.
#[tactic(auto, unfolding(redo_text::specs::Block::log_iv))]
fn log_iv(number: u64) -> [u8; 16]
    ensures { result ≡ log_iv number }
{
    let n = number.to_le_bytes();
    [
        0xf0, 0xff, 0xff, 0xff, 0, 0, 0, 0, n[0], n[1], n[2], n[3], n[4], n[5], n[6], n[7],
    ]
}

// Deciphers the body of the block of this number.
fn decipher(body: &mut [u8], algorithm: Algorithm, local: &[u8; 16], number: u64)
    ensures { body.new ≡ deciphered algorithm local.now (log_iv number) body.old }
{
    if let Some(key) = BlockKey::new(local) {
        algorithm.decrypt(&key, &log_iv(number), body);
    } else {
        unreachable!()
    }
}

// The first bytes, or all where there are fewer.
fn first_bytes(bytes: &[u8], count: usize) -> &[u8]
    ensures { result.now ≡ take count bytes.now }
{
    &bytes[..count.min(bytes.len())]
}

// Deciphers the body of the block of this number in place, and appends its first bytes.
fn append_body(
    algorithm: Algorithm,
    local: &[u8; 16],
    number: u64,
    used: usize,
    body: &mut [u8],
    text: &mut Vec<u8>,
) -> Result<(), AllocError>
    ensures { OnOk result (text.new.items ≡ text.old.items ++ take used (deciphered algorithm local.now (log_iv number) body.old)) }
{
    decipher(body, algorithm, local, number);
    text.extend_from_slice(first_bytes(body, used))
}

// The refusal of a block that isn't valid.
fn damaged(block: &[u8], blocks: u64, number: u64) -> OpenRefuse
    requires some { 0 < blocks }
    requires most { blocks ≤ 4096 }
    requires long { length block.now ≡ block_bytes }
    ensures { (h : HeldHeader) (k : List RingEntry) → is_ring_block number block.now ≡ false → IsBlockRefusal h k number block.now result }
{
    let end = block.len() - 4;
    OpenRefuse::Damaged {
        file: FileName::Log,
        at: byte_of(blocks, number),
        stored: be32_at(block, end),
        computed: crc32c(&block[..end]),
    }
}

// Appends the text of a block under its key. It tells whether the block is the last of its
// mini-transaction. The block is left in clear.
pub(crate) fn add_text(
    ring: &Ring,
    header: &Header,
    number: u64,
    block: &mut [u8],
    text: &mut Vec<u8>,
) -> Result<bool, OpenRefuse>
    requires some { 0 < header.now.blocks }
    requires most { header.now.blocks ≤ 4096 }
    requires long { length block.old ≡ block_bytes }
    ensures text { OnOk result (AddsText (header_said header.now) ring.now block.old text.old.items text.new.items) }
    ensures last { IfOk result (λ last. last ≡ ends_mtr block.old) }
    ensures long { length block.new ≡ block_bytes }
    ensures refused { IfErr result (IsBlockRefusal (header_said header.now) ring.now number block.old) }
{
    let Some(head) = head_of(block, number) else {
        return Err(damaged(block, header.blocks, number));
    };
    let Some(local) = ring.local(LOG_KEY, head.version, &header.salt) else {
        return Err(OpenRefuse::MissingKey {
            id: LOG_KEY,
            version: head.version,
        });
    };
    let body = &mut block[BODY_AT..SUM_AT];
    let Ok(()) = append_body(header.algorithm, &local, number, head.used, body, text) else {
        return Err(OpenRefuse::OutOfMemory);
    };
    Ok(head.last)
}

// The LSN of a mini-transaction, by the number of its last block.
pub(crate) fn lsn_of(last: u64) -> u64
    ensures { last + 1 ≤ 2 ^ 51 → result ≡ (last + 1) * block_bytes }
{
    last.saturating_add(1).saturating_mul(BLOCK_BYTES)
}
