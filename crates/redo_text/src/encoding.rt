// The text of a mini-transaction, and its blocks.
ghost use Rattle.std.specs.Prelude.{◌≡◌, ◌+◌, ◌*◌, ◌∷◌, ◌++◌, ◌<◌, ◌≤◌, ◌^◌, length, List, IfOk, OnOk};
ghost use Rattle.std.specs.Int.{to_be_bytes, w32};
ghost use Rattle.byte_list.specs.Bytes.{AreBytes};
ghost use Rattle.redo_text.specs.declared.change.Change.{Change};
ghost use Rattle.redo_text.specs.Block.{AreOf, block_count, blocks, nth_block, ring_block_size};
ghost use Rattle.redo_text.specs.Text.{change_text, text_of, IsAllowed, AreAllowed};

use crate::block::write_blocks;
use crate::changes::known_bytes;
use crate::layout::{BODY_BYTES, RING_BLOCK_BYTES};
use crate::{Change, Mtr, Piece, RedoKey};
use byte_list::zero_bytes;
use cause_core::OutOfMemory;
use std::alloc::{AllocError, Global};

fn push_page(text: &mut Vec<u8>, kind: u8, space: u32, page: u32) -> Result<(), AllocError>
    ensures { OnOk result (text.new.items ≡ text.old.items ++ (kind ∷ to_be_bytes w32 space ++ to_be_bytes w32 page)) }
{
    text.extend_from_slice(&[kind])?;
    text.extend_from_slice(&space.to_be_bytes())?;
    text.extend_from_slice(&page.to_be_bytes())
}

fn push_put(
    text: &mut Vec<u8>,
    space: u32,
    page: u32,
    at: u32,
    bytes: &Piece,
) -> Result<(), AllocError>
    requires { length bytes.now < 2 ^ 32 }
    ensures { OnOk result (text.new.items ≡ text.old.items ++ change_text (Change.Put space page at bytes.now)) }
{
    push_page(text, 1, space, page)?;
    text.extend_from_slice(&at.to_be_bytes())?;
    text.extend_from_slice(&(bytes.len() as u32).to_be_bytes())?;
    text.extend_from_slice(bytes.bytes())?;
    Ok(())
}

fn push_kind(text: &mut Vec<u8>, space: u32, page: u32, kind: u16) -> Result<(), AllocError>
    ensures { OnOk result (text.new.items ≡ text.old.items ++ change_text (Change.Kind space page kind)) }
{
    push_page(text, 2, space, page)?;
    text.extend_from_slice(&kind.to_be_bytes())?;
    Ok(())
}

// Adds the text of one change.
fn push_change(text: &mut Vec<u8>, change: &Change) -> Result<(), AllocError>
    requires { IsAllowed change.now }
    ensures { OnOk result (text.new.items ≡ text.old.items ++ change_text change.now) }
{
    match change {
        Change::Put {
            space,
            page,
            at,
            bytes,
        } => push_put(text, *space, *page, *at, bytes),
        Change::Kind { space, page, kind } => push_kind(text, *space, *page, *kind),
        Change::Touch { space, page } => push_page(text, 3, *space, *page),
        Change::Floor { space, version } => push_page(text, 4, *space, *version),
        Change::Encrypt { space } => {
            text.extend_from_slice(&[5])?;
            text.extend_from_slice(&space.to_be_bytes())
        }
    }
}

// The text of a mini-transaction.
fn mtr_text(alloc: Global, mtr: &Mtr) -> Result<Vec<u8>, AllocError>
    requires { AreAllowed mtr.now }
    ensures { IfOk result (λ v. v.items ≡ text_of mtr.now) }
{
    let mut text = Vec::new(alloc);
    for change in mtr.changes() {
        push_change(&mut text, change)?;
    }
    Ok(text)
}

// How many bytes the text of a change has.
fn text_len(change: &Change) -> usize
    requires { IsAllowed change.now }
    ensures len { result ≡ length (change_text change.now) }
    ensures most { result ≤ 16355 }
{
    match change {
        Change::Put { bytes, .. } => 17 + bytes.len(),
        Change::Kind { .. } => 11,
        Change::Touch { .. } => 9,
        Change::Floor { .. } => 9,
        Change::Encrypt { .. } => 5,
    }
}

/// How many blocks a mini-transaction has: the length of its text by 4076, rounded up. It must have
/// at most 65536 changes, each one that the format allows.
pub fn mtr_blocks(mtr: &Mtr) -> usize
    requires most { length mtr.now ≤ 65536 }
    requires allowed { AreAllowed mtr.now }
    ensures { result ≡ block_count (text_of mtr.now) }
{
    let mut len = 0;
    for change in mtr.changes() {
        len += text_len(change);
    }
    len.div_ceil(BODY_BYTES)
}

// The blocks of a text, the first of them of this number.
fn blocks_of(alloc: Global, text: &[u8], first: u64, key: &RedoKey) -> Result<Vec<u8>, AllocError>
    requires { first + block_count text.now ≤ 2 ^ 50 }
    ensures value { IfOk result (λ v. v.items ≡ blocks key.now first text.now) }
    ensures each { IfOk result (λ v. AreOf ring_block_size (nth_block key.now first text.now) (block_count text.now)) }
{
    let count = text.len().div_ceil(BODY_BYTES);
    let mut out = zero_bytes(alloc, RING_BLOCK_BYTES * count)?;
    write_blocks(&mut out, first, text, key);
    Ok(out)
}

/// The blocks of a mini-transaction, the first of them of this number: 4096 bytes each, the bodies
/// ciphered under the key. The mini-transaction must not be empty, its changes must be ones that the
/// format allows, and the number behind its last block must be at most 2^50. Where a log ends, at
/// [`LAST_BLOCK`](crate::LAST_BLOCK), is the log's to say.
///
/// # Errors
/// Want of memory alone.
pub fn encode(alloc: Global, mtr: &Mtr, first: u64, key: &RedoKey) -> Result<Vec<u8>, OutOfMemory>
    requires some { 0 < length mtr.now }
    requires allowed { AreAllowed mtr.now }
    requires version { 1 ≤ key.now.version }
    requires first { 2 ≤ first }
    requires last { first + block_count (text_of mtr.now) ≤ 2 ^ 50 }
    ensures blocks { IfOk result (λ v. v.items ≡ blocks key.now first (text_of mtr.now)) }
    // Each of them has 4096 bytes.
    ensures each { IfOk result (λ v. AreOf ring_block_size (nth_block key.now first (text_of mtr.now)) (block_count (text_of mtr.now))) }
    ensures len { IfOk result (λ v. length v.items ≡ ring_block_size * block_count (text_of mtr.now)) }
    ensures bytes { OnOk result (AreBytes (text_of mtr.now)) }
    // The text determines the changes, so no other list of changes has these blocks' text.
    ensures only { (other : List Change) → AreAllowed other → text_of other ≡ text_of mtr.now → other ≡ mtr.now }
{
    let text = mtr_text(alloc, mtr)?;
    known_bytes(&text);
    let out = blocks_of(alloc, &text, first, key)?;
    Ok(out)
}
