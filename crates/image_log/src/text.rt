// The text of a mini-transaction, in its blocks.
ghost use Rattle.std.specs.Prelude.{◌≡◌, ℕ, List, ◌≤◌, ◌<◌, ◌+◌, ◌*◌, ◌^◌, length, take, MatchOption, IfOk, IfErr, IfSome, IfNone, None, Some};
ghost use Rattle.aes_core.specs.Algorithm.{deciphered};
ghost use Rattle.key_ring.specs.Local.{local_key};
ghost use Rattle.redo_text.specs.Block.{log_iv};
ghost use Rattle.redo_text.specs.Reading.{block_version, number_of};
ghost use Rattle.store_files.specs.RingBlock.{block_text};
ghost use Rattle.store_files.specs.Run.{HasText, MakeWholeMtr, block_at};
ghost use Rattle.image_log.specs.Logs.{IsBlockText, IsKeyFault};
ghost use Rattle.store_image.specs.View.{block_bytes};
ghost use Rattle.store_image.specs.Checkpoint.{front_blocks};

use crate::blocks::{block_at, valid_block};
use crate::fault::LogTextFault;
use crate::header::StoreHeader;
use aes_core::{Algorithm, BlockKey};
use cause_core::OutOfMemory;
use key_ring::Ring;
use redo_text::{BlockView, Piece};
use std::alloc::Global;

// The IV of a block, or its first counter.
#[tactic(auto, unfolding(redo_text::specs::Block::log_iv))]
fn log_iv(number: u64) -> [u8; 16]
    ensures { result ≡ log_iv number }
{
    let n = number.to_le_bytes();
    [
        0xf0, 0xff, 0xff, 0xff, 0, 0, 0, 0, n[0], n[1], n[2], n[3], n[4], n[5], n[6], n[7],
    ]
}

// Deciphers the body of the block of this number.
fn decipher(body: &mut [u8], algorithm: Algorithm, local: &[u8; 16], number: u64)
    ensures { body.new ≡ deciphered algorithm local.now (log_iv number) body.old }
{
    if let Some(key) = BlockKey::new(local) {
        algorithm.decrypt(&key, &log_iv(number), body);
    } else {
        unreachable!()
    }
}

// The text in the block of this number, where the key of its version is there.
fn block_text(
    alloc: Global,
    header: &StoreHeader,
    keys: &Ring,
    number: u64,
    block: &BlockView,
) -> Result<Option<Piece>, OutOfMemory>
    requires { number_of block.now ≡ number }
    ensures { IfOk result (IsBlockText header.now keys.now block.now) }
{
    let Some(local) = keys.local(1, block.version(), header.salt()) else {
        return Ok(None);
    };
    let mut body = block.body().to_vec(alloc)?;
    decipher(&mut body, header.algorithm(), &local, number);
    body.truncate(usize::from(block.used()));
    Ok(Some(Piece::of(body)))
}

// The text in the blocks of a whole mini-transaction, so many from this number on; a fault is the
// first of them whose key is missing.
pub(crate) fn text_of(
    alloc: Global,
    header: &StoreHeader,
    keys: &Ring,
    log: &[u8],
    number: u64,
    count: u64,
) -> Result<Piece, LogTextFault>
    requires long { length log.now ≡ (front_blocks + header.now.blocks) * block_bytes }
    requires some { 0 < header.now.blocks }
    requires small { number + count < 2 ^ 64 }
    requires whole { MakeWholeMtr header.now.blocks log.now number count }
    ensures ok { IfOk result (λ text. HasText header.now keys.now log.now number count text) }
    ensures fault { IfErr result (IsKeyFault header.now keys.now log.now number count) }
{
    let mut text = Vec::new(alloc);
    for i in 0..count {
        let bytes = block_at(log, header.blocks(), number + i);
        let Some(block) = valid_block(number + i, bytes) else {
            unreachable!()
        };
        let Some(part) = block_text(alloc, header, keys, number + i, &block)? else {
            return Err(LogTextFault::NoKey {
                number: number + i,
                version: block.version(),
            });
        };
        text.extend_from_slice(part.bytes())?;
    }
    Ok(Piece::of(text))
}
