// The plain event of one that is ciphered or in clear.

ghost use Rattle.std.specs.Prelude.{◌≡◌, ◌+◌, ◌%◌, ◌^◌, ◌<◌, ◌≤◌, ℕ, List, Ok, Err, length, IfErr, OnOk, MatchResult};
ghost use Rattle.binlog_text.specs.Faults.{IsBinlogRefusal};
ghost use Rattle.binlog_text.specs.Header.{kind_of, least_of, least_stored, length_of};
ghost use Rattle.binlog_text.specs.Cipher.{deciphered_event};
ghost use Rattle.binlog_text.specs.Events.{opened, plain_checked};
ghost use Rattle.binlog_text.specs.Sealed.{IsStoredEvent};

use crate::BinlogFault;
use crate::cipher::decipher_event;
use crate::format::{LogFormat, least_of};
use aes_core::BlockKey;
use byte_list::fields::le32_at;
use key_ring::Ring;

// The length is one that the plain event's type may have.
fn check_plain(format: &LogFormat, place: u64, plain: &[u8]) -> Result<(), BinlogFault>
    requires { 19 ≤ length plain.now }
    ensures refusal { IfErr result IsBinlogRefusal }
    ensures least { OnOk result (least_of format.now.checksum (kind_of plain.now) ≤ length plain.now) }
    ensures value { MatchResult result (λ _. plain_checked format.now place plain.now ≡ Ok plain.now) (λ fault. plain_checked format.now place plain.now ≡ Err fault) }
{
    if plain.len() < least_of(format.checksum, plain[4]) as usize {
        return Err(BinlogFault::BadLength {
            at: place,
            length: le32_at(plain, 9),
        });
    }
    Ok(())
}

/// Deciphers an event in place, where events are ciphered at its position.
///
/// # Errors
/// `MissingKey`, which leaves the event as it was; then, of the plain event, which is left,
/// `BadLength`.
#[tactic(auto, unfolding(crate::specs::Events::opened))]
pub(crate) fn open(
    ring: &Ring,
    format: &LogFormat,
    place: u64,
    event: &mut [u8],
) -> Result<(), BinlogFault>
    requires long { 19 ≤ length event.old }
    requires least { least_stored format.now (kind_of event.old) ≤ length event.old }
    ensures value { MatchResult result (λ _. opened ring.now format.now place event.old ≡ Ok event.new) (λ fault. opened ring.now format.now place event.old ≡ Err fault) }
    ensures refusal { IfErr result IsBinlogRefusal }
    ensures least { OnOk result (least_of format.now.checksum (kind_of event.new) ≤ length event.new) }
    ensures sealed { OnOk result (IsStoredEvent ring.now format.now place event.new event.old) }
{
    let Some(cipher) = format.cipher else {
        return Ok(());
    };
    let Some(bytes) = ring.get(1, cipher.version) else {
        return Err(BinlogFault::MissingKey {
            version: cipher.version,
        });
    };
    let Some(key) = BlockKey::new(bytes) else {
        unreachable!()
    };
    decipher_event(&key, &cipher.nonce, (place % 0x1_0000_0000) as u32, event);
    check_plain(format, place, event)
}
