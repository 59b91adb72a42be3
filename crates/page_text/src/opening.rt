// A page text, taken apart in place.

ghost use Rattle.std.specs.Prelude.{◌≡◌, ◌≢◌, ◌-◌, ◌%◌, ◌^◌, ◌<◌, ◌≤◌, ℕ, List, IsSome, Ok, length};
ghost use Rattle.byte_list.specs.Bytes.{AreBytes};
ghost use Rattle.byte_list.specs.Fields.{be16_at, be32_at, be64_at};
ghost use Rattle.space_head.specs.Sizes.{IsPageSize};
ghost use Rattle.page_text.specs.Opening.{Undoes, clear_check, fits_page, in_clear, inner_check, left_after, opening, unciphered};
ghost use Rattle.page_text.specs.Parts.{cipher_part, page_frame_size, page_lsn_at, page_type_at, page_version_at};
ghost use Rattle.page_text.specs.State.{computed_sum};
ghost use Rattle.page_text.specs.Text.{IsText, Plain, enciphered, key_lent, page_key, page_iv, plain_of};

use crate::layout::{
    CHECKSUM, CIPHERED, LSN, NEXT, PAGE_NUMBER, PREVIOUS, SPACE, TRAILER, TYPE, VERSION,
};
use crate::sealing::{known_page, page_iv};
use crate::{OpenFault, PageKey, PageMut};
use aes_core::BlockKey;
use byte_list::fields::{be16_at, be32_at, be64_at};
use bytes_core::crc32c;

#[tactic(auto, unfolding(crate::specs::Opening::fits_page))]
fn fits_page(number: u32, kind: u16, version: u32) -> bool
    ensures { result ≡ fits_page number kind version }
{
    if number == 0 {
        kind == 8 && version == 0
    } else {
        !(kind == 8 || kind == 9)
    }
}

// What is looked at before the page is deciphered.
#[tactic(auto, unfolding(crate::specs::Opening::clear_check))]
fn check_clear(page: &[u8], number: u32) -> Result<(), OpenFault>
    requires { page_frame_size ≤ length page.now }
    ensures value { result ≡ clear_check page.now number }
    ensures sum_fits { computed_sum page.now < 2 ^ 32 }
{
    let end = page.len() - CHECKSUM;
    let stored = be32_at(page, end);
    let computed = crc32c(&page[..end]);
    if stored != computed {
        return Err(OpenFault::Checksum { stored, computed });
    }
    let found = be32_at(page, PAGE_NUMBER);
    if found != number {
        return Err(OpenFault::WrongPage {
            wanted: number,
            found,
        });
    }
    let kind = be16_at(page, TYPE);
    let version = be32_at(page, VERSION);
    if !fits_page(number, kind, version) {
        return Err(OpenFault::WrongKind {
            found: kind,
            version,
        });
    }
    Ok(())
}

// What is looked at in the deciphered page.
#[tactic(auto, unfolding(crate::specs::Opening::inner_check))]
fn check_inner(page: &[u8], space: u32) -> Result<(), OpenFault>
    requires { page_frame_size ≤ length page.now }
    ensures { result ≡ inner_check page.now space }
{
    let found = be32_at(page, SPACE);
    if found != space {
        return Err(OpenFault::WrongSpace {
            wanted: space,
            found,
        });
    }
    let wanted = (be64_at(page, LSN) % 0x1_0000_0000) as u32;
    let end = be32_at(page, page.len() - TRAILER);
    if end != wanted {
        return Err(OpenFault::WrongEnd { wanted, found: end });
    }
    let prev = be32_at(page, PREVIOUS);
    if prev != 0xffff_ffff {
        return Err(OpenFault::WrongFill {
            at: PREVIOUS,
            found: u64::from(prev),
        });
    }
    let next = be32_at(page, NEXT);
    if next != 0xffff_ffff {
        return Err(OpenFault::WrongFill {
            at: NEXT,
            found: u64::from(next),
        });
    }
    let flush = be64_at(page, CIPHERED);
    if flush != 0 {
        return Err(OpenFault::WrongFill {
            at: CIPHERED,
            found: flush,
        });
    }
    Ok(())
}

fn decipher(key: Option<&PageKey>, iv: &[u8; 16], bytes: &mut [u8])
    ensures value { bytes.new ≡ unciphered (key_lent key.entry) iv.now bytes.old }
    ensures inverse { enciphered (key_lent key.entry) iv.now bytes.new ≡ bytes.old }
    ensures undoes { (x : List ℕ) → AreBytes x → bytes.old ≡ enciphered (key_lent key.entry) iv.now x → bytes.new ≡ x }
{
    if let Some(page_key) = key {
        if let Some(block_key) = BlockKey::new(&page_key.local) {
            page_key.algorithm.decrypt(&block_key, iv, bytes);
        } else {
            unreachable!()
        }
    }
}

// A page of version 0 is in clear, whatever key is at hand.
fn page_key<'a>(version: u32, key: Option<&'a PageKey>) -> Option<&'a PageKey>
    ensures { key_lent result ≡ page_key version (key_lent key.entry) }
{
    if version == 0 { None } else { key }
}

// The fields of a page's first bytes are numbers of their widths.
#[inline(always)]
pub(crate) fn known_fields(page: &[u8])
    requires { page_frame_size ≤ length page.now }
    ensures version { be32_at page.now page_version_at < 2 ^ 32 }
    ensures lsn { be64_at page.now page_lsn_at < 2 ^ 64 }
    ensures kind { be16_at page.now page_type_at < 2 ^ 16 }
{
    let _version = be32_at(page, VERSION);
    let _lsn = be64_at(page, LSN);
    let _kind = be16_at(page, TYPE);
}

// Deciphers what stands from byte 26 to the checksum, where the page's version isn't 0.
fn decipher_part(page: &mut [u8], space: u32, number: u32, key: Option<&PageKey>)
    requires { page_frame_size ≤ length page.old }
    ensures value { page.new ≡ in_clear space number (key_lent key.entry) page.old }
    ensures undoes { Undoes (page_key (be32_at page.old page_version_at) (key_lent key.entry)) (page_iv space number (be64_at page.old page_lsn_at)) (cipher_part page.old) }
{
    let version = be32_at(page, VERSION);
    let iv = page_iv(space, number, be64_at(page, LSN));
    let end = page.len() - CHECKSUM;
    decipher(page_key(version, key), &iv, &mut page[CIPHERED..end]);
}

fn open_text(
    page: &mut [u8],
    space: u32,
    number: u32,
    key: Option<&PageKey>,
) -> Result<(), OpenFault>
    requires sized { IsPageSize (length page.old) }
    requires keyed { be32_at page.old page_version_at ≢ 0 → IsSome key }
    ensures value { result ≡ opening space number (key_lent key.entry) page.old }
    ensures left { page.new ≡ left_after result page.old (in_clear space number (key_lent key.entry) page.old) }
    ensures accepted { result ≡ Ok tt → IsText (length page.old) space number (be64_at page.old page_lsn_at) (be32_at page.old page_version_at) (key_lent key.entry) (plain_of page.new) page.old }
    ensures taken { (lsn version : ℕ) (plain : Plain) → IsText (length page.old) space number lsn version (key_lent key.entry) plain page.old → (result ≡ Ok tt) × (plain_of page.new ≡ plain) }
{
    known_page(page);
    known_fields(page);
    check_clear(page, number)?;
    decipher_part(page, space, number, key);
    known_page(page);
    check_inner(page, space)
}

/// Takes a page text of this space, page number and key apart, in place: Ok leaves the plain page,
/// the text with its part from byte 26 to the checksum in clear. A key must be there where the page's
/// version, in its first four bytes, isn't 0; a page of version 0 is in clear, whatever key is at
/// hand.
///
/// # Errors
/// The first of these, in this order: [`OpenFault::Checksum`], [`OpenFault::WrongPage`],
/// [`OpenFault::WrongKind`], which leave the page as it was; then, of the deciphered page, which is
/// left, [`OpenFault::WrongSpace`], [`OpenFault::WrongEnd`], [`OpenFault::WrongFill`].
pub fn unseal(
    page: &mut PageMut,
    space: u32,
    number: u32,
    key: Option<&PageKey>,
) -> Result<(), OpenFault>
    requires sized { IsPageSize (length page.old.bytes.now) }
    requires keyed { be32_at page.old.bytes.now page_version_at ≢ 0 → IsSome key }
    // The first fault in order, or none, and what is left after it.
    ensures value { result ≡ opening space number (key_lent key.entry) page.old.bytes.now }
    ensures left { page.new.bytes.now ≡ left_after result page.old.bytes.now (in_clear space number (key_lent key.entry) page.old.bytes.now) }
    // What is accepted is the text of the plain page that is left; each text is accepted, and its plain page is left.
    ensures accepted { result ≡ Ok tt → IsText (length page.old.bytes.now) space number (be64_at page.old.bytes.now page_lsn_at) (be32_at page.old.bytes.now page_version_at) (key_lent key.entry) (plain_of page.new.bytes.now) page.old.bytes.now }
    ensures taken { (lsn version : ℕ) (plain : Plain) → IsText (length page.old.bytes.now) space number lsn version (key_lent key.entry) plain page.old.bytes.now → (result ≡ Ok tt) × (plain_of page.new.bytes.now ≡ plain) }
    ensures same_reference { page.new.bytes.ghost_name ≡ page.old.bytes.ghost_name }
{
    let bytes = &mut *page.bytes;
    open_text(bytes, space, number, key)
}
