// A page text as the plain page that it means.
ghost use Rattle.std.specs.Prelude.{◌≡◌, ◌≢◌, ℕ, ◌≤◌, ◌<◌, true, false, length, option_map, IfOk, IfSome, IsSome};
ghost use Rattle.byte_list.specs.Bytes.{AreBytes};
ghost use Rattle.byte_list.specs.Fields.{be16_at, be32_at, be64_at};
ghost use Rattle.key_ring.specs.Local.{local_key};
ghost use Rattle.page_text.specs.Parts.{body};
ghost use Rattle.page_text.specs.Text.{IsText, Plain, key_lent, plain_of};
ghost use Rattle.space_head.specs.Sizes.{IsPageSize};
ghost use Rattle.store_files.specs.Pages.{HasKeyBytes, key_id_of};
ghost use Rattle.image_pages.specs.Meaning.{IsPlainOf, IsUsedPage};
ghost use Rattle.page_places.specs.Texts.{page_bytes, page_lsn_at, page_version_at, page_type_at};

use crate::source::SpaceKeys;
use byte_list::fields::{be16_at, be32_at};
use cause_core::OutOfMemory;
use page_places::{PAGE_BODY_AT, PAGE_TYPE_AT, PAGE_VERSION_AT};
use page_text::{PageKey, PageMut, unseal};
use redo_text::Piece;
use std::alloc::Global;
use store_model::PlainPage;

// A local key has 16 elements.
fn known_long(local: &[u8; 16])
    ensures { length local.now ≡ 16 }
{
    let _local = *local;
}

// Each of them is a byte.
#[inline(always)]
fn known_bytes(local: &[u8])
    ensures { AreBytes local.now }
{
    let _ = local.len();
}

// The key of a space's pages at a version, where it is there.
fn page_key(keys: &SpaceKeys, version: u32) -> Option<PageKey>
    ensures value { result ≡ option_map (λ local. record { local = local; algorithm = keys.now.header.now.algorithm }) (local_key keys.now.ring.now keys.now.key_id version keys.now.salt.now) }
    ensures known { IfSome result HasKeyBytes }
{
    let local = keys.ring.local(keys.key_id, version, keys.salt)?;
    known_long(&local);
    known_bytes(&local);
    Some(PageKey {
        local,
        algorithm: keys.header.algorithm(),
    })
}

// Takes a page text apart in place, and tells whether it is one.
fn unseals(bytes: &mut [u8], space: u32, number: u32, key: Option<&PageKey>) -> bool
    requires sized { IsPageSize (length bytes.old) }
    requires keyed { be32_at bytes.old page_version_at ≢ 0 → IsSome key }
    ensures accepted { result ≡ true → IsText (length bytes.old) space number (be64_at bytes.old page_lsn_at) (be32_at bytes.old page_version_at) (key_lent key.entry) (plain_of bytes.new) bytes.old }
    ensures refused { result ≡ false → (lsn version : ℕ) (plain : Plain) → IsText (length bytes.old) space number lsn version (key_lent key.entry) plain bytes.old → ⊥ }
{
    let mut page = PageMut::of(bytes);
    match unseal(&mut page, space, number, key) {
        Ok(()) => true,
        Err(_fault) => false,
    }
}

// The plain page in a page that is in clear.
fn plain_of(alloc: Global, page: &[u8]) -> Result<PlainPage, OutOfMemory>
    requires { length page.now ≡ page_bytes }
    ensures kind { IfOk result (λ plain. plain.kind ≡ be16_at page.now page_type_at) }
    ensures body { IfOk result (λ plain. plain.body ≡ body page.now) }
{
    let end = page.len() - 8;
    let body = page[PAGE_BODY_AT..end].to_vec(alloc)?;
    Ok(PlainPage {
        kind: be16_at(page, PAGE_TYPE_AT),
        body: Piece::of(body),
    })
}

// Takes a page text apart in place: its plain page, where it is one.
fn opened(
    alloc: Global,
    bytes: &mut [u8],
    space: u32,
    number: u32,
    key: Option<&PageKey>,
) -> Result<Option<PlainPage>, OutOfMemory>
    requires long { length bytes.old ≡ page_bytes }
    requires keyed { be32_at bytes.old page_version_at ≢ 0 → IsSome key }
    ensures { IfOk result (IsPlainOf space number (key_lent key.entry) bytes.old) }
{
    if !unseals(bytes, space, number, key) {
        return Ok(None);
    }
    let plain = plain_of(alloc, bytes)?;
    Ok(Some(plain))
}

// The plain page whose text this is under a key, where it is one.
pub(crate) fn plain_page(
    alloc: Global,
    space: u32,
    number: u32,
    key: Option<PageKey>,
    text: &[u8],
) -> Result<Option<PlainPage>, OutOfMemory>
    requires { length text.now ≡ page_bytes }
    ensures { IfOk result (IsPlainOf space number key text.now) }
{
    if be32_at(text, PAGE_VERSION_AT) != 0 && key.is_none() {
        return Ok(None);
    }
    let mut page = text.to_vec(alloc)?;
    opened(alloc, page.as_mut_slice(), space, number, key.as_ref())
}

// The page from page 1 on that a text means under the keys, where it means one.
pub(crate) fn used_page(
    alloc: Global,
    keys: &SpaceKeys,
    space: u32,
    number: u32,
    text: &[u8],
) -> Result<Option<PlainPage>, OutOfMemory>
    requires long { length text.now ≡ page_bytes }
    requires number { 0 < number }
    requires key_id { keys.now.key_id ≡ key_id_of keys.now.header.now.spaces space }
    ensures { IfOk result (IsUsedPage keys.now.header.now keys.now.ring.now space number keys.now.salt.now text.now) }
{
    let key = page_key(keys, be32_at(text, PAGE_VERSION_AT));
    plain_page(alloc, space, number, key, text)
}
