// The text of a page 0 as the head of its space.
ghost use Rattle.std.specs.Prelude.{◌≡◌, ℕ, ◌≤◌, ◌<◌, ◌-◌, ◌^◌, ◌++◌, true, false, length, IfOk, IfSome, Some, None};
ghost use Rattle.std.specs.Str.{bytes_eq};
ghost use Rattle.byte_list.specs.Bytes.{put, zeros};
ghost use Rattle.page_text.specs.Parts.{body};
ghost use Rattle.space_head.specs.Head.{with_head};
ghost use Rattle.space_head.specs.declared.space.SpaceInfo.{SpaceInfo};
ghost use Rattle.store_files.specs.Pages.{IsTypedInfo, head_of_space, head_page};
ghost use Rattle.image_pages.specs.Meaning.{IsHeadPage, IsHeadText};
ghost use Rattle.page_places.specs.Texts.{page_bytes, page_body_at, page_body_bytes};

use crate::plain::plain_page;
use byte_list::{copy_with, zero_bytes};
use cause_core::OutOfMemory;
use page_places::{PAGE_BODY_AT, PAGE_BYTES};
use space_head::{CryptRecord, SpaceHead, SpaceInfo, read_head, write_head};
use std::alloc::Global;

// What page 0 says of its space.
fn head_of_space(info: &SpaceInfo) -> SpaceHead
    ensures { result ≡ head_of_space info.now }
{
    let salt = info.salt;
    SpaceHead {
        space: info.space,
        pages: info.pages,
        flags: 21,
        crypt: Some(CryptRecord {
            ciphered: info.ciphered,
            salt,
            minimum: info.floor,
            key_id: info.key_id,
            mode: if info.ciphered { 1 } else { 2 },
        }),
    }
}

// The space of which a head speaks, where it has a crypt record.
fn space_of(head: &SpaceHead) -> Option<SpaceInfo>
    ensures { (info : SpaceInfo) → head.now ≡ head_of_space info → result ≡ Some info }
{
    let crypt = head.crypt?;
    let salt = crypt.salt;
    Some(SpaceInfo {
        space: head.space,
        pages: head.pages,
        key_id: crypt.key_id,
        salt,
        ciphered: crypt.ciphered,
        floor: crypt.minimum,
    })
}

// The fields of a space are of their types.
fn known_info(info: &SpaceInfo)
    ensures { IsTypedInfo info.now }
{
    let _space = info.space;
    let _pages = info.pages;
    let _key_id = info.key_id;
    let _floor = info.floor;
    let _salt = info.salt;
}

// A page of zero bytes with this body.
fn page_with(alloc: Global, body: &[u8]) -> Result<Vec<u8>, OutOfMemory>
    ensures { IfOk result (λ page. page.items ≡ put page_body_at body.now (zeros page_bytes)) }
{
    let page = zero_bytes(alloc, PAGE_BYTES)?;
    Ok(copy_with(alloc, &page, PAGE_BODY_AT, body)?)
}

// A page of zero bytes with the head of this space.
fn written_head(alloc: Global, info: &SpaceInfo) -> Result<Vec<u8>, OutOfMemory>
    ensures { IfOk result (λ page. page.items ≡ with_head (head_of_space info.now) (zeros page_bytes)) }
{
    let mut page = zero_bytes(alloc, PAGE_BYTES)?;
    write_head(&head_of_space(info), page.as_mut_slice());
    Ok(page)
}

fn are_same(a: &[u8], b: &[u8]) -> bool
    ensures { result ≡ bytes_eq a.now b.now }
{
    a == b
}

// The space whose page 0 has this body, where there is one.
fn head_in(alloc: Global, body: &[u8]) -> Result<Option<SpaceInfo>, OutOfMemory>
    requires { length body.now ≡ page_body_bytes }
    ensures { IfOk result (IsHeadPage body.now) }
{
    let page = page_with(alloc, body)?;
    let Ok(head) = read_head(&page) else {
        return Ok(None);
    };
    let Some(info) = space_of(&head) else {
        return Ok(None);
    };
    known_info(&info);
    let written = written_head(alloc, &info)?;
    if !are_same(&written, &page) {
        return Ok(None);
    }
    Ok(Some(info))
}

// The space of this id whose page 0 a text is, where it is one.
pub(crate) fn head_of_text(
    alloc: Global,
    space: u32,
    text: &[u8],
) -> Result<Option<SpaceInfo>, OutOfMemory>
    requires { length text.now ≡ page_bytes }
    ensures { IfOk result (IsHeadText space text.now) }
{
    let Some(page) = plain_page(alloc, space, 0, None, text)? else {
        return Ok(None);
    };
    let Some(info) = head_in(alloc, page.body.bytes())? else {
        return Ok(None);
    };
    if info.space != space {
        return Ok(None);
    }
    Ok(Some(info))
}
