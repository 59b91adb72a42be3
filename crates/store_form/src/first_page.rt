// The text of page 0 of a space, as it is created.
ghost use Rattle.std.specs.Prelude.{◌≡◌, ℕ, ◌+◌, ◌<◌, ◌^◌, length, Ok, None, [], ◌∷◌};
ghost use Rattle.byte_list.specs.Bytes.{put, zeros};
ghost use Rattle.byte_list.specs.Fields.{be16_at};
ghost use Rattle.page_places.specs.Texts.{page_bytes, page_type_at};
ghost use Rattle.page_text.specs.Text.{IsText, plain_of};
ghost use Rattle.space_head.specs.Head.{head_of, with_head};
ghost use Rattle.store_files.specs.Pages.{IsTypedInfo, head_of_space, head_page};
ghost use Rattle.store_form.specs.Creation.{first_lsn};

use byte_list::fields::put;
use page_places::PAGE_TYPE_AT;
use page_text::{PageMut, Seal, seal};
use space_head::{CryptRecord, SpaceHead, SpaceInfo, write_head};

// The LSN of a page 0 as it is created: that of the log's first block, whose number is 2.
const FIRST_LSN: u64 = 2 * store_files::BLOCK_BYTES as u64;

// What page 0 says of its space.
fn head_of_space(info: &SpaceInfo) -> SpaceHead
    ensures { result ≡ head_of_space info.now }
{
    let salt = info.salt;
    SpaceHead {
        space: info.space,
        pages: info.pages,
        flags: 21,
        crypt: Some(CryptRecord {
            ciphered: info.ciphered,
            salt,
            minimum: info.floor,
            key_id: info.key_id,
            mode: if info.ciphered { 1 } else { 2 },
        }),
    }
}

// The fields of a space are of their types.
pub(crate) fn known_info(info: &SpaceInfo)
    ensures { IsTypedInfo info.now }
{
    let _space = info.space;
    let _pages = info.pages;
    let _key_id = info.key_id;
    let _floor = info.floor;
    let _salt = info.salt;
}

#[tactic(auto, unfolding(byte_list::specs::Bytes::zeros))]
pub(crate) fn clear(page: &mut [u8])
    ensures { page.new ≡ zeros (length page.old) }
{
    page.fill(0);
}

// A page in clear with the head of a space, and the type of a page 0.
fn write_fields(page: &mut [u8], info: &SpaceInfo)
    requires { length page.old ≡ page_bytes }
    ensures { page.new ≡ put page_type_at (0 ∷ 8 ∷ []) (with_head (head_of_space info.now) (zeros page_bytes)) }
{
    clear(page);
    write_head(&head_of_space(info), page);
    put(page, PAGE_TYPE_AT, &[0, 8]);
}

fn seal_first(page: &mut [u8], space: u32)
    requires long { length page.old ≡ page_bytes }
    requires kind { be16_at page.old page_type_at ≡ 8 }
    ensures text { IsText page_bytes space 0 first_lsn 0 None (plain_of page.old) page.new }
    ensures long { length page.new ≡ page_bytes }
{
    let mut text = PageMut::of(page);
    let plan = Seal {
        space,
        page: 0,
        lsn: FIRST_LSN,
        version: 0,
        local: None,
    };
    seal(&mut text, &plan);
}

// Makes of 16384 bytes the text of page 0 of a space as it is created, at LSN 8192, in clear.
pub(crate) fn fill_first_page(page: &mut [u8], info: &SpaceInfo)
    requires { length page.old ≡ page_bytes }
    ensures text { IsText page_bytes info.now.space 0 first_lsn 0 None (head_page info.now) page.new }
    ensures long { length page.new ≡ page_bytes }
    ensures head { head_of page.new ≡ Ok (head_of_space info.now) }
{
    known_info(info);
    write_fields(page, info);
    seal_first(page, info.space);
}
