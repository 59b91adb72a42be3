// Slots and page texts by their bytes. The checksums are those of a CRC-32C bit by bit.
ghost use Rattle.std.specs.Prelude.{◌≡◌, length};

use crate::PageText;
use crate::reading::is_slot;
use crate::slot::{SLOT, fill_slot};
use crate::texts::PAGE;
use byte_list::fields::{be32_at, put_be32, put_be64};
use std::process::Abort;
use std::test::Fail;

// The text of page 3 at LSN 4096, all else zero bytes.
fn text_of_page_3() -> [u8; PAGE] {
    let mut text = [0; PAGE];
    put_be32(&mut text, 4, 3);
    put_be64(&mut text, 16, 4096);
    put_be32(&mut text, 16380, 0x71c8_bd55);
    text
}

// Its slot, as one of space 1 in a batch of number 0.
fn slot_of_page_3() -> [u8; SLOT] {
    let mut slot = [0xaa; SLOT];
    fill_slot(&mut slot, 1, 0, &text_of_page_3());
    slot
}

#[test]
fn a_slot_has_the_bytes_of_the_format(rt: HostRuntime) {
    let slot = slot_of_page_3();
    assert!(rt; slot.starts_with(b"DWSLOT01"));
    assert!(rt; be32_at(&slot, 8) == 1 && be32_at(&slot, 12) == 3);
    assert!(rt; slot[16..508].iter().all(|byte| *byte == 0));
    assert_eq!(rt; be32_at(&slot, 508), 0x53b8_d233);
    let text: &[u8] = &text_of_page_3();
    assert!(rt; &slot[512..] == text);
}

#[test]
fn a_slot_with_one_other_byte_is_none(rt: HostRuntime) {
    let mut slot = slot_of_page_3();
    assert!(rt; is_slot(&slot));
    for at in [0, 7, 8, 15, 16, 507, 508, 511, 512, 519, 16895] {
        slot[at] ^= 1;
        assert!(rt; !is_slot(&slot));
        slot[at] ^= 1;
    }
}

// The text is that of another page than the head says, and both checksums are right.
#[test]
fn a_slot_of_another_page_number_is_none(rt: HostRuntime) {
    let mut slot = slot_of_page_3();
    put_be32(&mut slot, 12, 4);
    put_be32(&mut slot, 508, 0x97cf_b96d);
    assert!(rt; !is_slot(&slot));
}

#[test]
fn a_text_has_its_length_and_its_checksum(rt: HostRuntime) -> Result<(), Fail> {
    let text = text_of_page_3();
    let Some(page) = PageText::of(text.to_vec(rt.alloc())?) else {
        return Err(Fail::new("no text"));
    };
    assert!(rt; page.number() == 3);
    assert!(rt; PageText::of(text[1..].to_vec(rt.alloc())?).is_none());
    let mut torn = text;
    torn[16383] ^= 0xff;
    assert!(rt; PageText::of(torn.to_vec(rt.alloc())?).is_none());
    Ok(())
}
