// What a page is read from, by files that are built from the words of the formats. The checksums are those of a CRC-32C bit by bit.
ghost use Rattle.std.specs.Prelude.{◌≡◌, length};

use crate::{Chosen, chosen_text};
use byte_list::fields::{put, put_be32, put_be64};
use byte_list::zero_bytes;
use std::process::Abort;
use std::test::Fail;

// In 16384 zero bytes the text of page 3 at an LSN.
fn write_text(bytes: &mut [u8], lsn: u64, sum: u32)
    requires { length bytes.old ≡ 16384 }
{
    put_be32(bytes, 4, 3);
    put_be64(bytes, 16, lsn);
    put_be32(bytes, 16380, sum);
}

// In 16896 zero bytes the slot of that text, as one of space 1.
fn write_slot(slot: &mut [u8], lsn: u64, text_sum: u32, slot_sum: u32)
    requires { length slot.old ≡ 16896 }
{
    put(slot, 0, b"DWSLOT01");
    put_be32(slot, 8, 1);
    put_be32(slot, 12, 3);
    put_be32(slot, 508, slot_sum);
    write_text(&mut slot[512..16896], lsn, text_sum);
}

// What a page of space 1 is read from.
fn chosen(rt: &impl Abort, home: &[u8], double: &[u8], page: u32) -> Chosen {
    assert!(rt; home.len() == 16384 && double.len() == 1_081_344);
    chosen_text(home, double, 1, page)
}

#[test]
fn a_page_is_read_from_its_home_or_its_newest_copy(rt: HostRuntime) -> Result<(), Fail> {
    let mut home_bytes = zero_bytes(rt.alloc(), 16384)?;
    let mut double_bytes = zero_bytes(rt.alloc(), 1_081_344)?;
    let home = home_bytes.as_mut_slice();
    let double = double_bytes.as_mut_slice();
    assert!(rt; home.len() == 16384 && double.len() == 1_081_344);

    // No text anywhere; and a home that is neither a text nor zero bytes.
    assert!(rt; chosen(&rt, home, double, 3) == Chosen::Unused);
    put_be32(home, 4, 3);
    assert!(rt; chosen(&rt, home, double, 3) == Chosen::Nothing);

    // One copy in slot 2, a newer one in slot 5, and another of that LSN in slot 9.
    write_slot(&mut double[33_792..50_688], 4096, 0x71c8_bd55, 0x53b8_d233);
    assert!(rt; chosen(&rt, home, double, 3) == Chosen::Copy(2));
    write_slot(&mut double[84_480..101_376], 8192, 0xe0dd_8da0, 0x0a3d_7b08);
    write_slot(
        &mut double[152_064..168_960],
        8192,
        0xe0dd_8da0,
        0x0a3d_7b08,
    );
    assert!(rt; chosen(&rt, home, double, 3) == Chosen::Copy(5));

    // The home is read where it holds a text, also one that is older.
    write_text(home, 4096, 0x71c8_bd55);
    assert!(rt; chosen(&rt, home, double, 3) == Chosen::Home);

    // A home of another page's number is none of this page.
    assert!(rt; chosen(&rt, home, double, 4) == Chosen::Nothing);
    Ok(())
}
