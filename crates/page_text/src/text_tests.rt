// Page texts: the rows of the format, and texts whose values were computed by OpenSSL and zlib.

ghost use Rattle.std.specs.Prelude.{length};
ghost use Rattle.space_head.specs.Sizes.{IsPageSize};

use crate::sealing::page_iv;
use crate::{
    OpenFault, PageKey, PageMut, PageState, PageView, Seal, check, real_page, seal, unseal,
};
use aes_core::Algorithm;
use byte_list::fields::{be16_at, be32_at, put};
use bytes_core::{crc32, crc32c};
use std::process::Abort;
use std::test::Fail;

const LSN: u64 = 4294967301;

fn key(algorithm: Algorithm) -> PageKey {
    PageKey {
        local: [0, 1, 2, 3, 4, 5, 6, 7, 8, 9, 10, 11, 12, 13, 14, 15],
        algorithm,
    }
}

// Makes the bytes the text of page 3 of space 5, of an index page with a body of bytes 41.
fn write_page(rt: &impl Abort, bytes: &mut [u8], local: Option<PageKey>)
    requires { IsPageSize (length bytes.old) }
{
    bytes.fill(0x41);
    assert!(rt; bytes.len() >= 4096);
    put(bytes, 24, &[0x45, 0xbf]);
    let kind = be16_at(bytes, 24);
    assert!(rt; kind != 8 && kind != 9);
    let mut page = PageMut::of(bytes);
    match local {
        None => {
            let plan = Seal {
                space: 5,
                page: 3,
                lsn: LSN,
                version: 0,
                local: None,
            };
            seal(&mut page, &plan);
        }
        Some(page_key) => {
            let plan = Seal {
                space: 5,
                page: 3,
                lsn: LSN,
                version: 1,
                local: Some(page_key),
            };
            seal(&mut page, &plan);
        }
    }
}

fn open_page(
    bytes: &mut [u8],
    space: u32,
    number: u32,
    algorithm: Algorithm,
) -> Result<(), OpenFault>
    requires { IsPageSize (length bytes.old) }
{
    let page_key = key(algorithm);
    let mut page = PageMut::of(bytes);
    unseal(&mut page, space, number, Some(&page_key))
}

// Writes the checksum that the bytes have.
fn mend_sum(rt: &impl Abort, bytes: &mut [u8]) {
    assert!(rt; bytes.len() >= 4);
    let end = bytes.len() - 4;
    let sum = crc32c(&bytes[..end]);
    put(bytes, end, &sum.to_be_bytes());
}

// A page in clear with other bytes at a place, under a right checksum, is refused so.
fn check_changed(rt: &impl Abort, bytes: &mut [u8], at: usize, new: &[u8], fault: OpenFault)
    requires { IsPageSize (length bytes.old) }
{
    write_page(rt, bytes, None);
    assert!(rt; at < bytes.len() && new.len() <= bytes.len() - at);
    put(bytes, at, new);
    mend_sum(rt, bytes);
    assert!(rt; open_page(bytes, 5, 3, Algorithm::Cbc) == Err(fault));
}

fn check_clear_texts(rt: &impl Abort, bytes: &mut [u8], sum: u32)
    requires { IsPageSize (length bytes.old) }
{
    let n = bytes.len();
    assert!(rt; n >= 4096);
    bytes.fill(0);
    assert!(rt; check(bytes) == PageState::Zero);
    write_page(rt, bytes, None);
    assert!(rt; &bytes[16..24] == [0, 0, 0, 1, 0, 0, 0, 5].as_slice());
    assert!(rt; &bytes[n - 8..n - 4] == [0, 0, 0, 5].as_slice());
    assert!(rt; be32_at(bytes, n - 4) == sum && check(bytes) == PageState::Valid);
    let other_page = OpenFault::WrongPage {
        wanted: 4,
        found: 3,
    };
    assert!(rt; open_page(bytes, 5, 4, Algorithm::Cbc) == Err(other_page));
    let other_space = OpenFault::WrongSpace {
        wanted: 6,
        found: 5,
    };
    assert!(rt; open_page(bytes, 6, 3, Algorithm::Cbc) == Err(other_space));
    assert!(rt; open_page(bytes, 5, 3, Algorithm::Cbc) == Ok(()));
    let kind = OpenFault::WrongKind {
        found: 9,
        version: 0,
    };
    check_changed(rt, bytes, 24, &[0, 9], kind);
    let end = OpenFault::WrongEnd {
        wanted: 5,
        found: 4,
    };
    check_changed(rt, bytes, n - 5, &[4], end);
    let fills = [
        (8, 0x41ff_ffff),
        (12, 0x41ff_ffff),
        (26, 0x4100_0000_0000_0000),
    ];
    for (at, found) in fills {
        check_changed(rt, bytes, at, &[0x41], OpenFault::WrongFill { at, found });
    }
}

fn check_ciphered_text(
    rt: &impl Abort,
    bytes: &mut [u8],
    algorithm: Algorithm,
    first: u32,
    sum: u32,
)
    requires { IsPageSize (length bytes.old) }
{
    let n = bytes.len();
    assert!(rt; n >= 4096);
    write_page(rt, bytes, Some(key(algorithm)));
    assert!(rt; (be32_at(bytes, 0), be32_at(bytes, 26), be32_at(bytes, n - 4)) == (1, first, sum));
    assert!(rt; open_page(bytes, 5, 3, algorithm) == Ok(()));
    assert!(rt; bytes[38..n - 8].iter().all(|byte| *byte == 0x41));
    if let Some(view) = PageView::new(bytes) {
        assert!(rt; (view.version(), view.page(), view.lsn(), view.kind()) == (1, 3, LSN, 17855));
    } else {
        assert!(rt; false, "a page of {n} bytes");
    }
}

fn check_size(rt: &impl Abort, bytes: &mut [u8], clear: u32, cbc: u32, ctr: u32)
    requires { IsPageSize (length bytes.old) }
{
    check_clear_texts(rt, bytes, clear);
    check_ciphered_text(rt, bytes, Algorithm::Cbc, 0xa6e2_b3e0, cbc);
    check_ciphered_text(rt, bytes, Algorithm::Ctr, 0xac18_78f3, ctr);
}

#[test]
fn texts_of_small_pages(rt: HostRuntime) {
    check_size(&rt, &mut [0; 4096], 0xb88d_3796, 0x05a4_876c, 0x2528_0d60);
    check_size(&rt, &mut [0; 8192], 0xdced_2dcc, 0xbbf4_2fd0, 0xd144_c203);
    check_size(&rt, &mut [0; 16384], 0xcf0b_057d, 0xd3fc_bc8f, 0x00f3_57cb);
}

#[test]
fn texts_of_large_pages(rt: HostRuntime) {
    check_size(&rt, &mut [0; 32768], 0x4e3b_a7d5, 0x5ced_cb95, 0xd20c_f0fc);
    check_size(&rt, &mut [0; 65536], 0x5139_651e, 0xfc0f_d78a, 0x3e4e_5890);
}

// One byte of a page text inverted is found by the checksum, and the page stays as it was.
fn check_inverted(rt: &impl Abort, bytes: &mut [u8], at: usize)
    requires { IsPageSize (length bytes.old) }
{
    assert!(rt; at < bytes.len());
    bytes[at] ^= 0xff;
    match open_page(bytes, 5, 3, Algorithm::Ctr) {
        Err(OpenFault::Checksum { stored, computed }) => assert!(rt; stored != computed),
        _ => assert!(rt; false, "byte {at} inverted"),
    }
    bytes[at] ^= 0xff;
}

fn check_all_inverted(rt: &impl Abort, bytes: &mut [u8])
    requires { IsPageSize (length bytes.old) }
{
    let n = bytes.len();
    assert!(rt; n >= 4096);
    write_page(rt, bytes, Some(key(Algorithm::Ctr)));
    let places = [
        0,
        3,
        4,
        8,
        12,
        16,
        24,
        26,
        34,
        38,
        n / 2,
        n - 9,
        n - 8,
        n - 5,
        n - 4,
        n - 1,
    ];
    for at in places {
        check_inverted(rt, bytes, at);
    }
    assert!(rt; open_page(bytes, 5, 3, Algorithm::Ctr) == Ok(()));
}

#[test]
fn an_inverted_byte_is_refused(rt: HostRuntime) {
    let mut page = [0; 4096];
    write_page(&rt, &mut page, Some(key(Algorithm::Ctr)));
    for at in 0..4096 {
        check_inverted(&rt, &mut page, at);
    }
    check_all_inverted(&rt, &mut page);
    check_all_inverted(&rt, &mut [0; 8192]);
    check_all_inverted(&rt, &mut [0; 16384]);
    check_all_inverted(&rt, &mut [0; 32768]);
    check_all_inverted(&rt, &mut [0; 65536]);
}

#[test]
fn the_iv_of_a_page(rt: HostRuntime) {
    let iv = [5, 0, 0, 0, 3, 0, 0, 0, 0, 0x30, 0, 0, 0, 0, 0, 0];
    assert!(rt; page_iv(5, 3, 12288) == iv);
}

// A page that a MariaDB server wrote is such a text but for its links: prev is page 8, and so the
// page is left deciphered. The CRC-32 of its body was computed by zlib.
#[test]
fn a_page_of_a_real_server_is_deciphered(rt: HostRuntime) -> Result<(), Fail> {
    let page_key = PageKey {
        local: [
            0x53, 0xd3, 0xe5, 0x68, 0x98, 0x8d, 0xe7, 0x6f, 0x97, 0xc8, 0xd6, 0x8a, 0x4c, 0x74,
            0x54, 0x8b,
        ],
        algorithm: Algorithm::Cbc,
    };
    let mut bytes = real_page::PAGE;
    assert!(rt; check(&bytes) == PageState::Valid);
    let mut page = PageMut::of(&mut bytes);
    let fault = OpenFault::WrongFill { at: 8, found: 8 };
    assert!(rt; unseal(&mut page, 9, 9, Some(&page_key)) == Err(fault));
    assert!(rt; crc32(&bytes[38..4088]) == 0x0321_75a2);
    assert!(rt; &bytes[99..107] == b"infimum\0".as_slice());
    let text = format!(in rt.alloc(); "{fault}")?;
    assert!(rt; text.as_str() == "value 8 at byte 8");
    Ok(())
}
