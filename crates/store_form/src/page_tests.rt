// Pages of a store at rest, by the bytes of their homes.
ghost use Rattle.std.specs.Prelude.{◌≡◌, length};

use crate::RestFault;
use crate::first_page::fill_first_page;
use crate::reading::open_home;
use aes_core::Algorithm;
use byte_list::fields::{be16_at, put};
use key_ring::Ring;
use page_text::{OpenFault, PageKey, PageMut, Seal, seal};
use space_head::{Home, SpaceInfo};
use std::process::Abort;
use std::test::Fail;

fn space_5() -> SpaceInfo {
    SpaceInfo {
        space: 5,
        pages: 4,
        key_id: 1,
        salt: [0x11; 16],
        ciphered: true,
        floor: 1,
    }
}

// The text of page 3 of space 5 with type 0 and a body of bytes 41.
pub(crate) fn write_text(rt: &impl Abort, page: &mut [u8], local: Option<PageKey>)
    requires { length page.old ≡ 16384 }
{
    page.fill(0x41);
    put(page, 24, &[0, 0]);
    let kind = be16_at(page, 24);
    assert!(rt; kind == 0);
    let mut text = PageMut::of(page);
    match local {
        None => {
            let plan = Seal {
                space: 5,
                page: 3,
                lsn: 12288,
                version: 0,
                local: None,
            };
            seal(&mut text, &plan);
        }
        Some(key) => {
            let plan = Seal {
                space: 5,
                page: 3,
                lsn: 12288,
                version: 1,
                local: Some(key),
            };
            seal(&mut text, &plan);
        }
    }
}

pub(crate) fn key_of_one(ring: &Ring) -> Option<PageKey> {
    let local = ring.local(1, 1, &[0x11; 16])?;
    Some(PageKey {
        local,
        algorithm: Algorithm::Ctr,
    })
}

pub(crate) fn ring_of_one(rt: &HostRuntime) -> Result<Ring, Fail> {
    let mut ring = Ring::new(rt.alloc());
    if ring.add(1, 1, &[7; 16]).is_err() {
        return Err(Fail::new("no key"));
    }
    Ok(ring)
}

#[test]
fn an_unused_page_is_told(rt: HostRuntime) {
    let ring = Ring::new(rt.alloc());
    let mut page = [0; 16384];
    let home = open_home(&ring, Algorithm::Cbc, &space_5(), 3, &mut page);
    assert!(rt; home == Ok(Home::Unused));
}

#[test]
fn a_page_in_clear_is_read(rt: HostRuntime) {
    let ring = Ring::new(rt.alloc());
    let mut page = [0; 16384];
    write_text(&rt, &mut page, None);
    let home = open_home(&ring, Algorithm::Ctr, &space_5(), 3, &mut page);
    assert!(rt; home == Ok(Home::Clean(0)) && page[38] == 0x41);
}

// Its body is ciphered, and deciphered as it is read.
#[test]
fn a_ciphered_page_is_read(rt: HostRuntime) -> Result<(), Fail> {
    let ring = ring_of_one(&rt)?;
    let mut page = [0; 16384];
    write_text(&rt, &mut page, key_of_one(&ring));
    assert!(rt; page[38] != 0x41 || page[39] != 0x41);
    let home = open_home(&ring, Algorithm::Ctr, &space_5(), 3, &mut page);
    assert!(rt; home == Ok(Home::Clean(1)) && page[38] == 0x41 && page[39] == 0x41);
    Ok(())
}

#[test]
fn a_missing_version_is_told(rt: HostRuntime) -> Result<(), Fail> {
    let ring = ring_of_one(&rt)?;
    let mut page = [0; 16384];
    write_text(&rt, &mut page, key_of_one(&ring));
    let none = Ring::new(rt.alloc());
    let home = open_home(&none, Algorithm::Ctr, &space_5(), 3, &mut page);
    assert!(rt; home == Err(RestFault::NoVersion { id: 1, version: 1 }));
    Ok(())
}

// The text of page 3 of space 5 with one byte inverted, or read as another page's or space's.
#[test]
fn a_damaged_page_is_told(rt: HostRuntime) {
    let ring = Ring::new(rt.alloc());
    let mut page = [0; 16384];
    write_text(&rt, &mut page, None);
    let home = open_home(&ring, Algorithm::Ctr, &space_5(), 2, &mut page);
    let fault = OpenFault::WrongPage {
        wanted: 2,
        found: 3,
    };
    let damaged = RestFault::Damaged {
        space: 5,
        page: 2,
        fault,
    };
    assert!(rt; home == Err(damaged));
    page[100] ^= 0xff;
    let home = open_home(&ring, Algorithm::Ctr, &space_5(), 3, &mut page);
    assert!(rt;
        matches!(
            home,
            Err(RestFault::Damaged {
                fault: OpenFault::Checksum { .. },
                ..
            })
        )
    );
}

// Space 5 of 4 pages under key 1, ciphered from version 1 on, its salt 16 bytes 11.
#[test]
fn a_first_page_has_its_crypt_record(rt: HostRuntime) {
    let mut page = [0x77; 16384];
    fill_first_page(&mut page, &space_5());
    assert!(rt; &page[10428..10436] == [0x73, 0x0e, 0x0c, 0x52, 0x45, 0x74, 1, 16].as_slice());
    assert!(rt; &page[10436..10452] == [0x11; 16].as_slice());
    assert!(rt; &page[10452..10461] == [0, 0, 0, 1, 0, 0, 0, 1, 1].as_slice());
    assert!(rt; &page[16..24] == [0, 0, 0, 0, 0, 0, 0x20, 0].as_slice() && page[25] == 8);
    let none = Ring::new(rt.alloc());
    let home = open_home(&none, Algorithm::Cbc, &space_5(), 0, &mut page);
    assert!(rt; home == Ok(Home::Clean(0)));
}
