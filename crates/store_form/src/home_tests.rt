// Page 3 of a store at rest on a disk in memory: as a creation left it, and with a home that was written
// since. Its text is the one that sealing makes.
ghost use Rattle.std.specs.Prelude.{◌≡◌, ◌≤◌, ◌∷◌, [], IfOk, length};
ghost use Rattle.disk_model.specs.Past.{At};
ghost use Rattle.page_places.specs.Texts.{page_bytes};
ghost use Rattle.store_files.specs.Header.{most_spaces};
ghost use Rattle.store_form.specs.Rest.{IsRestForm, ReadsAtRest, home_told};
ghost use Rattle.store_form.specs.Said.{header_said};

use crate::create_tests::{Elevens, plan_of};
use crate::page_tests::{key_of_one, ring_of_one, write_text};
use crate::reading::are_zero;
use crate::{AtRest, RestFault, RestParts, create};
use aes_core::Algorithm;
use byte_list::fields::be32_at;
use disk_model::{Disk, FileName, MemDisk};
use key_ring::Ring;
use page_text::OpenFault;
use space_head::Home;
use std::alloc::Global;
use std::test::Fail;

// A store of one space, 5, of 4 pages under key 1.
fn created<D: Disk + Drop>(alloc: Global, disk: D, ring: &Ring) -> Result<AtRest<D>, Fail>
    ensures { IfOk result (λ rest. rest.header.spaces ≡ record { space = 5; pages = 4; key_id = 1 } ∷ []) }
{
    let plan = plan_of(alloc, Algorithm::Ctr)?;
    match create(alloc, disk, ring, &plan, &mut Elevens) {
        Ok(rest) => Ok(rest),
        Err(_refusal) => Err(Fail::new("not created")),
    }
}

// What these bytes of a home tell.
fn home_of(bytes: &[u8]) -> Home
    requires { length bytes.now ≡ page_bytes }
    ensures { result ≡ home_told bytes.now }
{
    if are_zero(bytes) {
        return Home::Unused;
    }
    Home::Clean(be32_at(bytes, 0))
}

// The store in these parts, with these bytes written to the home of page 3.
fn home_written<D: Disk + Drop>(parts: RestParts<D>, bytes: &[u8]) -> Result<AtRest<D>, Fail>
    requires one { (header_said parts.header).spaces ≡ record { space = 5; pages = 4; key_id = 1 } ∷ [] }
    requires format { parts.header.format ≡ 2 }
    requires count { parts.header.count ≤ most_spaces }
    requires form { IsRestForm (header_said parts.header) parts.spaces parts.homes parts.next parts.sequence }
    requires reads { At (ReadsAtRest (header_said parts.header) parts.spaces parts.homes parts.next parts.sequence) (D.past parts.disk) }
    requires long { length bytes.now ≡ page_bytes }
    ensures { IfOk result (λ rest. rest.header ≡ header_said parts.header) }
{
    let RestParts {
        mut disk,
        header,
        spaces,
        mut homes,
        next,
        sequence,
    } = parts;
    disk.write(FileName::Space(5), 49152, bytes)?;
    homes.set(0, 3, home_of(bytes));
    Ok(AtRest::new(disk, header, spaces, homes, next, sequence))
}

fn with_home<D: Disk + Drop>(rest: AtRest<D>, bytes: &[u8]) -> Result<AtRest<D>, Fail>
    requires one { rest.header.spaces ≡ record { space = 5; pages = 4; key_id = 1 } ∷ [] }
    requires long { length bytes.now ≡ page_bytes }
    ensures { IfOk result (λ new. new.header ≡ rest.header) }
{
    home_written(rest.into_parts(), bytes)
}

// What reading page 3 answers.
fn answer_of<D: Disk + Drop>(
    rest: AtRest<D>,
    ring: &Ring,
    page: &mut [u8],
) -> Result<Home, RestFault>
    requires one { rest.header.spaces ≡ record { space = 5; pages = 4; key_id = 1 } ∷ [] }
    requires long { length page.old ≡ page_bytes }
{
    let mut rest = rest;
    rest.read_page(ring, 5, 3, page)
}

// A store on a disk in memory.
fn store(rt: &HostRuntime, ring: &Ring) -> Result<AtRest<MemDisk>, Fail>
    ensures { IfOk result (λ rest. rest.header.spaces ≡ record { space = 5; pages = 4; key_id = 1 } ∷ []) }
{
    created(
        rt.alloc(),
        MemDisk::new(rt.alloc(), Vec::new(rt.alloc())),
        ring,
    )
}

#[test]
fn an_unused_page_of_a_new_store_is_told(rt: HostRuntime) -> Result<(), Fail> {
    let ring = ring_of_one(&rt)?;
    let rest = store(&rt, &ring)?;
    let mut page = [1; 16384];
    let home = answer_of(rest, &ring, &mut page);
    assert!(rt; home == Ok(Home::Unused) && are_zero(&page));
    Ok(())
}

#[test]
fn a_page_in_clear_is_read_from_a_disk(rt: HostRuntime) -> Result<(), Fail> {
    let ring = ring_of_one(&rt)?;
    let mut text = [0; 16384];
    write_text(&rt, &mut text, None);
    let rest = with_home(store(&rt, &ring)?, &text)?;
    let mut page = [0; 16384];
    let home = answer_of(rest, &ring, &mut page);
    assert!(rt; home == Ok(Home::Clean(0)) && page[38] == 0x41 && page[16375] == 0x41);
    Ok(())
}

#[test]
fn a_ciphered_page_is_read_from_a_disk(rt: HostRuntime) -> Result<(), Fail> {
    let ring = ring_of_one(&rt)?;
    let mut text = [0; 16384];
    write_text(&rt, &mut text, key_of_one(&ring));
    let rest = with_home(store(&rt, &ring)?, &text)?;
    let mut page = [0; 16384];
    let home = answer_of(rest, &ring, &mut page);
    assert!(rt; home == Ok(Home::Clean(1)) && page[38] == 0x41 && page[16375] == 0x41);
    Ok(())
}

#[test]
fn a_missing_version_is_told_of_a_page_on_a_disk(rt: HostRuntime) -> Result<(), Fail> {
    let ring = ring_of_one(&rt)?;
    let mut text = [0; 16384];
    write_text(&rt, &mut text, key_of_one(&ring));
    let rest = with_home(store(&rt, &ring)?, &text)?;
    let none = Ring::new(rt.alloc());
    let mut page = [0; 16384];
    let home = answer_of(rest, &none, &mut page);
    assert!(rt; home == Err(RestFault::NoVersion { id: 1, version: 1 }));
    Ok(())
}

// One byte of the body is inverted.
#[test]
fn a_damaged_page_on_a_disk_is_told(rt: HostRuntime) -> Result<(), Fail> {
    let ring = ring_of_one(&rt)?;
    let mut text = [0; 16384];
    write_text(&rt, &mut text, key_of_one(&ring));
    text[100] ^= 0xff;
    let rest = with_home(store(&rt, &ring)?, &text)?;
    let mut page = [0; 16384];
    let home = answer_of(rest, &ring, &mut page);
    assert!(rt;
        matches!(
            home,
            Err(RestFault::Damaged {
                space: 5,
                page: 3,
                fault: OpenFault::Checksum { .. },
            })
        )
    );
    Ok(())
}
