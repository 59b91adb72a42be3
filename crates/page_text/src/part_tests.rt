ghost use Rattle.std.specs.Prelude.{◌≡◌, ◌+◌, ◌-◌, length};
ghost use Rattle.page_text.specs.Parts.{IsPageSize, with_part};

use crate::{PageMut, PageView, is_page_size};
use std::process::Abort;

// What is written through the body is the page's new body, and all else stays.
fn write_body(page: &mut PageMut, body: &[u8])
    requires sized { IsPageSize (length page.old.bytes.now) }
    requires long { length body.now + 46 ≡ length page.old.bytes.now }
    ensures value { page.new.bytes.now ≡ with_part page.old.bytes.now 38 (length page.old.bytes.now - 8) body.now }
    ensures same_reference { page.new.bytes.ghost_name ≡ page.old.bytes.ghost_name }
{
    page.body_mut().copy_from_slice(body);
}

// The same of a slice, once the page made over it is gone.
fn write_body_in_place(bytes: &mut [u8], body: &[u8])
    requires sized { IsPageSize (length bytes.old) }
    requires long { length body.now + 46 ≡ length bytes.old }
    ensures { bytes.new ≡ with_part bytes.old 38 (length bytes.old - 8) body.now }
{
    let mut page = PageMut::of(bytes);
    write_body(&mut page, body);
}

// Two parts, one after the other.
fn write_body_and_header(page: &mut PageMut, header: &[u8], body: &[u8])
    requires sized { IsPageSize (length page.old.bytes.now) }
    requires header_long { length header.now ≡ 38 }
    requires body_long { length body.now + 46 ≡ length page.old.bytes.now }
    ensures { page.new.bytes.now ≡ with_part (with_part page.old.bytes.now 38 (length page.old.bytes.now - 8) body.now) 0 38 header.now }
{
    page.body_mut().copy_from_slice(body);
    page.header_mut().copy_from_slice(header);
}

#[test]
fn a_page_of_its_own_is_written_through_its_body(rt: HostRuntime) {
    let mut bytes = [7; 4096];
    write_body_in_place(&mut bytes, &[9; 4050]);
    let (before, first, last, after) = (bytes[37], bytes[38], bytes[4087], bytes[4088]);
    assert!(rt; (before, first, last, after) == (7, 9, 9, 7));
    let mut page = PageMut::of(&mut bytes);
    write_body_and_header(&mut page, &[5; 38], &[6; 4050]);
    assert!(rt; page.bytes()[0] == 5 && page.bytes()[38] == 6);
}

// The parts of a page of zeros, written one after the other.
fn check_parts(rt: &impl Abort, bytes: &mut [u8])
    requires { IsPageSize (length bytes.old) }
{
    let n = bytes.len();
    let mut page = PageMut::of(bytes);
    page.cipher_mut().fill(3);
    let now = page.bytes();
    assert!(rt; now.len() == n && n >= 4096);
    assert!(rt; now[25] == 0 && now[26] == 3 && now[n - 5] == 3 && now[n - 4] == 0);
    page.body_mut().fill(2);
    let now = page.bytes();
    assert!(rt; now.len() == n);
    assert!(rt; now[37] == 3 && now[38] == 2 && now[n - 9] == 2 && now[n - 8] == 3);
    page.header_mut().fill(1);
    assert!(rt; page.bytes().len() == n);
    page.trailer_mut().fill(4);
    let now = page.bytes();
    assert!(rt; now.len() == n);
    assert!(rt; now[0] == 1 && now[37] == 1 && now[38] == 2);
    assert!(rt; now[n - 9] == 2 && now[n - 8] == 4 && now[n - 1] == 4);
}

#[test]
fn parts_lie_at_their_places_in_small_pages(rt: HostRuntime) {
    check_parts(&rt, &mut [0; 4096]);
    check_parts(&rt, &mut [0; 8192]);
    check_parts(&rt, &mut [0; 16384]);
}

#[test]
fn parts_lie_at_their_places_in_large_pages(rt: HostRuntime) {
    check_parts(&rt, &mut [0; 32768]);
    check_parts(&rt, &mut [0; 65536]);
}

#[test]
fn only_five_sizes_make_a_page(rt: HostRuntime) {
    let bytes = [0; 65537];
    for n in [4096, 8192, 16384, 32768, 65536] {
        assert!(rt; is_page_size(n) && PageView::new(&bytes[..n]).is_some());
        assert!(rt; PageView::new(&bytes[..n - 1]).is_none());
        assert!(rt; PageView::new(&bytes[..n + 1]).is_none());
    }
    assert!(rt; PageView::new(&bytes[..0]).is_none());
    assert!(rt; PageMut::new(&mut [0; 4096]).is_some());
    assert!(rt; PageMut::new(&mut [0; 4095]).is_none());
}

// Version 2, page 259, no neighbours, LSN 4294967301, type 17855.
const HEADER: [u8; 38] = [
    0, 0, 0, 2, 0, 0, 1, 3, 0xff, 0xff, 0xff, 0xff, 0xff, 0xff, 0xff, 0xff, 0, 0, 0, 1, 0, 0, 0, 5,
    0x45, 0xbf, 0, 0, 0, 0, 0, 0, 0, 0, 0, 0, 0, 7,
];

const TRAILER: [u8; 8] = [0, 0, 0, 5, 1, 2, 3, 4];

fn check_fields(rt: &impl Abort, bytes: &[u8]) {
    let Some(page) = PageView::new(bytes) else {
        assert!(rt; false);
        return;
    };
    assert!(rt; page.version() == 2 && page.page() == 259);
    assert!(rt; page.lsn() == 4294967301 && page.kind() == 17855);
    assert!(rt; page.header() == HEADER.as_slice() && page.body().len() == 8146);
    assert!(rt; page.trailer() == TRAILER.as_slice());
}

#[test]
fn fields_are_read_at_their_places(rt: HostRuntime) {
    let mut bytes = [0xee; 8192];
    let mut page = PageMut::of(&mut bytes);
    page.header_mut().copy_from_slice(&HEADER);
    page.trailer_mut().copy_from_slice(&TRAILER);
    check_fields(&rt, page.bytes());
}
