// A page is copied and sealed, and its text taken apart.
ghost use Rattle.std.specs.Prelude.{◌≡◌, ◌<◌, length};

use crate::{PageBatch, seal_batch};
use aes_core::Algorithm;
use byte_list::fields::{be16_at, be32_at, be64_at, put};
use byte_list::zero_bytes;
use cause_core::OutOfMemory;
use page_text::{PageKey, PageMut, unseal};
use std::process::Abort;
use std::test::Fail;

// Adds a copy of page 1, of type 0, at LSN 12288.
fn push_one(rt: &impl Abort, batch: &mut PageBatch, page: &[u8]) -> Result<(), OutOfMemory>
    requires { length batch.old.pages < batch.old.room }
{
    assert!(rt; page.len() == 16384);
    let kind = be16_at(page, 24);
    assert!(rt; kind == 0);
    batch.push(1, 12288, page)
}

fn write_two(rt: &impl Abort, page: &mut [u8]) {
    assert!(rt; page.len() == 16384);
    put(page, 38, &[0xaa, 0xbb]);
}

fn is_opened(text: &mut [u8], key: Option<&PageKey>) -> bool
    requires { length text.old ≡ 16384 }
{
    if be32_at(text, 0) != 0 && key.is_none() {
        return false;
    }
    let mut page = PageMut::of(text);
    unseal(&mut page, 5, 1, key).is_ok()
}

#[test]
fn a_page_is_sealed(rt: HostRuntime) -> Result<(), Fail> {
    let key = PageKey {
        local: [7; 16],
        algorithm: Algorithm::Ctr,
    };
    let mut page = zero_bytes(rt.alloc(), 16384)?;
    write_two(&rt, &mut page);
    let mut batch = PageBatch::new(rt.alloc(), 5, 3, Some(key), 1)?;
    push_one(&rt, &mut batch, &page)?;
    assert_eq!(rt; (batch.space(), batch.len()), (5, 1));
    let sealed = seal_batch(batch);
    assert_eq!(rt; (sealed.space(), sealed.version(), sealed.len()), (5, 3, 1));
    assert!(rt; sealed.key() == Some(key));
    let mut parts = sealed.take_apart();
    let Some(first) = parts.pages.pop() else {
        return Ok(());
    };
    assert_eq!(rt; (first.page(), first.lsn()), (1, 12288));
    assert_eq!(rt; (first.bytes()[38], first.bytes()[39]), (0xaa, 0xbb));
    let text = first.into_text();
    assert_eq!(rt;
        (
            be32_at(text.bytes(), 0),
            text.number(),
            be64_at(text.bytes(), 16)
        ),
        (3, 1, 12288)
    );
    let mut bytes = text.bytes().to_vec(rt.alloc())?;
    assert!(rt; is_opened(&mut bytes, Some(&key)));
    assert_eq!(rt; (bytes[38], bytes[39]), (0xaa, 0xbb));
    Ok(())
}
