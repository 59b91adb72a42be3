// The measurements of pages, and of cipher and checksum alone on the same bytes.
use crate::figure::timed;
use aes_core::{Algorithm, BlockKey, cbc_tail_decrypt, cbc_tail_encrypt};
use anyhow::{Result, bail};
use bytes_core::crc32c;
use page_places::{PAGE_BODY_AT, PAGE_BYTES, PAGE_SUM_AT};
use page_text::{PageKey, PageMut, PageView, Seal, seal, unseal};
use std::alloc::Global;
use std::io::Print;
use std::time::Clock;

type Page = [u8; PAGE_BYTES];

/// As many pages as come to 64 MiB.
const PAGES: usize = 4096;

const BYTES: usize = PAGE_BYTES * PAGES;

/// A page has type 0x0505 and a body of bytes 5.
const FIRST: Page = [5; PAGE_BYTES];

/// Where the bytes of a page begin that are ciphered, and where its body ends.
const CIPHERED_AT: usize = 26;

const BODY_END: usize = PAGE_BYTES - 8;

const LOCAL: [u8; 16] = [3; 16];

const IV: [u8; 16] = [9; 16];

const SPACE: u32 = 5;

/// The number of each page: their texts differ by the LSN.
const NUMBER: u32 = 3;

fn seal_page(bytes: &mut Page, lsn: u64, key: PageKey) -> Result<()> {
    let Some(view) = PageView::new(bytes) else {
        unreachable!()
    };
    let kind = view.kind();
    if kind == 8 || kind == 9 {
        bail!("page {NUMBER} may not have type {kind}");
    }
    let plan = Seal {
        space: SPACE,
        page: NUMBER,
        lsn,
        version: 1,
        local: Some(key),
    };
    seal(&mut PageMut::of(bytes), &plan);
    Ok(())
}

fn seal_pages(pages: &mut [Page], key: PageKey) -> Result<()> {
    for (lsn, page) in pages.iter_mut().enumerate() {
        seal_page(page, lsn as u64, key)?;
    }
    Ok(())
}

fn unseal_pages(pages: &mut [Page], key: &PageKey) -> Result<()> {
    for page in pages.iter_mut() {
        unseal(&mut PageMut::of(page), SPACE, NUMBER, Some(key))?;
    }
    Ok(())
}

// The sums, added up, of the pages' cipher texts.
fn encrypt_pages(pages: &mut [Page], key: &BlockKey) -> u32 {
    let mut sums = 0u32;
    for page in pages.iter_mut() {
        cbc_tail_encrypt(key, &IV, &mut page[CIPHERED_AT..PAGE_SUM_AT]);
        sums = sums.wrapping_add(crc32c(&page[..PAGE_SUM_AT]));
    }
    sums
}

// The same of the cipher texts that are decrypted.
fn decrypt_pages(pages: &mut [Page], key: &BlockKey) -> u32 {
    let mut sums = 0u32;
    for page in pages.iter_mut() {
        sums = sums.wrapping_add(crc32c(&page[..PAGE_SUM_AT]));
        cbc_tail_decrypt(key, &IV, &mut page[CIPHERED_AT..PAGE_SUM_AT]);
    }
    sums
}

fn compare_bodies(pages: &[Page]) -> Result<()> {
    for page in pages.iter() {
        if page[PAGE_BODY_AT..BODY_END] != FIRST[PAGE_BODY_AT..BODY_END] {
            bail!("a page does not come back");
        }
    }
    Ok(())
}

/// Times 4096 pages of 16384 bytes, sealed and unsealed in AES_CBC under a local key; and beside
/// each, on pages of the same bytes, what of it is cipher and checksum: CBC with tail on bytes 26 to
/// 16380, and CRC-32C of the first 16380. It fails where a page's body does not come back.
pub fn measure(alloc: Global, rt: &(impl Print + Clock)) -> Result<()> {
    let key = PageKey {
        local: LOCAL,
        algorithm: Algorithm::Cbc,
    };
    let Some(block_key) = BlockKey::new(&LOCAL) else {
        bail!("a key of 16 bytes is refused");
    };
    let mut pages = vec![in alloc; FIRST; PAGES]?;
    let mut others = vec![in alloc; FIRST; PAGES]?;
    timed!(
        rt,
        "pages of 16 KiB, seal",
        BYTES,
        seal_pages(&mut pages, key)?
    );
    let encrypted = timed!(
        rt,
        "cipher and checksum alone, encrypt",
        BYTES,
        encrypt_pages(&mut others, &block_key)
    );
    timed!(
        rt,
        "pages of 16 KiB, unseal",
        BYTES,
        unseal_pages(&mut pages, &key)?
    );
    let decrypted = timed!(
        rt,
        "cipher and checksum alone, decrypt",
        BYTES,
        decrypt_pages(&mut others, &block_key)
    );
    if encrypted != decrypted {
        bail!("the checksums differ");
    }
    compare_bodies(&pages)?;
    compare_bodies(&others)
}
