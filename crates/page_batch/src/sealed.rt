// A batch with the texts of its pages.
ghost use Rattle.std.specs.Prelude.{◌≡◌, ◌≢◌, ◌↔◌, ℕ, ◌<◌, ◌≤◌, ◌^◌, [], length, IsSome};
ghost use Rattle.std.specs.List.{All};
ghost use Rattle.std.specs.Vec.{vec_capacity};
ghost use Rattle.byte_list.specs.Fields.{be16_at};
ghost use Rattle.page_batch.specs.Batch.{AreTextsOfPages, IsTextOfPage};
ghost use Rattle.page_places.specs.Texts.{page_bytes, page_type_at};
ghost use Rattle.page_text.specs.Text.{FitsPage, IsText, plain_of};

use crate::PageBatch;
use crate::taken::CopiedBytes;
use doublewrite::PageText;
use page_text::{PageKey, PageMut, Seal, seal};
use std::marker::Model;

/// A page of a batch with its text. Contracts see its number, its LSN, its plain page, and the text.
#[derive(Drop)]
pub struct SealedPage {
    page: u32,
    lsn: u64,
    bytes: Vec<u8>,
    text: PageText,
}

impl Model for SealedPage {
    ghost use Rattle.std.specs.Prelude.{◌≡◌, length};
    ghost use Rattle.page_batch.specs.Batch.{TextOfPage};
    ghost use Rattle.page_places.specs.Texts.{page_bytes};
    ghost use Rattle.page_text.specs.Text.{plain_of};

    ghost Value = { TextOfPage };

    ghost view = { λ p. record { copied = record { page = p.page; lsn = p.lsn; plain = plain_of p.bytes.items }; text = p.text } };

    ghost invariant = { λ p. length p.bytes.items ≡ page_bytes };
}

/// A batch with the texts of its pages. Contracts see the space, the version, the local key, and each
/// page with its text.
#[derive(Drop)]
pub struct SealedBatch {
    space: u32,
    version: u32,
    key: Option<PageKey>,
    pages: Vec<SealedPage>,
    texts: Vec<PageText>,
}

impl Model for SealedBatch {
    ghost use Rattle.std.specs.Prelude.{◌≡◌, ◌≢◌, ◌↔◌, ◌≤◌, [], length, IsSome};
    ghost use Rattle.std.specs.List.{All};
    ghost use Rattle.std.specs.Vec.{vec_capacity};
    ghost use Rattle.page_batch.specs.Batch.{SealedState, IsTextOfPage};

    ghost Value = { SealedState };

    ghost view = { λ s. record { space = s.space; version = s.version; key = s.key; pages = s.pages.items } };

    ghost invariant = { λ s. All (IsTextOfPage s.space s.version s.key) s.pages.items × (length s.pages.items ≤ vec_capacity s.texts) × (s.texts.items ≡ []) × (IsSome s.key ↔ (s.version ≢ 0)) };
}

/// The parts of a sealed batch: what it has of each page, in order, and an empty list with room for the
/// texts of all.
#[derive(Drop)]
pub struct BatchParts {
    pub pages: Vec<SealedPage>,
    pub texts: Vec<PageText>,
}

impl SealedPage {
    /// The page's number.
    pub fn page(&self) -> u32
        ensures { result ≡ self.now.copied.page }
    {
        self.page
    }

    /// The LSN of its last change, when it was copied.
    pub fn lsn(&self) -> u64
        ensures { result ≡ self.now.copied.lsn }
    {
        self.lsn
    }

    /// The plain page in its 16384 bytes: its type at byte 24 and its body from byte 38 on. The other
    /// bytes are no part of it.
    pub fn bytes(&self) -> &[u8]
        ensures page { plain_of result.now ≡ self.now.copied.plain }
        ensures whole { length result.now ≡ page_bytes }
    {
        &self.bytes
    }

    /// Its text.
    pub fn into_text(self) -> PageText
        ensures { result ≡ self.text }
    {
        self.text
    }
}

impl SealedBatch {
    /// The space's id.
    pub fn space(&self) -> u32
        ensures { result ≡ self.now.space }
    {
        self.space
    }

    /// The version of the key.
    pub fn version(&self) -> u32
        ensures { result ≡ self.now.version }
    {
        self.version
    }

    /// The local key, None for version 0.
    pub fn key(&self) -> Option<PageKey>
        ensures { result ≡ self.now.key }
    {
        self.key
    }

    /// How many pages there are.
    pub fn len(&self) -> usize
        ensures { result ≡ length self.now.pages }
    {
        self.pages.len()
    }

    /// The pages with their texts, and room for the texts.
    pub fn take_apart(self) -> BatchParts
        ensures pages { result.pages.items ≡ self.pages }
        ensures texts { result.texts.items ≡ [] }
        ensures room { length self.pages ≤ vec_capacity result.texts }
        // Each text is that of its page, and a key is there exactly where the version isn't 0.
        ensures texts_of { All (IsTextOfPage self.space self.version self.key) self.pages }
        ensures keyed { IsSome self.key ↔ (self.version ≢ 0) }
    {
        let SealedBatch {
            space: _,
            version: _,
            key: _,
            pages,
            texts,
        } = self;
        BatchParts { pages, texts }
    }
}

fn seal_text(bytes: &mut [u8], plan: &Seal)
    requires long { length bytes.old ≡ page_bytes }
    requires keyed { IsSome plan.now.local ↔ (plan.now.version ≢ 0) }
    requires fits { FitsPage plan.now.page (be16_at bytes.old page_type_at) plan.now.version }
    ensures text { IsText page_bytes plan.now.space plan.now.page plan.now.lsn plan.now.version plan.now.local (plain_of bytes.old) bytes.new }
    ensures long { length bytes.new ≡ page_bytes }
{
    let mut text = PageMut::of(bytes);
    seal(&mut text, plan);
}

fn known_number(page: u32)
    ensures { page < 2 ^ 32 }
{
    let _ = page;
}

// A page with its text.
fn seal_page(copied: CopiedBytes, space: u32, version: u32, key: &Option<PageKey>) -> SealedPage
    requires { IsSome key.now ↔ (version ≢ 0) }
    ensures page { result.copied ≡ copied }
    ensures text { IsTextOfPage space version key.now result }
{
    let CopiedBytes {
        page,
        lsn,
        bytes,
        mut copy,
    } = copied;
    let (version, local) = if page == 0 {
        (0, None)
    } else {
        (version, *key)
    };
    let plan = Seal {
        space,
        page,
        lsn,
        version,
        local,
    };
    known_number(page);
    seal_text(copy.as_mut_slice(), &plan);
    let Some(text) = PageText::of(copy) else {
        unreachable!();
    };
    SealedPage {
        page,
        lsn,
        bytes,
        text,
    }
}

/// Seals the pages of a batch. It takes no memory.
pub fn seal_batch(batch: PageBatch) -> SealedBatch
    ensures space { result.space ≡ batch.space }
    ensures version { result.version ≡ batch.version }
    ensures key { result.key ≡ batch.key }
    ensures pages { AreTextsOfPages batch.space batch.version batch.key batch.pages result.pages }
{
    let PageBatch {
        alloc: _,
        space,
        version,
        key,
        pages,
        room: _,
        mut sealed,
        texts,
    } = batch;
    for copied in pages {
        let Ok(()) = sealed.push(seal_page(copied, space, version, &key)) else {
            unreachable!();
        };
    }
    SealedBatch {
        space,
        version,
        key,
        pages: sealed,
        texts,
    }
}
