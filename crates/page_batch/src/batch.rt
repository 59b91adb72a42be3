// A batch of pages that are to be sealed.
ghost use Rattle.std.specs.Prelude.{◌≡◌, ◌≢◌, ◌↔◌, ◌<◌, ◌++◌, ◌∷◌, [], length, IsSome, IfOk, OnOk, OnErr};
ghost use Rattle.byte_list.specs.Fields.{be16_at};
ghost use Rattle.page_batch.specs.Batch.{HasPageType};
ghost use Rattle.page_places.specs.Texts.{page_bytes, page_type_at};
ghost use Rattle.page_text.specs.Text.{plain_of};

use crate::SealedPage;
use crate::taken::CopiedBytes;
use cause_core::OutOfMemory;
use doublewrite::PageText;
use page_text::PageKey;
use std::alloc::Global;
use std::marker::Model;

/// Copies of pages of one space, with the version and the local key that they are to be sealed under.
/// Contracts see these, the pages in order, and how many it has room for.
#[derive(Drop)]
pub struct PageBatch {
    pub(crate) alloc: Global,
    pub(crate) space: u32,
    pub(crate) version: u32,
    pub(crate) key: Option<PageKey>,
    pub(crate) pages: Vec<CopiedBytes>,
    pub(crate) room: usize,
    // Room for the sealed pages, and for the texts that are written.
    pub(crate) sealed: Vec<SealedPage>,
    pub(crate) texts: Vec<PageText>,
}

impl Model for PageBatch {
    ghost use Rattle.std.specs.Prelude.{◌≡◌, []};
    ghost use Rattle.std.specs.Vec.{vec_capacity};
    ghost use Rattle.page_batch.specs.Batch.{BatchState, IsPageBatch};

    ghost Value = { BatchState };

    ghost view = { λ b. record { space = b.space; version = b.version; key = b.key; pages = b.pages.items; room = b.room } };

    ghost invariant = { λ b. IsPageBatch (record { space = b.space; version = b.version; key = b.key; pages = b.pages.items; room = b.room }) (vec_capacity b.sealed) (vec_capacity b.texts) × (b.sealed.items ≡ []) × (b.texts.items ≡ []) };
}

impl PageBatch {
    /// A batch without pages, with room for so many. A key must be there exactly where the version isn't
    /// 0.
    ///
    /// # Errors
    /// [`OutOfMemory`].
    pub fn new(
        alloc: Global,
        space: u32,
        version: u32,
        key: Option<PageKey>,
        room: usize,
    ) -> Result<PageBatch, OutOfMemory>
        requires { IsSome key ↔ (version ≢ 0) }
        ensures { IfOk result (λ b. b ≡ record { space = space; version = version; key = key; pages = []; room = room }) }
    {
        let pages = Vec::with_capacity(alloc, room)?;
        let sealed = Vec::with_capacity(alloc, room)?;
        let texts = Vec::with_capacity(alloc, room)?;
        Ok(PageBatch {
            alloc,
            space,
            version,
            key,
            pages,
            room,
            sealed,
            texts,
        })
    }

    /// Adds a copy of a page: its number, the LSN of its last change and its 16384 bytes, of which the
    /// type and the body count. Page 0 must have type 8, and no other page type 8 or 9.
    ///
    /// # Errors
    /// [`OutOfMemory`], and the batch is as it was.
    pub fn push(&mut self, page: u32, lsn: u64, bytes: &[u8]) -> Result<(), OutOfMemory>
        requires room { length self.old.pages < self.old.room }
        requires long { length bytes.now ≡ page_bytes }
        requires typed { HasPageType page (be16_at bytes.now page_type_at) }
        ensures added { OnOk result (self.new ≡ record self.old { pages = self.old.pages ++ (record { page = page; lsn = lsn; plain = plain_of bytes.now }) ∷ [] }) }
        ensures unchanged { OnErr result (self.new ≡ self.old) }
    {
        let copied = CopiedBytes::of(self.alloc, page, lsn, bytes)?;
        match self.pages.push(copied) {
            Ok(()) => Ok(()),
            Err(_) => Err(OutOfMemory),
        }
    }

    /// The space's id.
    pub fn space(&self) -> u32
        ensures { result ≡ self.now.space }
    {
        self.space
    }

    /// How many pages there are.
    pub fn len(&self) -> usize
        ensures { result ≡ length self.now.pages }
    {
        self.pages.len()
    }
}
