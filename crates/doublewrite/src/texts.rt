// Page texts, and batches of them.
use byte_list::fields::be32_at;
use bytes_core::ends_in_crc32c;
use page_places::PAGE_NUMBER_AT;
use std::marker::Model;

// A page of a store in bytes.
pub(crate) const PAGE: usize = page_places::PAGE_BYTES;

// The same for places of pages in a file.
pub(crate) const PAGE_BYTES: u64 = page_places::PAGE_BYTES as u64;

/// The text of a page: 16384 bytes that end in the CRC-32C of those before them. In contracts it is
/// the list of its bytes.
#[derive(Drop)]
pub struct PageText {
    bytes: Vec<u8>,
}

impl Model for PageText {
    ghost use Rattle.std.specs.Prelude.{List, ℕ};
    ghost use Rattle.doublewrite.specs.Text.{IsPageText};

    ghost Value = { List ℕ };

    ghost view = { λ text. text.bytes.items };

    ghost invariant = { λ text. IsPageText text.bytes.items };
}

impl PageText {
    ghost use Rattle.std.specs.Prelude.{◌≡◌, IfSome, IfNone};
    ghost use Rattle.doublewrite.specs.Text.{IsPageText, page_number_of};

    /// The text of these bytes. There is none exactly where they aren't 16384 bytes that end in
    /// their checksum.
    pub fn of(bytes: Vec<u8>) -> Option<PageText>
        ensures some { IfSome result (λ text. text ≡ bytes.items) }
        ensures none { IfNone result (IsPageText bytes.items → ⊥) }
    {
        if bytes.len() != PAGE {
            return None;
        }
        if !ends_in_crc32c(&bytes) {
            return None;
        }
        let _number = be32_at(&bytes, PAGE_NUMBER_AT);
        Some(PageText { bytes })
    }

    /// The bytes.
    pub fn bytes(&self) -> &[u8]
        ensures bytes { result.now ≡ self.now }
        ensures text { IsPageText self.now }
    {
        &self.bytes
    }

    /// The number of the page, which stands in clear.
    pub fn number(&self) -> u32
        ensures { result ≡ page_number_of self.now }
    {
        be32_at(&self.bytes, PAGE_NUMBER_AT)
    }
}

/// A list of page texts.
#[derive(Drop)]
pub struct PageTexts {
    items: Vec<PageText>,
}

impl Model for PageTexts {
    ghost use Rattle.std.specs.Prelude.{List, ℕ};

    ghost Value = { List (List ℕ) };

    ghost view = { λ texts. texts.items.items };
}

impl PageTexts {
    ghost use Rattle.std.specs.Prelude.{◌≡◌, ◌<◌, length, slice_index_or, []};
    ghost use Rattle.doublewrite.specs.Text.{ArePageTexts};

    /// The list of these texts.
    pub fn of(items: Vec<PageText>) -> PageTexts
        ensures { result ≡ items.items }
    {
        PageTexts { items }
    }

    /// How many texts there are.
    pub fn len(&self) -> usize
        ensures { result ≡ length self.now }
    {
        self.items.len()
    }

    /// The text at this place, from 0.
    pub fn get(&self, i: usize) -> &PageText
        requires { i < length self.now }
        ensures { result.now ≡ slice_index_or self.now i [] }
    {
        &self.items[i]
    }

    /// Tells in contracts that each of them is the text of a page.
    pub fn are_texts(&self)
        ensures { ArePageTexts self.now }
    {
        for i in 0..self.len() {
            let _text = self.get(i).bytes();
        }
    }
}

/// 1 to 64 page texts of one space, no two of the same page, that are written in this order.
#[derive(Drop)]
pub struct Texts {
    /// The space's id.
    pub space: u32,
    /// The number of the batch, which its slots tell.
    pub batch: u64,
    /// The texts.
    pub pages: PageTexts,
}
