// A page that is read in place.

ghost use Rattle.std.specs.Prelude.{◌≡◌, ℕ, ◌+◌, ◌++◌, List, length, MatchOption};
ghost use Rattle.byte_list.specs.Fields.{be16_at, be32_at, be64_at};
ghost use Rattle.page_text.specs.Parts.{IsPageSize, body, header, page_lsn_at, page_number_at, page_type_at, page_version_at, trailer};

use crate::is_page_size;
use crate::layout::{HEADER, LSN, PAGE_NUMBER, TRAILER, TYPE, VERSION};
use byte_list::fields::{be16_at, be32_at, be64_at};
use std::marker::Model;

/// A page of 4096, 8192, 16384, 32768 or 65536 bytes that is read in place. In contracts it is the
/// list of its bytes.
#[derive(Drop)]
pub struct PageView<'a> {
    bytes: &'a [u8],
}

impl<'a> Model for PageView<'a> {
    ghost Value = { List ℕ };

    ghost view = { λ page. page.bytes.now };

    ghost invariant = { λ page. IsPageSize (length page.bytes.now) };
}

impl<'a> PageView<'a> {
    /// The page of these bytes. There is none exactly where their number is none of the five page
    /// sizes.
    pub fn new(bytes: &'a [u8]) -> Option<PageView<'a>>
        ensures { MatchOption result (IsPageSize (length bytes.now) → ⊥) (λ page. (page ≡ bytes.now) × IsPageSize (length bytes.now)) }
    {
        if !is_page_size(bytes.len()) {
            return None;
        }
        Some(PageView { bytes })
    }

    /// Bytes 0 to 38.
    pub fn header(&self) -> &'a [u8]
        ensures { result.now ≡ header self.now }
    {
        &self.bytes[0..HEADER]
    }

    /// The bytes from 38 up to the last eight.
    #[tactic(auto, using(crate::proofs::PartLaws::parts_joined))]
    pub fn body(&self) -> &'a [u8]
        ensures value { result.now ≡ body self.now }
        ensures joined { header self.now ++ (result.now ++ trailer self.now) ≡ self.now }
    {
        &self.bytes[HEADER..self.bytes.len() - TRAILER]
    }

    /// The last eight bytes.
    pub fn trailer(&self) -> &'a [u8]
        ensures { result.now ≡ trailer self.now }
    {
        &self.bytes[self.bytes.len() - TRAILER..]
    }

    /// The key version, in the four bytes from 0, the highest first.
    pub fn version(&self) -> u32
        ensures { result ≡ be32_at self.now page_version_at }
    {
        be32_at(self.bytes, VERSION)
    }

    /// The page's number, in the four bytes from 4, the highest first.
    pub fn page(&self) -> u32
        ensures { result ≡ be32_at self.now page_number_at }
    {
        be32_at(self.bytes, PAGE_NUMBER)
    }

    /// The LSN of the last change, in the eight bytes from 16, the highest first.
    pub fn lsn(&self) -> u64
        ensures { result ≡ be64_at self.now page_lsn_at }
    {
        be64_at(self.bytes, LSN)
    }

    /// The page's type, in the two bytes from 24, the highest first.
    pub fn kind(&self) -> u16
        ensures { result ≡ be16_at self.now page_type_at }
    {
        be16_at(self.bytes, TYPE)
    }
}
