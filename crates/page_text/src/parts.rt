// A page that is written in place, through the parts that it lends.

ghost use Rattle.std.specs.Prelude.{◌≡◌, ℕ, ◌+◌, ◌-◌, ◌≤◌, true, List, length, IfSome, MatchOption};
ghost use Rattle.std.specs.Borrow.{sem, Lends, Array, u8};
ghost use Rattle.page_text.specs.Parts.{IsPageSize, body, cipher_part, header, page_cipher_at, page_frame_size, page_header_size, page_sum_size, page_trailer_size, part_of, trailer, with_part};

use crate::layout::{CHECKSUM, CIPHERED, HEADER, TRAILER};

/// Whether a page can have `length` bytes: 4096, 8192, 16384, 32768 or 65536.
pub fn is_page_size(length: usize) -> bool
    ensures yes { result ≡ true → IsPageSize length }
    ensures no { IsPageSize length → result ≡ true }
{
    matches!(length, 4096 | 8192 | 16384 | 32768 | 65536)
}

/// Bytes that lend their parts to be written, as a `&mut [u8]` does. A page is generic over them,
/// since a proof follows what is written through a part of a slice that a struct holds only where
/// the slice stands behind a type parameter.
pub trait PageBytes {
    /// The bytes, as a list.
    ghost bytes: { Self → List ℕ };

    /// The same place with other bytes.
    ghost with_bytes: { Self → List ℕ → Self };

    /// How many bytes there are.
    fn count(&self) -> usize
        ensures { result ≡ length (Self.bytes self.now) };

    /// The bytes from `at` up to `to`, to be written.
    fn part_mut(&mut self, at: usize, to: usize) -> &mut [u8]
        requires { (at ≤ to) × (to ≤ length (Self.bytes self.old)) }
        ensures* writes_back { sem 𝓛 (Lends Self.row (Array u8 0) self.entry result (λ part. Self.with_bytes self.old (with_part (Self.bytes self.old) at to part))) }
        ensures value { (result.now ≡ part_of (Self.bytes self.old) at to) × (length result.now + at ≡ to) };
}

impl PageBytes for &mut [u8] {
    ghost bytes = { λ slice. slice.now };

    ghost with_bytes = { λ slice bytes. record slice { now = bytes } };

    fn count(&self) -> usize {
        self.len()
    }

    fn part_mut(&mut self, at: usize, to: usize) -> &mut [u8] {
        &mut self[at..to]
    }
}

/// A page of 4096, 8192, 16384, 32768 or 65536 bytes that is written in place, in bytes that it
/// holds as `B`: see [`PageMut`].
#[derive(Drop)]
pub struct WritablePage<B> {
    pub(crate) bytes: B,
}

/// A page that is written in place in a borrowed slice. In contracts `bytes.now` of it is the list
/// of its bytes, and `bytes.ghost_name` stands for the slice: what takes a `&mut PageMut` keeps it.
pub type PageMut<'a> = WritablePage<&'a mut [u8]>;

impl<'a> WritablePage<&'a mut [u8]> {
    /// The page of these bytes. There is none exactly where their number is none of the five page
    /// sizes. What becomes of the slice is known only of a page made by [`PageMut::of`].
    pub fn new(bytes: &'a mut [u8]) -> Option<PageMut<'a>>
        ensures value { MatchOption result (IsPageSize (length bytes.old) → ⊥) (λ page. (page.bytes.now ≡ bytes.old) × IsPageSize (length bytes.old)) }
        ensures same_reference { IfSome result (λ page. page.bytes.ghost_name ≡ bytes.entry.ghost_name) }
    {
        if !is_page_size(bytes.len()) {
            return None;
        }
        Some(WritablePage { bytes })
    }

    /// The page of bytes whose number is known to be a page size, as [`is_page_size`] tells. Once
    /// the page is gone the slice is as the page was left.
    pub fn of(bytes: &'a mut [u8]) -> PageMut<'a>
        requires { IsPageSize (length bytes.old) }
        ensures value { result.bytes.now ≡ bytes.old }
        ensures same_reference { result.bytes.ghost_name ≡ bytes.entry.ghost_name }
    {
        WritablePage { bytes }
    }

    /// The page's bytes, to be read.
    pub fn bytes(&self) -> &[u8]
        ensures { result.now ≡ self.now.bytes.now }
    {
        &*self.bytes
    }
}

impl<B: PageBytes> WritablePage<B> {
    ghost use Rattle.page_text.specs.Lends.{LendsPart};

    /// Bytes 0 to 38, to be written. Each part needs the 46 bytes of header and trailer, which a page
    /// of every size has.
    pub fn header_mut(&mut self) -> &mut [u8]
        requires { page_frame_size ≤ length (B.bytes self.old.bytes) }
        ensures* writes_back { sem 𝓛 (LendsPart B.row B.bytes B.with_bytes self.entry 0 page_header_size result) }
        ensures value { result.now ≡ header (B.bytes self.old.bytes) }
        ensures long { length result.now ≡ page_header_size }
    {
        self.bytes.part_mut(0, HEADER)
    }

    /// The bytes from 38 up to the last eight, to be written.
    pub fn body_mut(&mut self) -> &mut [u8]
        requires { page_frame_size ≤ length (B.bytes self.old.bytes) }
        ensures* writes_back { sem 𝓛 (LendsPart B.row B.bytes B.with_bytes self.entry page_header_size (length (B.bytes self.old.bytes) - page_trailer_size) result) }
        ensures value { result.now ≡ body (B.bytes self.old.bytes) }
        ensures long { length result.now + page_frame_size ≡ length (B.bytes self.old.bytes) }
    {
        let end = self.bytes.count() - TRAILER;
        self.bytes.part_mut(HEADER, end)
    }

    /// The part that is ciphered, to be written: the bytes from 26 up to the last four.
    pub fn cipher_mut(&mut self) -> &mut [u8]
        requires { page_frame_size ≤ length (B.bytes self.old.bytes) }
        ensures* writes_back { sem 𝓛 (LendsPart B.row B.bytes B.with_bytes self.entry page_cipher_at (length (B.bytes self.old.bytes) - page_sum_size) result) }
        ensures value { result.now ≡ cipher_part (B.bytes self.old.bytes) }
        ensures long { length result.now + 30 ≡ length (B.bytes self.old.bytes) }
    {
        let end = self.bytes.count() - CHECKSUM;
        self.bytes.part_mut(CIPHERED, end)
    }

    /// The last eight bytes, to be written.
    pub fn trailer_mut(&mut self) -> &mut [u8]
        requires { page_frame_size ≤ length (B.bytes self.old.bytes) }
        ensures* writes_back { sem 𝓛 (LendsPart B.row B.bytes B.with_bytes self.entry (length (B.bytes self.old.bytes) - page_trailer_size) (length (B.bytes self.old.bytes)) result) }
        ensures value { result.now ≡ trailer (B.bytes self.old.bytes) }
        ensures long { length result.now ≡ page_trailer_size }
    {
        let end = self.bytes.count();
        self.bytes.part_mut(end - TRAILER, end)
    }
}
