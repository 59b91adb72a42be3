// Why a page text isn't taken.
use thiserror::Error;

/// Why a page isn't a page text of a space, a page and a key: the first reason in this order, with
/// what was wanted and what was found. The first three leave the page as it was, the others leave it
/// deciphered.
#[derive(Clone, Copy, Debug, PartialEq, Eq, Error)]
pub enum OpenFault {
    /// The last four bytes aren't the CRC-32C of all bytes before them.
    #[error("checksum {stored:08x} where the bytes have {computed:08x}")]
    Checksum { stored: u32, computed: u32 },
    /// The page number at byte 4 is another.
    #[error("page {found} where page {wanted} must stand")]
    WrongPage { wanted: u32, found: u32 },
    /// Page 0 has another type than 8 or a key version other than 0, or another page has type 8 or 9.
    #[error("a page of type {found} and key version {version} may not stand here")]
    WrongKind { found: u16, version: u32 },
    /// The space id at byte 34 is another.
    #[error("space {found} where space {wanted} must stand")]
    WrongSpace { wanted: u32, found: u32 },
    /// The four bytes before the checksum aren't the low half of the LSN.
    #[error("page end {found:08x} where the LSN ends in {wanted:08x}")]
    WrongEnd { wanted: u32, found: u32 },
    /// The first of prev (at byte 8, ffffffff), next (at 12, ffffffff) and flush LSN (at 26, 0) that
    /// has another value, with that whole value.
    #[error("value {found:x} at byte {at}")]
    WrongFill { at: usize, found: u64 },
}
