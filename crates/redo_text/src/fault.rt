// Why a text isn't taken.
use thiserror::Error;

/// Why 4096 bytes aren't a ring block of a number: the first reason in this order, with what was
/// wanted and what was found.
#[derive(Clone, Copy, Debug, PartialEq, Eq, Error)]
pub enum BlockFault {
    /// The last four bytes aren't the CRC-32C of all bytes before them.
    #[error("checksum {stored:08x} where the bytes have {computed:08x}")]
    BadBlock { stored: u32, computed: u32 },
    /// The number at byte 0 is another.
    #[error("block {found} where block {wanted} must stand")]
    WrongNumber { wanted: u64, found: u64 },
    /// The first field that the format doesn't allow, by its place: the key version at byte 8 is 0;
    /// the used length at byte 12 is none of 1 to 4076, or not 4076 in a block that isn't the last of
    /// its mini-transaction; the flags at byte 14 have a bit beyond the first two.
    #[error("no head of a block at byte {at}")]
    BadHead { at: usize },
}

/// No change begins here, in bytes from the text's beginning.
#[derive(Clone, Copy, Debug, PartialEq, Eq, Error)]
#[error("no change at byte {at}")]
pub struct BadRecord {
    pub at: usize,
}
