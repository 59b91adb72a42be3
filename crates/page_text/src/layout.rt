// Where the fields of a page stand, in bytes from its first (MariaDB's full_crc32).

// The key version, four bytes.
pub(crate) const VERSION: usize = 0;

// The page's number, four bytes.
pub(crate) const PAGE_NUMBER: usize = 4;

// The previous page of an index, four bytes, which this project doesn't use.
pub(crate) const PREVIOUS: usize = 8;

// The next page of an index, four bytes, which this project doesn't use.
pub(crate) const NEXT: usize = 12;

// The LSN of the last change, eight bytes.
pub(crate) const LSN: usize = 16;

// The page's type, two bytes.
pub(crate) const TYPE: usize = 24;

// The first byte that is ciphered, and the LSN of a flush, eight bytes, which this project doesn't use.
pub(crate) const CIPHERED: usize = 26;

// The space's id, four bytes.
pub(crate) const SPACE: usize = 34;

// The length of the header, and the first byte of the body.
pub(crate) const HEADER: usize = 38;

// The length of the trailer: the low half of the LSN, and the checksum.
pub(crate) const TRAILER: usize = 8;

// The length of the checksum, in the last bytes of the page.
pub(crate) const CHECKSUM: usize = 4;
