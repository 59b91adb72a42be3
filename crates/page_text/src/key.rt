// What a page is sealed with.
use aes_core::Algorithm;

/// The key that a page's part from byte 26 to the checksum is ciphered with.
#[derive(Clone, Copy, PartialEq, Eq)]
pub struct PageKey {
    /// The local key, made of a versioned key and the space's salt.
    pub local: [u8; 16],
    /// The mode of the store.
    pub algorithm: Algorithm,
}

/// What goes into a page's text beside its type and body.
#[derive(Clone, Copy, PartialEq, Eq)]
pub struct Seal {
    /// The space's id.
    pub space: u32,
    /// The page's number in its space, from 0 on.
    pub page: u32,
    /// The page's LSN.
    pub lsn: u64,
    /// The version of the key, 0 for a page in clear.
    pub version: u32,
    /// The key, for a page that isn't in clear.
    pub local: Option<PageKey>,
}
