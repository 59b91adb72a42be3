// What a page is read from, and what with.
use image_log::StoreHeader;
use key_ring::Ring;

/// A page, and the bytes that it may be read from.
#[derive(Drop)]
pub struct PageSource<'a> {
    /// The 16384 bytes of its home.
    pub home: &'a [u8],
    /// The doublewrite file.
    pub double: &'a [u8],
    pub space: u32,
    pub number: u32,
}

/// What the texts of a space's pages are read with: the mode of the store, its keys, and the id and
/// the salt of the space's key.
#[derive(Drop)]
pub struct SpaceKeys<'a> {
    pub header: &'a StoreHeader,
    pub ring: &'a Ring,
    pub key_id: u32,
    pub salt: &'a [u8; 16],
}
