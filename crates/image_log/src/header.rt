// The header of a store, block 0 of its log's file, with its spaces in a list.
ghost use Rattle.std.specs.Prelude.{◌≡◌, ◌≤◌, length, map, take, IfOk};
ghost use Rattle.store_files.specs.Header.{header_in, most_ring_blocks, most_spaces};
ghost use Rattle.store_form.specs.Said.{header_said, space_said};
ghost use Rattle.store_image.specs.View.{block_bytes};

use aes_core::Algorithm;
use cause_core::OutOfMemory;
use std::alloc::Global;
use std::marker::Model;
use store_files::MOST_SPACES;
use store_form::{Header, HeaderSpace};

/// A space, as a store's header names it. In contracts it is a `HeldSpace`.
#[derive(Debug, Drop)]
pub struct StoreSpace {
    space: u32,
    pages: u32,
    key_id: u32,
}

impl Model for StoreSpace {
    ghost use Rattle.store_files.specs.Header.{HeldSpace};

    ghost Value = { HeldSpace };

    ghost view = { λ s. record { space = s.space; pages = s.pages; key_id = s.key_id } };
}

impl StoreSpace {
    /// The space's id.
    pub fn space(&self) -> u32
        ensures { result ≡ self.now.space }
    {
        self.space
    }

    /// Its size in pages, page 0 included.
    pub fn pages(&self) -> u32
        ensures { result ≡ self.now.pages }
    {
        self.pages
    }

    /// The id of the key that its pages are ciphered with.
    pub fn key_id(&self) -> u32
        ensures { result ≡ self.now.key_id }
    {
        self.key_id
    }
}

/// What a header says. In contracts it is a `HeldHeader`.
#[derive(Debug, Drop)]
pub struct StoreHeader {
    algorithm: Algorithm,
    blocks: u32,
    salt: [u8; 16],
    spaces: Vec<StoreSpace>,
}

impl Model for StoreHeader {
    ghost use Rattle.store_files.specs.Header.{HeldHeader};

    ghost Value = { HeldHeader };

    ghost view = { λ h. record { algorithm = h.algorithm; blocks = h.blocks; salt = h.salt; spaces = h.spaces.items } };
}

impl StoreHeader {
    /// The mode that the store's texts are ciphered in.
    pub fn algorithm(&self) -> Algorithm
        ensures { result ≡ self.now.algorithm }
    {
        self.algorithm
    }

    /// The number of ring blocks.
    pub fn blocks(&self) -> u32
        ensures { result ≡ self.now.blocks }
    {
        self.blocks
    }

    /// What the log's local keys are made from.
    pub fn salt(&self) -> &[u8; 16]
        ensures { result.now ≡ self.now.salt }
    {
        &self.salt
    }

    /// The spaces, in order of id.
    pub fn spaces(&self) -> &[StoreSpace]
        ensures { result.now ≡ self.now.spaces }
    {
        &self.spaces
    }
}

fn space_of(space: &HeaderSpace) -> StoreSpace
    ensures { result ≡ space_said space.now }
{
    StoreSpace {
        space: space.space,
        pages: space.pages,
        key_id: space.key_id,
    }
}

fn list_of(alloc: Global, spaces: &[HeaderSpace]) -> Result<Vec<StoreSpace>, OutOfMemory>
    ensures { IfOk result (λ list. list.items ≡ map space_said spaces.now) }
{
    let mut list = Vec::new(alloc);
    for space in spaces {
        list.push(space_of(space))?;
    }
    Ok(list)
}

// The first spaces, in a list.
fn first_spaces(
    alloc: Global,
    spaces: &[HeaderSpace; MOST_SPACES],
    count: usize,
) -> Result<Vec<StoreSpace>, OutOfMemory>
    requires { count ≤ most_spaces }
    ensures { IfOk result (λ list. list.items ≡ map space_said (take count spaces.now)) }
{
    list_of(alloc, &spaces[..count])
}

// What a header says, with its spaces in a list.
fn listed(alloc: Global, header: &Header) -> Result<StoreHeader, OutOfMemory>
    requires count { header.now.count ≤ most_spaces }
    requires blocks { header.now.blocks ≤ most_ring_blocks }
    ensures { IfOk result (λ listed. listed ≡ header_said header.now) }
{
    let salt = header.salt;
    let spaces = first_spaces(alloc, &header.spaces, header.count)?;
    Ok(StoreHeader {
        algorithm: header.algorithm,
        blocks: header.blocks as u32,
        salt,
        spaces,
    })
}

/// The header in the 4096 bytes of block 0, or none where it isn't valid.
///
/// # Errors
/// Where the machine has no memory for its spaces.
pub fn read_header(alloc: Global, block: &[u8]) -> Result<Option<StoreHeader>, OutOfMemory>
    requires { length block.now ≡ block_bytes }
    ensures { IfOk result (λ header. header ≡ header_in block.now) }
{
    match store_form::read_header(block) {
        Some(header) => Ok(Some(listed(alloc, &header)?)),
        None => Ok(None),
    }
}
