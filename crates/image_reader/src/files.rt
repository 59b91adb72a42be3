// The files of a store, as bytes.
ghost use Rattle.std.specs.Prelude.{◌≡◌};

use std::marker::Model;

/// The bytes of the file of a space. In contracts it is the space's id and the bytes.
#[derive(Debug, Drop)]
pub struct SpaceFile {
    space: u32,
    bytes: Vec<u8>,
}

impl Model for SpaceFile {
    ghost use Rattle.std.specs.Prelude.{ℕ, List};

    ghost Value = { ℕ × List ℕ };

    ghost view = { λ f. (f.space, f.bytes.items) };
}

impl SpaceFile {
    /// The file of the space of this id.
    pub fn new(space: u32, bytes: Vec<u8>) -> SpaceFile
        ensures { result ≡ (space, bytes.items) }
    {
        SpaceFile { space, bytes }
    }
}

/// The bytes of a store's files. In contracts it is `ImageFiles`.
#[derive(Debug, Drop)]
pub struct StoreFiles {
    log: Vec<u8>,
    double: Vec<u8>,
    spaces: Vec<SpaceFile>,
}

impl Model for StoreFiles {
    ghost use Rattle.image_reader.specs.Files.{ImageFiles};

    ghost Value = { ImageFiles };

    ghost view = { λ f. record { log = f.log.items; double = f.double.items; spaces = f.spaces.items } };
}

impl StoreFiles {
    ghost use Rattle.image_reader.specs.Files.{space_bytes};

    /// These files.
    pub fn new(log: Vec<u8>, double: Vec<u8>, spaces: Vec<SpaceFile>) -> StoreFiles
        ensures { result ≡ record { log = log.items; double = double.items; spaces = spaces.items } }
    {
        StoreFiles {
            log,
            double,
            spaces,
        }
    }

    /// The log's file.
    pub fn log(&self) -> &[u8]
        ensures { result.now ≡ self.now.log }
    {
        &self.log
    }

    /// The doublewrite file.
    pub fn double(&self) -> &[u8]
        ensures { result.now ≡ self.now.double }
    {
        &self.double
    }

    /// The file of the space of this id, the first where there are several, no bytes where there is
    /// none.
    pub fn space(&self, space: u32) -> &[u8]
        ensures { result.now ≡ space_bytes self.now.spaces space }
    {
        for file in &self.spaces {
            if file.space == space {
                return &file.bytes;
            }
        }
        &[]
    }
}
