// The files of a store of one space, on a disk in memory.
ghost use Rattle.std.specs.Prelude.{◌≡◌, ◌∷◌, [], IfOk};
ghost use Rattle.disk_model.specs.Contents.{calls, events};
ghost use Rattle.disk_model.specs.Event.{Open};
ghost use Rattle.disk_model.specs.declared.names.FileName.TheVariants.{Double, Log, Space};

use cause_core::OutOfMemory;
use disk_model::{FileName, MemDisk};
use std::alloc::Global;

/// The files of a store whose only space is 5, by their bytes.
#[derive(Drop)]
pub struct LaidFiles {
    /// The log.
    pub log: Vec<u8>,
    /// The doublewrite file.
    pub double: Vec<u8>,
    /// The file of the space.
    pub space: Vec<u8>,
}

/// A disk in memory with these files, to which no call was made.
///
/// # Errors
/// [`OutOfMemory`] where there is none.
pub fn disk_of(alloc: Global, files: LaidFiles) -> Result<MemDisk, OutOfMemory>
    ensures events { IfOk result (λ disk. events disk.contents ≡ Open ((Log, files.log.items) ∷ (Double, files.double.items) ∷ (Space 5, files.space.items) ∷ []) [] [] ∷ []) }
    ensures calls { IfOk result (λ disk. calls disk.contents ≡ []) }
{
    let mut named = Vec::new(alloc);
    named.push((FileName::Log, files.log))?;
    named.push((FileName::Double, files.double))?;
    named.push((FileName::Space(5), files.space))?;
    Ok(MemDisk::holding(named, Vec::new(alloc)))
}
