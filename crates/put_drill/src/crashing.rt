// A drill: the files are made, a batch is put, and the disk crashes.
ghost use Rattle.std.specs.Prelude.{◌≡◌, ◌<◌, ◌≤◌, ℕ, List, [], ◌∷◌, length, IfOk, OnOk};
ghost use Rattle.disk_model.specs.Contents.{events};
ghost use Rattle.disk_model.specs.Crash.{crash_image, IsCrash};
ghost use Rattle.disk_model.specs.Event.{Event, Open};
ghost use Rattle.disk_model.specs.Past.{At};
ghost use Rattle.disk_model.specs.declared.names.FileName.TheVariants.{Double, Space};
ghost use Rattle.places.specs.Places.{HasPlaces};
ghost use Rattle.page_places.specs.Texts.{pages, slots};
ghost use Rattle.doublewrite.specs.Batch.{text_at};
ghost use Rattle.doublewrite.specs.Layer.{ArePagesDistinct};
ghost use Rattle.doublewrite.specs.Text.{ArePageTexts, page_number_of};
ghost use Rattle.put_drill.specs.Put.{AreFilesMade, ShowsBatch};
ghost use Rattle.store_image.specs.View.{slot_count};

use crate::put;
use disk_model::{Choice, Disk, DiskError, FileName, MemDisk};
use doublewrite::Texts;
use page_places::{PAGE_BYTES, SLOT_BYTES, SLOTS};
use std::alloc::Global;

// The pages of space 5.
const PAGES: usize = 64;

/// A disk, and what a crash leaves of it.
#[derive(Drop)]
pub struct PutCrash {
    pub disk: MemDisk,
    pub crashed: MemDisk,
}

fn make_files<D: Disk>(disk: &mut D) -> Result<(), DiskError>
    requires { At (λ es. es ≡ Open [] [] [] ∷ []) (D.past disk.old) }
    ensures made { OnOk result (At AreFilesMade (D.past disk.new)) }
    ensures later { D.is_later disk.old disk.new }
{
    disk.make(FileName::Double, (SLOTS * SLOT_BYTES) as u64)?;
    disk.make(FileName::Space(5), (PAGES * PAGE_BYTES) as u64)
}

/// Puts a batch of space 5, which has 64 pages, and crashes the disk with these choices. The listed
/// turns fail.
pub fn drill(
    alloc: Global,
    batch: &Texts,
    failing: Vec<u64>,
    choice: &[Choice],
) -> Result<PutCrash, DiskError>
    requires some { 0 < length choice.now }
    requires most { length batch.now.pages ≤ slot_count }
    requires distinct { ArePagesDistinct batch.now }
    requires space { batch.now.space ≡ 5 }
    requires numbers { (i : ℕ) → i < length batch.now.pages → page_number_of (text_at batch.now i) < 64 }
    requires texts { ArePageTexts batch.now.pages }
    ensures crash { IfOk result (λ d. IsCrash choice.now (events d.disk.contents) (events d.crashed.contents)) }
    ensures plan { IfOk result (λ d. d.disk.contents.log.failing.items ≡ failing.items) }
    ensures stands { IfOk result (λ d. (s : List Event) × ShowsBatch batch.now s (crash_image choice.now (events d.disk.contents))) }
    ensures slots { IfOk result (λ d. HasPlaces Double slots (events d.crashed.contents)) }
    ensures pages { IfOk result (λ d. HasPlaces (Space 5) (pages 64) (events d.crashed.contents)) }
{
    let mut disk = MemDisk::new(alloc, failing);
    make_files(&mut disk)?;
    let _ = put(&mut disk, batch);
    let Ok(crashed) = disk.crash(choice) else {
        return Err(DiskError::NoMemory);
    };
    Ok(PutCrash { disk, crashed })
}
