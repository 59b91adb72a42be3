// The run is read block by block. Reading adds no event.
ghost use Rattle.std.specs.Prelude.{◌≡◌, ℕ, ◌+◌, ◌-◌, ◌*◌, ◌<◌, ◌≤◌, ◌^◌, ◌++◌, ◌∷◌, [], length, IfOk, OnOk, IfSome, IfNone, Some, slice_get, take, IsErrOf};
ghost use Rattle.std.specs.List.{Contains};
ghost use Rattle.std.specs.List.Sorted.{IsStrictlyIncreasing};
ghost use Rattle.disk_model.specs.Event.{reads};
ghost use Rattle.disk_model.specs.Image.{InFile};
ghost use Rattle.disk_model.specs.Past.{At, HasDiskCause};
ghost use Rattle.disk_model.specs.declared.names.FileName.TheVariants.{Log as LogFile};
ghost use Rattle.ring_log.specs.Blocks.{block_at};
ghost use Rattle.ring_log.specs.Scans.{IsRingRun, Goes, Stops};
ghost use Rattle.redo_text.specs.Reading.{block_version};
ghost use Rattle.redo_log.specs.Blocks.{Keys, redo_form};
ghost use Rattle.redo_log.specs.Runs.{versions_up, AreVersions, IsReadOnce};
ghost use Rattle.store_image.specs.View.{block_bytes, most_mtr_blocks};
ghost use Rattle.store_files.specs.Header.{least_ring_blocks, most_ring_blocks};
ghost use Rattle.store_image.specs.Checkpoint.{front_blocks};

use crate::layout::{BLOCK, BLOCK_BYTES, MOST_BLOCKS, RING_BEGINS};
use disk_model::{Disk, DiskError, FileName};
use redo_text::read_block;
use std::alloc::Global;
use std::marker::Model;

/// Key versions, ascending, each once. Contracts see the list.
#[derive(Drop)]
pub struct Versions {
    items: Vec<u32>,
}

impl Model for Versions {
    ghost use Rattle.std.specs.Prelude.{List, ℕ};
    ghost use Rattle.std.specs.List.Sorted.{IsStrictlyIncreasing};

    ghost Value = { List ℕ };

    ghost view = { λ v. v.items.items };

    ghost invariant = { λ v. IsStrictlyIncreasing v.items.items };
}

impl Versions {
    // Those among these.
    fn among(mut items: Vec<u32>) -> Versions
        ensures all { (v : ℕ) → Contains items.items v → Contains result v }
        ensures none { (v : ℕ) → Contains result v → Contains items.items v }
    {
        items.sort_unstable();
        items.dedup();
        Versions { items }
    }

    /// How many they are.
    pub fn len(&self) -> usize
        ensures { result ≡ length self.now }
    {
        self.items.len()
    }

    /// The one at this place, from 0.
    pub fn get(&self, i: usize) -> &u32
        requires { i < length self.now }
        ensures { slice_get self.now i ≡ Some result.now }
    {
        &self.items[i]
    }

    /// All of them.
    pub fn items(&self) -> &[u32]
        ensures items { result.now ≡ self.now }
        ensures ascending { IsStrictlyIncreasing self.now }
    {
        &self.items
    }
}

/// What a scan finds: the number of the run's last block, or the one before the first where the run
/// is empty, and the key versions that its blocks name.
#[derive(Drop)]
pub struct Run {
    pub last: u64,
    pub versions: Versions,
}

// What a block says where it goes on with the run.
#[derive(Drop)]
struct Next {
    // Where the whole mini-transactions end behind it.
    end: u64,
    version: u32,
}

// What the block of this number says where it goes on with what was read, whose whole
// mini-transactions end at `end`, and none where it doesn't.
fn next_of(block: &[u8], number: u64, end: u64) -> Option<Next>
    requires size { length block.now ≡ block_bytes }
    requires small { number + 1 ≤ 2 ^ 63 }
    requires order { end ≤ number }
    requires few { number < end + most_mtr_blocks }
    ensures some { IfSome result (λ next. (keys : Keys) → (N : ℕ) → Goes N (redo_form keys) number end block.now next.end) }
    ensures bounds { IfSome result (λ next. (end ≤ next.end) × (next.end ≤ number + 1)) }
    ensures version { IfSome result (λ next. next.version ≡ block_version block.now) }
    ensures none { IfNone result ((keys : Keys) → (N : ℕ) → Stops N (redo_form keys) number end block.now) }
{
    let Ok(view) = read_block(block, number) else {
        return None;
    };
    let begins = end == number;
    if view.first() != begins {
        return None;
    }
    let end = if view.last() { number + 1 } else { end };
    Some(Next {
        end,
        version: view.version(),
    })
}

// Reads the ring block at the place of this number.
fn read_number<D: Disk>(
    disk: &mut D,
    blocks: u64,
    number: u64,
    buffer: &mut [u8],
) -> Result<(), DiskError>
    requires least { least_ring_blocks ≤ blocks }
    requires most { blocks ≤ most_ring_blocks }
    requires inside { At (InFile LogFile 0 ((front_blocks + blocks) * block_bytes)) (D.past disk.old) }
    requires size { length buffer.old ≡ block_bytes }
    ensures block { OnOk result (At (λ es. buffer.new ≡ block_at blocks (reads LogFile es) number) (D.past disk.old)) }
    ensures same { D.past disk.new ≡ D.past disk.old }
    ensures later { D.is_later disk.old disk.new }
    ensures once { D.clock disk.new ≤ D.clock disk.old + 1 }
    ensures cause { HasDiskCause (D.faults disk.old) (D.faults disk.new) result }
    ensures memory_refusals { D.memory_refusals disk.old ≤ D.memory_refusals disk.new }
    ensures no_fault { OnOk result (D.faults disk.new ≡ D.faults disk.old) }
    ensures no_fault_at_want { IsErrOf result DiskError.NoMemory → D.faults disk.new ≡ D.faults disk.old }
    ensures no_refusal { OnOk result (D.memory_refusals disk.new ≡ D.memory_refusals disk.old) }
{
    let place = RING_BEGINS + number % blocks;
    disk.read(FileName::Log, place * BLOCK_BYTES, buffer)
}

// Reads the run into the versions of its blocks, one for each block that was read, and gives the
// number behind its last block.
fn scan_into<D: Disk>(
    disk: &mut D,
    blocks: u64,
    from: u64,
    buffer: &mut [u8],
    versions: &mut Vec<u32>,
) -> Result<u64, DiskError>
    requires least { least_ring_blocks ≤ blocks }
    requires most { blocks ≤ most_ring_blocks }
    requires high { from ≤ 2 ^ 50 }
    requires inside { At (InFile LogFile 0 ((front_blocks + blocks) * block_bytes)) (D.past disk.old) }
    requires size { length buffer.old ≡ block_bytes }
    requires none { versions.old.items ≡ [] }
    ensures low { IfOk result (λ end. (from ≤ end) × (end ≤ from + length versions.new.items)) }
    ensures run { IfOk result (λ end. At (λ es. (keys : Keys) → IsRingRun blocks (redo_form keys) (block_at blocks (reads LogFile es)) from end) (D.past disk.old)) }
    ensures versions { OnOk result (At (λ es. versions.new.items ≡ versions_up (block_at blocks (reads LogFile es)) from (length versions.new.items)) (D.past disk.old)) }
    ensures same { D.past disk.new ≡ D.past disk.old }
    ensures later { D.is_later disk.old disk.new }
    ensures calls { D.clock disk.new ≤ D.clock disk.old + blocks }
    ensures once { IfOk result (λ end. At (λ es. IsReadOnce blocks (block_at blocks (reads LogFile es)) from end (D.clock disk.old) (D.clock disk.new)) (D.past disk.old)) }
    ensures cause { HasDiskCause (D.faults disk.old) (D.faults disk.new) result }
    ensures memory_refusals { D.memory_refusals disk.old ≤ D.memory_refusals disk.new }
    ensures no_fault { OnOk result (D.faults disk.new ≡ D.faults disk.old) }
    ensures no_fault_at_want { IsErrOf result DiskError.NoMemory → D.faults disk.new ≡ D.faults disk.old }
    ensures no_refusal { OnOk result (D.memory_refusals disk.new ≡ D.memory_refusals disk.old) }
{
    let mut end = from;
    for i in 0..blocks {
        let number = from + i;
        if number - end >= MOST_BLOCKS {
            return Ok(end);
        }
        read_number(disk, blocks, number, buffer)?;
        let Some(next) = next_of(buffer, number, end) else {
            return Ok(end);
        };
        let Ok(()) = versions.push(next.version) else {
            return Err(DiskError::NoMemory);
        };
        end = next.end;
    }
    Ok(end)
}

/// The longest run of whole mini-transactions from this block on in a log of so many ring blocks, as
/// the disk reads. Each block is read once at most, none past the 16 behind the run, and no event is
/// added.
///
/// # Errors
/// As the disk gives them, and `NoMemory` also where the versions find no room.
pub fn scan<D: Disk>(alloc: Global, disk: &mut D, blocks: u64, from: u64) -> Result<Run, DiskError>
    requires least { least_ring_blocks ≤ blocks }
    requires most { blocks ≤ most_ring_blocks }
    requires low { 2 ≤ from }
    requires high { from ≤ 2 ^ 50 }
    requires inside { At (InFile LogFile 0 ((front_blocks + blocks) * block_bytes)) (D.past disk.old) }
    ensures low { IfOk result (λ run. from ≤ run.last + 1) }
    ensures run { IfOk result (λ run. At (λ es. (keys : Keys) → IsRingRun blocks (redo_form keys) (block_at blocks (reads LogFile es)) from (run.last + 1)) (D.past disk.old)) }
    ensures versions { IfOk result (λ run. At (λ es. AreVersions (block_at blocks (reads LogFile es)) from (run.last + 1) run.versions) (D.past disk.old)) }
    ensures ascending { IfOk result (λ run. IsStrictlyIncreasing run.versions) }
    ensures same { D.past disk.new ≡ D.past disk.old }
    ensures later { D.is_later disk.old disk.new }
    // Each block of the ring is read once at most; at Ok those of the run are, and those behind it up to the first that doesn't go on with it.
    ensures calls { D.clock disk.new ≤ D.clock disk.old + blocks }
    ensures once { IfOk result (λ run. At (λ es. IsReadOnce blocks (block_at blocks (reads LogFile es)) from (run.last + 1) (D.clock disk.old) (D.clock disk.new)) (D.past disk.old)) }
    ensures cause { HasDiskCause (D.faults disk.old) (D.faults disk.new) result }
    ensures memory_refusals { D.memory_refusals disk.old ≤ D.memory_refusals disk.new }
    ensures no_fault { OnOk result (D.faults disk.new ≡ D.faults disk.old) }
    ensures no_fault_at_want { IsErrOf result DiskError.NoMemory → D.faults disk.new ≡ D.faults disk.old }
    ensures no_refusal { OnOk result (D.memory_refusals disk.new ≡ D.memory_refusals disk.old) }
{
    let mut buffer = [0; BLOCK];
    let mut versions = Vec::new(alloc);
    let end = scan_into(disk, blocks, from, &mut buffer, &mut versions)?;
    versions.truncate((end - from) as usize);
    Ok(Run {
        last: end - 1,
        versions: Versions::among(versions),
    })
}
