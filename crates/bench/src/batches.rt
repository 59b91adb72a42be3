// The measurements of batches of pages that are stored and written home.
ghost use Rattle.std.specs.Prelude.{◌≡◌, ◌+◌, ◌≤◌, ◌<◌, ℕ, true, false, OnOk, length};
ghost use Rattle.disk_model.specs.Event.{is_there};
ghost use Rattle.disk_model.specs.Past.{At};
ghost use Rattle.disk_model.specs.declared.names.FileName.TheVariants.{Double, Space};
ghost use Rattle.places.specs.Places.{HasPlaces};
ghost use Rattle.page_places.specs.Texts.{pages, slots};
ghost use Rattle.doublewrite.specs.Batch.{text_at};
ghost use Rattle.doublewrite.specs.Layer.{ArePagesDistinct};
ghost use Rattle.doublewrite.specs.Text.{page_number_of};

use crate::figure::timed;
use anyhow::{Result, bail};
use byte_list::fields::put_be32;
use bytes_core::crc32c;
use disk_model::{Disk, FileDisk, FileName, MemDisk};
use doublewrite::{PageText, PageTexts, Texts, home, store};
use page_places::{PAGE_BYTES, PAGE_NUMBER_AT, PAGE_SUM_AT, SLOT_BYTES, SLOTS};
use std::alloc::Global;
use std::fs;
use std::io::Print;
use std::rt::Files;
use std::time::Clock;

const SPACE: u32 = 5;

// The bytes before the checksum.
fn before_sum(bytes: &[u8; PAGE_BYTES]) -> &[u8] {
    &bytes[..PAGE_SUM_AT]
}

// The text of a page in clear.
fn text_of(alloc: Global, page: u32) -> Result<PageText> {
    let mut bytes = [5; PAGE_BYTES];
    put_be32(&mut bytes, PAGE_NUMBER_AT, page);
    let sum = crc32c(before_sum(&bytes));
    put_be32(&mut bytes, PAGE_SUM_AT, sum);
    let Some(text) = PageText::of(bytes.to_vec(alloc)?) else {
        bail!("no text");
    };
    Ok(text)
}

// The texts of 64 pages from one on.
fn batch_of(alloc: Global, first: u32) -> Result<Texts> {
    let mut items = Vec::new(alloc);
    for i in 0..64u32 {
        items.push(text_of(alloc, first.saturating_add(i))?)?;
    }
    Ok(Texts {
        space: SPACE,
        batch: 1,
        pages: PageTexts::of(items),
    })
}

fn batches_of(alloc: Global, count: u32) -> Result<Vec<Texts>> {
    let mut batches = Vec::new(alloc);
    for i in 0..count / 64 {
        batches.push(batch_of(alloc, i * 64)?)?;
    }
    Ok(batches)
}

// Whether text i is that of the page i behind the first.
fn are_in_order(batch: &Texts, first: u32) -> bool
    ensures { result ≡ true → (i : ℕ) → i < length batch.now.pages → page_number_of (text_at batch.now i) ≡ first + i }
{
    for i in 0..batch.pages.len() {
        let number = u64::from(batch.pages.get(i).number());
        if number < u64::from(first) || number - u64::from(first) != i as u64 {
            return false;
        }
    }
    true
}

fn make_files<D: Disk>(disk: &mut D, count: u32) -> Result<()>
    requires double { At (λ es. is_there Double es ≡ false) (D.past disk.old) }
    requires space { At (λ es. is_there (Space 5) es ≡ false) (D.past disk.old) }
    ensures double { OnOk result (At (HasPlaces Double slots) (D.past disk.new)) }
    ensures space { OnOk result (At (HasPlaces (Space 5) (pages count)) (D.past disk.new)) }
{
    let Ok(()) = disk.make(FileName::Double, (SLOTS * SLOT_BYTES) as u64) else {
        bail!("the doublewrite file is not made");
    };
    let Ok(()) = disk.make(FileName::Space(5), u64::from(count) * PAGE_BYTES as u64) else {
        bail!("the space is not made");
    };
    Ok(())
}

fn store_and_home<D: Disk>(disk: &mut D, batch: &Texts, count: u32) -> Result<()>
    requires most { length batch.now.pages ≤ 64 }
    requires distinct { ArePagesDistinct batch.now }
    requires five { batch.now.space ≡ 5 }
    requires within { (i : ℕ) → i < length batch.now.pages → page_number_of (text_at batch.now i) < count }
    requires double { At (HasPlaces Double slots) (D.past disk.old) }
    requires space { At (HasPlaces (Space 5) (pages count)) (D.past disk.old) }
    ensures double { OnOk result (At (HasPlaces Double slots) (D.past disk.new)) }
    ensures space { OnOk result (At (HasPlaces (Space 5) (pages count)) (D.past disk.new)) }
{
    let Ok(()) = store(disk, batch) else {
        bail!("a batch is not stored");
    };
    let Ok(()) = home(disk, batch) else {
        bail!("a batch is not written home");
    };
    Ok(())
}

fn put_batch<D: Disk>(disk: &mut D, batch: &Texts, count: u32) -> Result<()>
    requires double { At (HasPlaces Double slots) (D.past disk.old) }
    requires space { At (HasPlaces (Space 5) (pages count)) (D.past disk.old) }
    ensures double { OnOk result (At (HasPlaces Double slots) (D.past disk.new)) }
    ensures space { OnOk result (At (HasPlaces (Space 5) (pages count)) (D.past disk.new)) }
{
    let len = batch.pages.len();
    if len == 0 || len > 64 || batch.space != 5 {
        bail!("a batch of other pages");
    }
    let first = batch.pages.get(0).number();
    if !are_in_order(batch, first) {
        bail!("a batch of other pages");
    }
    if u64::from(first) + len as u64 > u64::from(count) {
        bail!("a batch past the space");
    }
    store_and_home(disk, batch, count)
}

fn put_all<D: Disk>(disk: &mut D, batches: &[Texts], count: u32) -> Result<()>
    requires double { At (HasPlaces Double slots) (D.past disk.old) }
    requires space { At (HasPlaces (Space 5) (pages count)) (D.past disk.old) }
{
    for batch in batches {
        put_batch(disk, batch, count)?;
    }
    Ok(())
}

fn measure_on<D: Disk>(
    alloc: Global,
    rt: &(impl Print + Clock),
    disk: &mut D,
    name: &str,
    count: u32,
) -> Result<()>
    requires double { At (λ es. is_there Double es ≡ false) (D.past disk.old) }
    requires space { At (λ es. is_there (Space 5) es ≡ false) (D.past disk.old) }
{
    make_files(disk, count)?;
    let batches = batches_of(alloc, count)?;
    timed!(
        rt,
        name,
        count as usize * PAGE_BYTES,
        put_all(disk, &batches, count)?
    );
    Ok(())
}

fn measure_in_memory(
    alloc: Global,
    rt: &(impl Print + Clock),
    name: &str,
    count: u32,
) -> Result<()> {
    let mut disk = MemDisk::new(alloc, Vec::new(alloc));
    measure_on(alloc, rt, &mut disk, name, count)
}

fn measure_on_files(
    alloc: Global,
    rt: &(impl Print + Clock + Files),
    name: &str,
    count: u32,
) -> Result<()> {
    let mut disk = FileDisk::new(alloc, rt);
    measure_on(alloc, rt, &mut disk, name, count)?;
    fs::remove_file(rt, "store.double")?;
    fs::remove_file(rt, "space-5.ibd")?;
    Ok(())
}

/// Times pages that are stored and written home in batches of 64: 256 and 4096 of them, on a disk in
/// memory and on files of the current folder, where each batch syncs each of its two files once. The
/// files are removed behind it; it fails where they are there already.
pub fn measure(alloc: Global, rt: &(impl Print + Clock + Files)) -> Result<()> {
    measure_in_memory(
        alloc,
        rt,
        "256 pages stored and written home, in memory",
        256,
    )?;
    measure_in_memory(
        alloc,
        rt,
        "4096 pages stored and written home, in memory",
        4096,
    )?;
    measure_on_files(
        alloc,
        rt,
        "256 pages stored and written home, on files",
        256,
    )?;
    measure_on_files(
        alloc,
        rt,
        "4096 pages stored and written home, on files",
        4096,
    )
}
