// A batch of 64 pages is stored and brought home on a disk that stops at each turn, and crashes with each two letters.
ghost use Rattle.std.specs.Prelude.{◌≡◌, ◌<◌, ◌≤◌, ℕ, length, true, IfOk};
ghost use Rattle.disk_model.specs.Contents.{events};
ghost use Rattle.disk_model.specs.Past.{At};
ghost use Rattle.disk_model.specs.declared.names.FileName.TheVariants.{Double, Space};
ghost use Rattle.doublewrite.specs.Batch.{text_at};
ghost use Rattle.doublewrite.specs.Text.{page_number_of};
ghost use Rattle.page_places.specs.Texts.{pages, slots};
ghost use Rattle.places.specs.Places.{HasPlaces};

use crate::{PutCrash, drill};
use byte_list::fields::{put_be32, put_be64};
use bytes_core::crc32c;
use disk_model::{Choice, Disk, DiskError, FileName};
use doublewrite::{PageText, PageTexts, Texts, restore};
use space_head::SpaceInfo;
use std::alloc::{AllocError, Global};
use std::test::Fail;

// Turns of a batch of 64 pages: 64 slots and a sync, 64 homes and a sync.
const TURNS: u64 = 130;

// The first turn that a stop may have with the slots durable: the one behind their sync.
const DURABLE: u64 = 66;

const LETTERS: [Choice; 3] = [Choice::Lost, Choice::Kept, Choice::Torn];

// The bytes before the checksum.
fn before_sum(bytes: &[u8; 16384]) -> &[u8] {
    &bytes[..16380]
}

// The text of a page of space 5 at LSN 8192, whose body begins with its number.
fn text_of(alloc: Global, page: u32) -> Result<Option<PageText>, AllocError> {
    let mut bytes = [0; 16384];
    put_be32(&mut bytes, 4, page);
    put_be64(&mut bytes, 16, 8192);
    put_be32(&mut bytes, 34, 5);
    put_be32(&mut bytes, 38, page);
    let sum = crc32c(before_sum(&bytes));
    put_be32(&mut bytes, 16380, sum);
    Ok(PageText::of(bytes.to_vec(alloc)?))
}

// The texts of pages 0 to 63.
fn batch_of(alloc: Global) -> Result<Texts, Fail> {
    let mut items = Vec::new(alloc);
    for page in 0..64u32 {
        let Some(text) = text_of(alloc, page)? else {
            return Err(Fail::new("no text"));
        };
        items.push(text)?;
    }
    Ok(Texts {
        space: 5,
        batch: 1,
        pages: PageTexts::of(items),
    })
}

// Whether text i is that of page i.
fn are_in_order(batch: &Texts) -> bool
    ensures { result ≡ true → (i : ℕ) → i < length batch.now.pages → page_number_of (text_at batch.now i) ≡ i }
{
    for i in 0..batch.pages.len() {
        if u64::from(batch.pages.get(i).number()) != i as u64 {
            return false;
        }
    }
    true
}

// What the crash leaves where the turns from `stop` on fail.
fn crash_at(alloc: Global, batch: &Texts, stop: u64, choice: &[Choice]) -> Result<PutCrash, Fail>
    requires some { 0 < length choice.now }
    requires low { stop ≤ 131 }
    ensures slots { IfOk result (λ d. HasPlaces Double slots (events d.crashed.contents)) }
    ensures pages { IfOk result (λ d. HasPlaces (Space 5) (pages 64) (events d.crashed.contents)) }
{
    if batch.pages.len() > 64 {
        return Err(Fail::new("more pages"));
    }
    if batch.space != 5 {
        return Err(Fail::new("another space"));
    }
    if !are_in_order(batch) {
        return Err(Fail::new("another order"));
    }
    batch.pages.are_texts();
    let mut failing = Vec::new(alloc);
    for turn in stop..TURNS + 1 {
        failing.push(turn)?;
    }
    Ok(drill(alloc, batch, failing, choice)?)
}

fn read_home<D: Disk>(disk: &mut D, page: u64, into: &mut [u8]) -> Result<(), DiskError>
    requires page { page < 64 }
    requires size { length into.old ≡ 16384 }
{
    match disk.size(FileName::Space(5))? {
        Some(size) if size >= 1_048_576 => disk.read(FileName::Space(5), page * 16384, into),
        _ => Err(DiskError::Failed),
    }
}

// How many pages have the batch's text once the homes are restored. Each other one is unused.
fn count_new<D: Disk>(alloc: Global, disk: &mut D, batch: &Texts) -> Result<usize, Fail>
    requires slots { At (HasPlaces Double slots) (D.past disk.old) }
    requires pages { At (HasPlaces (Space 5) (pages 64)) (D.past disk.old) }
{
    let space = SpaceInfo {
        space: 5,
        pages: 64,
        key_id: 1,
        salt: [0; 16],
        ciphered: false,
        floor: 0,
    };
    let Ok(()) = restore(alloc, disk, &[space]) else {
        return Err(Fail::new("not restored"));
    };
    let mut new = 0usize;
    for i in 0..batch.pages.len() {
        if is_new(disk, batch, i)? {
            new = new.saturating_add(1);
        }
    }
    Ok(new)
}

fn is_new<D: Disk>(disk: &mut D, batch: &Texts, i: usize) -> Result<bool, Fail>
    requires { i < length batch.now.pages }
{
    if i >= 64 {
        return Err(Fail::new("past the space"));
    }
    let mut home = [0; 16384];
    read_home(disk, i as u64, &mut home)?;
    if home.iter().all(|byte| *byte == 0) {
        return Ok(false);
    }
    let home: &[u8] = &home;
    if home != batch.pages.get(i).bytes() {
        return Err(Fail::new("neither the old text nor the new one"));
    }
    Ok(true)
}

const fn is_kept(letter: Choice) -> u64 {
    match letter {
        Choice::Kept => 1,
        Choice::Lost | Choice::Torn => 0,
    }
}

// How many pages are to be new where the turns from `stop` on fail and the slots are durable where
// it is `durable` or later: each whose slot is durable or was kept. The write that failed also takes
// its letter, the first write the first one.
fn new_pages(stop: u64, durable: u64, first: Choice, last: Choice) -> u64 {
    if stop >= durable {
        return 64;
    }
    let others = stop.min(64).saturating_sub(1);
    if is_kept(last) == 1 {
        return is_kept(first).saturating_add(others);
    }
    is_kept(first)
}

// How many rows of a stop are wrong, of one row for each last letter.
fn wrong_rows(
    alloc: Global,
    batch: &Texts,
    stop: u64,
    durable: u64,
    first: Choice,
) -> Result<u64, Fail>
    requires low { stop ≤ 131 }
{
    let mut wrong = 0u64;
    for last in LETTERS {
        let mut crash = crash_at(alloc, batch, stop, &[first, last])?;
        let new = count_new(alloc, &mut crash.crashed, batch)?;
        if new as u64 != new_pages(stop, durable, first, last) {
            wrong = wrong.saturating_add(1);
        }
    }
    Ok(wrong)
}

// The slots of a batch are durable where the turn of their sync was answered Ok.
fn wrong_at_each_turn(alloc: Global, first: Choice) -> Result<u64, Fail> {
    let batch = batch_of(alloc)?;
    let mut wrong = 0u64;
    for stop in 1..TURNS + 2 {
        wrong = wrong.saturating_add(wrong_rows(alloc, &batch, stop, DURABLE, first)?);
    }
    Ok(wrong)
}

#[test]
fn each_page_is_old_or_new_where_the_first_write_is_lost(rt: HostRuntime) -> Result<(), Fail> {
    assert_eq!(rt; wrong_at_each_turn(rt.alloc(), Choice::Lost)?, 0);
    Ok(())
}

#[test]
fn each_page_is_old_or_new_where_the_first_write_is_kept(rt: HostRuntime) -> Result<(), Fail> {
    assert_eq!(rt; wrong_at_each_turn(rt.alloc(), Choice::Kept)?, 0);
    Ok(())
}

#[test]
fn each_page_is_old_or_new_where_the_first_write_is_torn(rt: HostRuntime) -> Result<(), Fail> {
    assert_eq!(rt; wrong_at_each_turn(rt.alloc(), Choice::Torn)?, 0);
    Ok(())
}

// Rows that call the slots durable a turn too early are wrong, but for the one in which each write is
// kept; rows that call them so a turn too late are wrong alike.
#[test]
fn a_wrong_row_is_counted(rt: HostRuntime) -> Result<(), Fail> {
    let alloc = rt.alloc();
    let batch = batch_of(alloc)?;
    assert_eq!(rt; wrong_rows(alloc, &batch, 65, 65, Choice::Kept)?, 2);
    assert_eq!(rt; wrong_rows(alloc, &batch, 65, 65, Choice::Lost)?, 3);
    assert_eq!(rt; wrong_rows(alloc, &batch, 66, 67, Choice::Torn)?, 3);
    Ok(())
}

// The second letter serves all writes but the first.
#[test]
fn a_torn_slot_is_no_copy_and_a_kept_one_is(rt: HostRuntime) -> Result<(), Fail> {
    let alloc = rt.alloc();
    let batch = batch_of(alloc)?;
    let mut crash = crash_at(alloc, &batch, 65, &[Choice::Torn, Choice::Kept])?;
    assert_eq!(rt; count_new(alloc, &mut crash.crashed, &batch)?, 63);
    let mut crash = crash_at(alloc, &batch, 66, &[Choice::Torn, Choice::Torn])?;
    assert_eq!(rt; count_new(alloc, &mut crash.crashed, &batch)?, 64);
    Ok(())
}
