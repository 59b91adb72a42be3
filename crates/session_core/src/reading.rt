// Pages are read: those in memory, unused ones, and those that their homes hold.
ghost use Rattle.std.specs.Prelude.{◌≡◌, ◌+◌, ◌≤◌, ◌⊎◌, true, false, None, Some, IfErr, IfNone, IfOk, IfSome, OnOk, length, option_map, if◌then◌else◌};
ghost use Rattle.byte_list.specs.Bytes.{range, zeros};
ghost use Rattle.counted_disk.specs.Counting.{IsCounted, count_of};
ghost use Rattle.page_places.specs.Texts.{page_bytes};
ghost use Rattle.page_pool.specs.Pages.{is_held, plain_page};
ghost use Rattle.redo_text.specs.Text.{IsRange};
ghost use Rattle.space_head.specs.declared.space.Home.TheVariants.{Unused};
ghost use Rattle.session_core.specs.Files.{calls_of};
ghost use Rattle.session_core.specs.Reading.{IsLoadFault, IsPageOf, IsReadRefusal, OnlyReads, ReadsKind, ReadsPart, name_of_page, part_of_page};
ghost use Rattle.session_core.specs.Spaces.{home_in, is_page};

use crate::fetching::load_page;
use crate::{EngineFault, SessionCore};
use byte_list::fields::be16_at;
use disk_model::Disk;
use page_places::PAGE_BYTES;
use page_pool::PageName;
use space_head::SpaceInfo;

// Where the type of a page stands, in bytes, the first byte of its body, and the one behind that.
const PAGE_TYPE: usize = 24;

const BODY_BEGINS: u32 = 38;

const BODY_ENDS: usize = 16376;

/// Refuses a range that is empty or doesn't lie in a page's body.
pub(crate) fn check_range(at: u32, length: usize) -> Result<(), EngineFault>
    ensures ok { OnOk result (IsRange at length) }
    ensures refused { IfErr result (λ e. (e ≡ EngineFault.BadRange at length) × (IsRange at length → ⊥)) }
{
    let begins = at as usize;
    if length == 0 || at < BODY_BEGINS || BODY_ENDS < begins || BODY_ENDS - begins < length {
        return Err(EngineFault::BadRange { at, length });
    }
    Ok(())
}

#[tactic(auto, unfolding(byte_list::specs::Bytes::zeros))]
fn fill_zeros(into: &mut [u8])
    ensures { into.new ≡ zeros (length into.old) }
{
    into.fill(0);
}

fn copy_range(bytes: &[u8], begins: usize, into: &mut [u8])
    requires { begins + length into.old ≤ length bytes.now }
    ensures { into.new ≡ range begins (length into.old) bytes.now }
{
    let ends = begins + into.len();
    into.copy_from_slice(&bytes[begins..ends]);
}

// The bytes of a page from a place of its body on, zero bytes where it isn't used.
fn copy_part(bytes: &[u8], is_used: bool, at: u32, into: &mut [u8])
    requires long { length bytes.now ≡ page_bytes }
    requires range { IsRange at (length into.old) }
    ensures { into.new ≡ part_of_page at (length into.old) (if is_used then Some (plain_page bytes.now) else None) }
{
    if is_used {
        copy_range(bytes, at as usize, into);
        return;
    }
    fill_zeros(into);
}

// The type of a page, if it is used.
fn kind_of(bytes: &[u8], is_used: bool) -> Option<u16>
    requires { length bytes.now ≡ page_bytes }
    ensures { result ≡ option_map (λ x. x.kind) (if is_used then Some (plain_page bytes.now) else None) }
{
    if is_used {
        Some(be16_at(bytes, PAGE_TYPE))
    } else {
        None
    }
}

impl<D: Disk + Drop> SessionCore<D> {
    // The space of a page, where the store has the page and it isn't page 0.
    fn page_info(&self, space: u32, page: u32) -> Option<SpaceInfo>
        ensures none { IfNone result (is_page self.now.store.spaces space page ≡ false) }
        ensures page { IfSome result (λ info. is_page self.now.store.spaces space page ≡ true) }
    {
        self.store.page_info(space, page)
    }

    // Loads a page of the store: whether it is used.
    fn load(&mut self, name: PageName, into: &mut [u8]) -> Result<bool, EngineFault>
        requires up { self.old.disk.stop ≡ None }
        requires long { length into.old ≡ page_bytes }
        requires page { is_page self.old.store.spaces name.space name.page ≡ true }
        ensures page { IfOk result (λ is_used. IsPageOf self.old.ring self.old.store self.old.pool (D.past self.old.disk.disk) name.space name.page (if is_used then Some (plain_page into.new) else None)) }
        ensures refused { IfErr result (IsLoadFault self.old.ring self.old.store self.old.pool (D.past self.old.disk.disk) name.space name.page self.new.disk) }
        ensures data { OnlyReads D.past name.space name.page self.old self.new }
        ensures still { (is_held name self.old.pool ≡ true) ⊎ (home_in self.old.store name.space name.page ≡ Unused) → self.new.disk ≡ self.old.disk }
        ensures up { OnOk result (self.new.disk.stop ≡ None) }
        ensures long { length into.new ≡ page_bytes }
        ensures later { D.is_later self.old.disk.disk self.new.disk.disk × IsCounted (count_of D.past D.faults D.memory_refusals self.old.disk) (count_of D.past D.faults D.memory_refusals self.new.disk) }
        ensures calls { calls_of D.clock self.new.disk ≤ calls_of D.clock self.old.disk + 1 }
    {
        load_page(
            &mut self.disk,
            &mut self.keys,
            &self.store,
            &mut self.pool,
            name,
            into,
        )
    }

    /// Reads bytes of a page, as the journal has it, from a place of the page on. A page that is held, or
    /// that is unused, makes no call of the disk, and any other one call. It needs no memory.
    ///
    /// # Errors
    /// The first of these, in this order: [`EngineFault::Down`] or [`EngineFault::OutOfMemory`] exactly
    /// where the disk was stopped; [`EngineFault::NoSuchPage`] exactly where the store hasn't the page, or
    /// it is page 0; [`EngineFault::BadRange`] exactly where the range is empty or doesn't lie in bytes 38
    /// to 16376; [`EngineFault::NoVersion`] or [`EngineFault::Damaged`] by the bytes of the page's home;
    /// [`EngineFault::DiskFault`] or [`EngineFault::OutOfMemory`] where the disk was stopped in this call.
    pub fn read(
        &mut self,
        space: u32,
        page: u32,
        at: u32,
        into: &mut [u8],
    ) -> Result<(), EngineFault>
        ensures bytes { OnOk result (ReadsPart D.past self.old space page at into.new) }
        ensures was_up { OnOk result (self.old.disk.stop ≡ None) }
        ensures there { OnOk result (is_page self.old.store.spaces space page ≡ true) }
        ensures range { OnOk result (IsRange at (length into.old)) }
        ensures refused { IfErr result (IsReadRefusal D.past (IsRange at (length into.old)) (EngineFault.BadRange at (length into.old)) self.old self.new space page) }
        ensures data { OnlyReads D.past space page self.old self.new }
        ensures still { (is_held (name_of_page space page) self.old.pool ≡ true) ⊎ (home_in self.old.store space page ≡ Unused) → self.new.disk ≡ self.old.disk }
        ensures up { OnOk result (self.new.disk.stop ≡ None) }
        ensures later { D.is_later self.old.disk.disk self.new.disk.disk × IsCounted (count_of D.past D.faults D.memory_refusals self.old.disk) (count_of D.past D.faults D.memory_refusals self.new.disk) }
        ensures calls { calls_of D.clock self.new.disk ≤ calls_of D.clock self.old.disk + 1 }
    {
        self.check()?;
        let Some(_info) = self.page_info(space, page) else {
            return Err(EngineFault::NoSuchPage { space, page });
        };
        check_range(at, into.len())?;
        let mut bytes = [0; PAGE_BYTES];
        let is_used = self.load(PageName { space, page }, &mut bytes)?;
        copy_part(&bytes, is_used, at, into);
        Ok(())
    }

    /// The type of a page, as the journal has it; None exactly where it is unused. The page is read as by
    /// [`SessionCore::read`].
    ///
    /// # Errors
    /// Those of [`SessionCore::read`], but for that of a range.
    pub fn page_kind(&mut self, space: u32, page: u32) -> Result<Option<u16>, EngineFault>
        ensures kind { IfOk result (ReadsKind D.past self.old space page) }
        ensures was_up { OnOk result (self.old.disk.stop ≡ None) }
        ensures there { OnOk result (is_page self.old.store.spaces space page ≡ true) }
        ensures refused { IfErr result (IsReadRefusal D.past (Unit {0}) EngineFault.OutOfMemory self.old self.new space page) }
        ensures data { OnlyReads D.past space page self.old self.new }
        ensures still { (is_held (name_of_page space page) self.old.pool ≡ true) ⊎ (home_in self.old.store space page ≡ Unused) → self.new.disk ≡ self.old.disk }
        ensures up { OnOk result (self.new.disk.stop ≡ None) }
        ensures later { D.is_later self.old.disk.disk self.new.disk.disk × IsCounted (count_of D.past D.faults D.memory_refusals self.old.disk) (count_of D.past D.faults D.memory_refusals self.new.disk) }
        ensures calls { calls_of D.clock self.new.disk ≤ calls_of D.clock self.old.disk + 1 }
    {
        self.check()?;
        let Some(_info) = self.page_info(space, page) else {
            return Err(EngineFault::NoSuchPage { space, page });
        };
        let mut bytes = [0; PAGE_BYTES];
        let is_used = self.load(PageName { space, page }, &mut bytes)?;
        Ok(kind_of(&bytes, is_used))
    }
}
