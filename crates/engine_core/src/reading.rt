// Pages are read: those in memory, unused ones, and those that their homes hold.
ghost use Rattle.std.specs.Prelude.{◌≡◌, ◌+◌, ◌≤◌, ◌⊎◌, true, None, IfErr, IfOk, OnOk, length};
ghost use Rattle.counted_disk.specs.Counting.{IsCounted, count_of};
ghost use Rattle.disk_model.specs.Past.{At};
ghost use Rattle.page_pool.specs.Pages.{is_held};
ghost use Rattle.redo_text.specs.Text.{IsRange};
ghost use Rattle.session_core.specs.Files.{calls_of};
ghost use Rattle.session_core.specs.Reading.{IsReadRefusal, OnlyReads, ReadsKind, ReadsPart, name_of_page};
ghost use Rattle.session_core.specs.Spaces.{home_in, is_page};
ghost use Rattle.session_image.specs.Kept.{SessionStore};
ghost use Rattle.space_head.specs.declared.space.Home.TheVariants.{Unused};
ghost use Rattle.engine_core.specs.Kept.{BeginsAt};
ghost use Rattle.engine_core.specs.Reading.{IsKindNow, IsPartNow};

use crate::{Engine, EngineFault};
use disk_model::Disk;

impl<D: Disk + Drop> Engine<D> {
    /// Reads bytes of a page, as the fold of the journal over the base contents has it, from a place of the
    /// page on. A page that is held, or that is unused, makes no call of the disk, and any other one call.
    /// It needs no memory.
    ///
    /// # Errors
    /// The first of these, in this order: [`EngineFault::Down`] or [`EngineFault::OutOfMemory`] exactly
    /// where the disk was stopped; [`EngineFault::NoSuchPage`] exactly where the store hasn't the page, or
    /// it is page 0; [`EngineFault::BadRange`] exactly where the range is empty or doesn't lie in bytes 38
    /// to 16376; [`EngineFault::NoVersion`] or [`EngineFault::Damaged`] by the bytes of the page's home;
    /// [`EngineFault::DiskFault`] or [`EngineFault::OutOfMemory`] where the disk was stopped in this call.
    pub fn read(
        &mut self,
        space: u32,
        page: u32,
        at: u32,
        into: &mut [u8],
    ) -> Result<(), EngineFault>
        ensures contents { OnOk result ((store : SessionStore) → At (BeginsAt store self.old.first) (D.past self.old.first.disk.disk) → At (λ es. IsPartNow store self.old.now space page at into.new) (D.past self.old.now.disk.disk)) }
        ensures bytes { OnOk result (ReadsPart D.past self.old.now space page at into.new) }
        ensures was_up { OnOk result (self.old.now.disk.stop ≡ None) }
        ensures there { OnOk result (is_page self.old.now.store.spaces space page ≡ true) }
        ensures range { OnOk result (IsRange at (length into.old)) }
        ensures refused { IfErr result (IsReadRefusal D.past (IsRange at (length into.old)) (EngineFault.BadRange at (length into.old)) self.old.now self.new.now space page) }
        ensures data { OnlyReads D.past space page self.old.now self.new.now }
        ensures still { (is_held (name_of_page space page) self.old.now.pool ≡ true) ⊎ (home_in self.old.now.store space page ≡ Unused) → self.new.now.disk ≡ self.old.now.disk }
        ensures calls { calls_of D.clock self.new.now.disk ≤ calls_of D.clock self.old.now.disk + 1 }
        ensures up { OnOk result (self.new.now.disk.stop ≡ None) }
        ensures later { D.is_later self.old.now.disk.disk self.new.now.disk.disk × IsCounted (count_of D.past D.faults D.memory_refusals self.old.now.disk) (count_of D.past D.faults D.memory_refusals self.new.now.disk) }
        ensures first { self.new.first ≡ self.old.first }
    {
        let _kept = self.core.spaces();
        self.core.read(space, page, at, into)
    }

    /// The type of a page, as the fold of the journal over the base contents has it; None exactly where it
    /// is unused. The page is read as by [`Engine::read`].
    ///
    /// # Errors
    /// Those of [`Engine::read`], but for that of a range.
    pub fn page_kind(&mut self, space: u32, page: u32) -> Result<Option<u16>, EngineFault>
        ensures contents { IfOk result (λ kind. (store : SessionStore) → At (BeginsAt store self.old.first) (D.past self.old.first.disk.disk) → At (λ es. IsKindNow store self.old.now space page kind) (D.past self.old.now.disk.disk)) }
        ensures kind { IfOk result (ReadsKind D.past self.old.now space page) }
        ensures was_up { OnOk result (self.old.now.disk.stop ≡ None) }
        ensures there { OnOk result (is_page self.old.now.store.spaces space page ≡ true) }
        ensures refused { IfErr result (IsReadRefusal D.past (Unit {0}) EngineFault.OutOfMemory self.old.now self.new.now space page) }
        ensures data { OnlyReads D.past space page self.old.now self.new.now }
        ensures still { (is_held (name_of_page space page) self.old.now.pool ≡ true) ⊎ (home_in self.old.now.store space page ≡ Unused) → self.new.now.disk ≡ self.old.now.disk }
        ensures calls { calls_of D.clock self.new.now.disk ≤ calls_of D.clock self.old.now.disk + 1 }
        ensures up { OnOk result (self.new.now.disk.stop ≡ None) }
        ensures later { D.is_later self.old.now.disk.disk self.new.now.disk.disk × IsCounted (count_of D.past D.faults D.memory_refusals self.old.now.disk) (count_of D.past D.faults D.memory_refusals self.new.now.disk) }
        ensures first { self.new.first ≡ self.old.first }
    {
        let _kept = self.core.spaces();
        self.core.page_kind(space, page)
    }
}
