// A store at rest.
use crate::reading::{open_home, place_of, read_home};
use crate::{Header, Homes, RestFault, Spaces};
use aes_core::Algorithm;
use disk_model::Disk;
use key_ring::Ring;
use space_head::{Home, SpaceInfo};
use std::marker::Model;

/// A store at rest: its disk, and what the disk reads as. Where its maker's premises held, its log is
/// empty and its homes hold the contents.
#[derive(Drop)]
pub struct AtRest<D: Disk + Drop> {
    pub(crate) disk: D,
    pub(crate) header: Header,
    pub(crate) spaces: Spaces,
    pub(crate) homes: Homes,
    pub(crate) next: u64,
    pub(crate) sequence: u64,
}

impl<D: Disk + Drop> Model for AtRest<D> {
    ghost use Rattle.aes_core.specs.contracts.algorithm.Algorithm.{the_row as algorithm_row};
    ghost use Rattle.space_head.specs.contracts.space.Home.{the_row as home_row};
    ghost use Rattle.space_head.specs.contracts.space.SpaceInfo.{the_row as space_row};
    ghost use Rattle.store_form.specs.Rest.{IsStoreAtRest, StoreAtRest, store_at_rest_code};
    ghost use Rattle.store_form.specs.Said.{header_said};

    ghost Value = { StoreAtRest D };

    ghost coded = { store_at_rest_code D.code algorithm_row.coded space_row.coded home_row.coded };

    ghost view = { λ s. record { disk = s.disk; header = header_said s.header; spaces = s.spaces; homes = s.homes; next = s.next; sequence = s.sequence } };

    ghost invariant = { λ s. IsStoreAtRest D.past s.header (record { disk = s.disk; header = header_said s.header; spaces = s.spaces; homes = s.homes; next = s.next; sequence = s.sequence }) };
}

impl<D: Disk + Drop> AtRest<D> {
    ghost use Rattle.std.specs.Prelude.{◌≡◌, ◌≢◌, ℕ, ◌<◌, ◌≤◌, ◌+◌, IsErrOf, OnOk, true, List, length, slice_index_or, [], IfOk};
    ghost use Rattle.space_head.specs.declared.space.Home.TheVariants.{Unused};
    ghost use Rattle.cause_core.specs.Cause.{HasCauseOf};
    ghost use Rattle.disk_model.specs.Past.{At};
    ghost use Rattle.page_places.specs.Texts.{page_bytes};
    ghost use Rattle.store_files.specs.Header.{most_spaces};
    ghost use Rattle.crash_image.specs.Rest.{IsAtRest};
    ghost use Rattle.store_files.specs.Pages.{has_page, pages_of};
    ghost use Rattle.store_form.specs.Contents.{IsReadOfPage};
    ghost use Rattle.store_model.specs.declared.contents.SpaceContents.{SpaceContents};
    ghost use Rattle.store_form.specs.PageRead.{ReadsPage};
    ghost use Rattle.store_form.specs.Rest.{IsRestForm, ReadsAtRest, homes_of, place_in, salt_in, with_disk};
    ghost use Rattle.store_form.specs.Said.{header_said};
    ghost use Rattle.store_form.specs.declared.fault.RestFault.TheVariants.{DiskFault, OutOfMemory};

    /// The store of a disk that reads as these say, with a header of format 2. `next` is the next
    /// block's number, that of the newest checkpoint, and `sequence` the checkpoint's.
    pub fn new(
        disk: D,
        header: Header,
        spaces: Spaces,
        homes: Homes,
        next: u64,
        sequence: u64,
    ) -> AtRest<D>
        requires format { header.format ≡ 2 }
        requires count { header.count ≤ most_spaces }
        requires form { IsRestForm (header_said header) spaces homes next sequence }
        requires reads { At (ReadsAtRest (header_said header) spaces homes next sequence) (D.past disk) }
        ensures disk { result.disk ≡ disk }
        ensures header { result.header ≡ header_said header }
        ensures spaces { result.spaces ≡ spaces }
        ensures homes { result.homes ≡ homes }
        ensures next { result.next ≡ next }
        ensures sequence { result.sequence ≡ sequence }
    {
        AtRest {
            disk,
            header,
            spaces,
            homes,
            next,
            sequence,
        }
    }

    /// The spaces, in order of id.
    pub fn spaces(&self) -> &[SpaceInfo]
        ensures value { result.now ≡ self.now.spaces }
        // What is told fits together.
        ensures form { IsRestForm self.now.header self.now.spaces self.now.homes self.now.next self.now.sequence }
        // And the disk reads as it tells.
        ensures reads { At (ReadsAtRest self.now.header self.now.spaces self.now.homes self.now.next self.now.sequence) (D.past self.now.disk) }
    {
        self.spaces.as_slice()
    }

    /// What is known of the pages of a space of the store, from page 0 on, by the versions that stand
    /// in clear.
    pub fn homes(&self, space: u32) -> &[Home]
        requires { has_page self.now.header.spaces space 0 ≡ true }
        ensures { result.now ≡ homes_of self.now.spaces self.now.homes space }
    {
        let place = place_of(self.spaces.as_slice(), space);
        self.homes.get(place).as_slice()
    }

    /// The number of the next block of the log.
    pub fn next(&self) -> u64
        ensures { result ≡ self.now.next }
    {
        self.next
    }

    /// The number of ring blocks of the log.
    pub fn blocks(&self) -> u64
        ensures { result ≡ self.now.header.blocks }
    {
        self.header.blocks
    }

    /// What the log's local keys are made from.
    pub fn log_salt(&self) -> [u8; 16]
        ensures { result ≡ self.now.header.salt }
    {
        self.header.salt
    }

    /// The sequence of the newest checkpoint.
    pub fn sequence(&self) -> u64
        ensures { result ≡ self.now.sequence }
    {
        self.sequence
    }

    /// How the store's pages and its log are ciphered.
    pub fn algorithm(&self) -> Algorithm
        ensures { result ≡ self.now.header.algorithm }
    {
        self.header.algorithm
    }

    /// The disk.
    pub fn into_disk(self) -> D
        ensures value { result ≡ self.disk }
        // It reads as the store tells.
        ensures reads { At (ReadsAtRest self.header self.spaces self.homes self.next self.sequence) (D.past result) }
    {
        self.disk
    }

    /// Reads a page of the store into 16384 bytes, and takes it apart there: Ok leaves the plain page,
    /// its type in bytes 24 and 25 and its body from byte 38 on, and of an unused page zero bytes. It
    /// takes no memory.
    ///
    /// # Errors
    /// [`RestFault::NoVersion`] exactly where the home isn't zero bytes and names a version, other than
    /// 0, that the ring lacks; then [`RestFault::Damaged`] with the first fault of the home's text;
    /// [`RestFault::DiskFault`] only where the disk's count of faults rose, [`RestFault::OutOfMemory`]
    /// only where its count of refused memory rose.
    pub fn read_page(
        &mut self,
        ring: &Ring,
        space: u32,
        page: u32,
        into: &mut [u8],
    ) -> Result<Home, RestFault>
        requires page { has_page self.old.header.spaces space page ≡ true }
        requires long { length into.old ≡ page_bytes }
        ensures page { ReadsPage self.old.header ring.now (salt_in self.old.spaces) space page (D.past self.old.disk) into.new result }
        // It is what is known of the page.
        ensures home { IfOk result (λ home. At (λ es. home ≡ slice_index_or (homes_of self.old.spaces self.old.homes space) page Unused) (D.past self.old.disk)) }
        // Where the store is at rest with contents under the ring's keys, it is their page.
        ensures contents { At (λ es. (c : List SpaceContents) (next : ℕ) → IsAtRest es ring.now c next → IsReadOfPage (pages_of c space page) into.new result) (D.past self.old.disk) }
        ensures store { self.new ≡ with_disk self.old self.new.disk }
        ensures same { D.past self.new.disk ≡ D.past self.old.disk }
        ensures later { D.is_later self.old.disk self.new.disk }
        ensures cause { HasCauseOf DiskFault (D.faults self.old.disk) (D.faults self.new.disk) result }
        ensures memory { HasCauseOf OutOfMemory (D.memory_refusals self.old.disk) (D.memory_refusals self.new.disk) result }
        // No fault is dropped, and the disk is called once.
        ensures no_fault { (IsErrOf result DiskFault → ⊥) → D.faults self.new.disk ≡ D.faults self.old.disk }
        ensures no_refusal { OnOk result (D.memory_refusals self.new.disk ≡ D.memory_refusals self.old.disk) }
        ensures calls { D.clock self.new.disk ≤ D.clock self.old.disk + 1 }
    {
        let place = place_of(self.spaces.as_slice(), space);
        let info = *self.spaces.get(place);
        read_home(&mut self.disk, space, page, into)?;
        open_home(ring, self.header.algorithm, &info, page, into)
    }
}
