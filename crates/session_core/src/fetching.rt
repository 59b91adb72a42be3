// A page is loaded: from memory, or from its home.
ghost use Rattle.std.specs.Prelude.{◌≡◌, ◌+◌, ◌*◌, ◌<◌, ◌≤◌, ◌⊎◌, true, false, None, Some, IfErr, IfOk, OnOk, length, if◌then◌else◌};
ghost use Rattle.counted_disk.specs.Counting.{IsCounted, count_of};
ghost use Rattle.disk_model.specs.Image.{InFile};
ghost use Rattle.disk_model.specs.Past.{At};
ghost use Rattle.disk_model.specs.declared.names.FileName.TheVariants.{Space};
ghost use Rattle.page_places.specs.Texts.{page_bytes};
ghost use Rattle.page_pool.specs.Changes.{admitted, found_page};
ghost use Rattle.page_pool.specs.Pages.{held_page, is_held, plain_page};
ghost use Rattle.places.specs.Places.{shown};
ghost use Rattle.space_head.specs.declared.space.Home.TheVariants.{Unused};
ghost use Rattle.space_head.specs.declared.space.SpaceInfo.{SpaceInfo};
ghost use Rattle.session_core.specs.Files.{HasStoreFiles, IsStopOf, calls_of};
ghost use Rattle.session_core.specs.Opening.{OpensHome};
ghost use Rattle.session_core.specs.Reading.{FetchesPage, IsLoadFault, IsPageOf, IsPoolAfter};
ghost use Rattle.session_core.specs.Spaces.{home_in, space_with_id};

use crate::EngineFault;
use crate::keys::SessionKeys;
use crate::stopping::fault_of;
use crate::tablespaces::Tablespaces;
use aes_core::Algorithm;
use byte_list::fields::be32_at;
use counted_disk::Counted;
use disk_model::{Disk, DiskError};
use page_pool::{PageName, Pool};
use space_head::{Home, SpaceInfo};
use store_form::{RestFault, open_home_with, read_home};

// Reads the bytes of a page's home.
fn read_bytes<D: Disk + Drop>(
    disk: &mut Counted<D>,
    space: u32,
    page: u32,
    into: &mut [u8],
) -> Result<(), EngineFault>
    requires up { disk.old.stop ≡ None }
    requires long { length into.old ≡ page_bytes }
    requires inside { At (InFile (Space space) (page * page_bytes) page_bytes) (D.past disk.old.disk) }
    ensures bytes { OnOk result (At (λ es. into.new ≡ shown (Space space) page_bytes page es) (D.past disk.old.disk)) }
    ensures stopped { IfErr result (IsStopOf disk.new) }
    ensures up { OnOk result (disk.new.stop ≡ None) }
    ensures long { length into.new ≡ page_bytes }
    ensures past { D.past disk.new.disk ≡ D.past disk.old.disk }
    ensures later { D.is_later disk.old.disk disk.new.disk × IsCounted (count_of D.past D.faults D.memory_refusals disk.old) (count_of D.past D.faults D.memory_refusals disk.new) }
    ensures calls { calls_of D.clock disk.new ≤ calls_of D.clock disk.old + 1 }
{
    match read_home(disk, space, page, into) {
        Ok(()) => Ok(()),
        Err(RestFault::DiskFault) => Err(fault_of(disk, DiskError::Failed)),
        Err(RestFault::OutOfMemory) => Err(fault_of(disk, DiskError::NoMemory)),
        Err(RestFault::NoVersion { id: _, version: _ }) => unreachable!(),
        Err(
            RestFault::Damaged {
                space: _,
                page: _,
                fault: _,
            },
        ) => unreachable!(),
    }
}

// Takes a page apart, by the bytes of its home.
fn open_home(
    keys: &mut SessionKeys,
    algorithm: Algorithm,
    info: &SpaceInfo,
    page: u32,
    into: &mut [u8],
) -> Result<(), EngineFault>
    requires { length into.old ≡ page_bytes }
    ensures opened { OpensHome keys.old algorithm info.now page into.old into.new result }
    ensures long { length into.new ≡ page_bytes }
    ensures keys { keys.new ≡ keys.old }
{
    let version = be32_at(into, 0);
    let key = keys.page_key(algorithm, info, version);
    match open_home_with(info, page, key, into) {
        Ok(_home) => Ok(()),
        Err(RestFault::NoVersion { id, version }) => Err(EngineFault::NoVersion { id, version }),
        Err(RestFault::Damaged { space, page, fault }) => Err(EngineFault::Damaged {
            space,
            page,
            fault,
        }),
        Err(RestFault::DiskFault) => unreachable!(),
        Err(RestFault::OutOfMemory) => unreachable!(),
    }
}

/// Reads a page from its home, and takes it apart.
pub(crate) fn fetch_page<D: Disk + Drop>(
    disk: &mut Counted<D>,
    keys: &mut SessionKeys,
    algorithm: Algorithm,
    info: &SpaceInfo,
    page: u32,
    into: &mut [u8],
) -> Result<(), EngineFault>
    requires up { disk.old.stop ≡ None }
    requires long { length into.old ≡ page_bytes }
    requires inside { At (InFile (Space info.now.space) (page * page_bytes) page_bytes) (D.past disk.old.disk) }
    ensures fetched { FetchesPage keys.old algorithm info.now page (D.past disk.old.disk) disk.new into.new result }
    ensures up { OnOk result (disk.new.stop ≡ None) }
    ensures long { length into.new ≡ page_bytes }
    ensures keys { keys.new ≡ keys.old }
    ensures past { D.past disk.new.disk ≡ D.past disk.old.disk }
    ensures later { D.is_later disk.old.disk disk.new.disk × IsCounted (count_of D.past D.faults D.memory_refusals disk.old) (count_of D.past D.faults D.memory_refusals disk.new) }
    ensures calls { calls_of D.clock disk.new ≤ calls_of D.clock disk.old + 1 }
{
    let space = info.space;
    match read_bytes(disk, space, page, into) {
        Ok(()) => open_home(keys, algorithm, info, page, into),
        Err(fault) => Err(fault),
    }
}

/// Copies the page of a name, where it is held.
pub(crate) fn copy_held(pool: &mut Pool, name: PageName, into: &mut [u8]) -> bool
    requires { length into.old ≡ page_bytes }
    ensures held { result ≡ is_held name pool.old }
    ensures page { result ≡ true → held_page name pool.old ≡ Some (plain_page into.new) }
    ensures pool { pool.new ≡ found_page name pool.old }
    ensures long { length into.new ≡ page_bytes }
{
    match pool.find(name.space, name.page) {
        Some(bytes) => {
            into.copy_from_slice(bytes);
            true
        }
        None => false,
    }
}

// Holds a page that isn't held, where there is memory.
fn hold_read(pool: &mut Pool, name: PageName, bytes: &[u8])
    requires long { length bytes.now ≡ page_bytes }
    requires apart { is_held name pool.old ≡ false }
    ensures { (pool.new ≡ pool.old) ⊎ (pool.new ≡ record { dirty = pool.old.dirty; clean = admitted name (plain_page bytes.now) pool.old.clean }) }
{
    let _held = pool.admit(name.space, name.page, bytes);
}

pub(crate) fn is_unused(home: Home) -> bool
    ensures yes { result ≡ true → home ≡ Unused }
    ensures no { home ≡ Unused → result ≡ true }
{
    match home {
        Home::Unused => true,
        Home::Clean(_) => false,
        Home::Dirty => false,
    }
}

/// Loads a page of the store: whether it is used. It is held behind that, where there is memory.
pub(crate) fn load_page<D: Disk + Drop>(
    disk: &mut Counted<D>,
    keys: &mut SessionKeys,
    store: &Tablespaces,
    pool: &mut Pool,
    name: PageName,
    into: &mut [u8],
) -> Result<bool, EngineFault>
    requires up { disk.old.stop ≡ None }
    requires long { length into.old ≡ page_bytes }
    requires page { (info : SpaceInfo) × (space_with_id store.now.spaces name.space ≡ Some info) × (name.page < info.pages) }
    requires files { At (HasStoreFiles store.now.header.blocks store.now.spaces) (D.past disk.old.disk) }
    ensures page { IfOk result (λ is_used. IsPageOf keys.old store.now pool.old (D.past disk.old.disk) name.space name.page (if is_used then Some (plain_page into.new) else None)) }
    ensures refused { IfErr result (IsLoadFault keys.old store.now pool.old (D.past disk.old.disk) name.space name.page disk.new) }
    ensures pool { IsPoolAfter keys.old store.now (D.past disk.old.disk) name.space name.page pool.old pool.new }
    ensures still { (is_held name pool.old ≡ true) ⊎ (home_in store.now name.space name.page ≡ Unused) → disk.new ≡ disk.old }
    ensures up { OnOk result (disk.new.stop ≡ None) }
    ensures long { length into.new ≡ page_bytes }
    ensures keys { keys.new ≡ keys.old }
    ensures past { D.past disk.new.disk ≡ D.past disk.old.disk }
    ensures later { D.is_later disk.old.disk disk.new.disk × IsCounted (count_of D.past D.faults D.memory_refusals disk.old) (count_of D.past D.faults D.memory_refusals disk.new) }
    ensures calls { calls_of D.clock disk.new ≤ calls_of D.clock disk.old + 1 }
{
    if copy_held(pool, name, into) {
        return Ok(true);
    }
    if is_unused(store.home(name.space, name.page)) {
        return Ok(false);
    }
    let Some(info) = store.info(name.space) else {
        unreachable!();
    };
    match fetch_page(disk, keys, store.algorithm(), &info, name.page, into) {
        Ok(()) => {
            hold_read(pool, name, into);
            Ok(true)
        }
        Err(fault) => Err(fault),
    }
}
