// The pages of a mini-transaction are held: those that aren't are read from their homes.
ghost use Rattle.std.specs.Prelude.{◌≡◌, ◌≢◌, ◌+◌, ◌<◌, ◌≤◌, true, None, Some, IfErr, OnErr, OnOk, length};
ghost use Rattle.byte_list.specs.Fields.{be16_at};
ghost use Rattle.counted_disk.specs.Counting.{IsCounted, count_of};
ghost use Rattle.crash_image.specs.Recovers.{AreOfStore};
ghost use Rattle.disk_model.specs.Past.{At};
ghost use Rattle.page_places.specs.Texts.{page_bytes, page_type_at};
ghost use Rattle.page_pool.specs.Changes.{found_page};
ghost use Rattle.page_pool.specs.Pages.{is_held, plain_page};
ghost use Rattle.page_text.specs.declared.fault.OpenFault.TheVariants.{WrongKind};
ghost use Rattle.space_head.specs.declared.space.Home.TheVariants.{Unused};
ghost use Rattle.space_head.specs.declared.space.SpaceInfo.{SpaceInfo};
ghost use Rattle.session_core.specs.Files.{HasStoreFiles, calls_of};
ghost use Rattle.session_core.specs.Holding.{AreAtHand, HoldsNamed, IsAtHand, IsHoldFault, IsHoldRefusal, IsTakeFault, IsTakenFromHome, LooksForPages, MeetsPage};
ghost use Rattle.session_core.specs.Spaces.{home_in, space_with_id};
ghost use Rattle.session_core.specs.declared.fault.EngineFault.TheVariants.{Damaged};

use crate::EngineFault;
use crate::fetching::{fetch_page, is_unused};
use crate::keys::SessionKeys;
use crate::naming::name_of;
use crate::tablespaces::Tablespaces;
use byte_list::fields::be16_at;
use counted_disk::Counted;
use disk_model::Disk;
use page_places::{PAGE_BYTES, PAGE_TYPE_AT};
use page_pool::{PageName, Pool};
use page_text::OpenFault;
use redo_text::Change;

// The type of page 0.
const HEAD_TYPE: u16 = 8;

// Looks for a page in memory, which is then the one that was used last.
fn bring(pool: &mut Pool, name: PageName) -> bool
    ensures held { result ≡ is_held name pool.old }
    ensures pool { pool.new ≡ found_page name pool.old }
{
    pool.find(name.space, name.page).is_some()
}

// Refuses a page 0 of another type than 8.
fn check_head(name: PageName, bytes: &[u8]) -> Result<(), EngineFault>
    requires { length bytes.now ≡ page_bytes }
    ensures head { OnOk result (name.page ≡ 0 → be16_at bytes.now page_type_at ≡ 8) }
    ensures refused { IfErr result (λ e. (name.page ≡ 0) × (be16_at bytes.now page_type_at ≢ 8) × (e ≡ Damaged name.space 0 (WrongKind (be16_at bytes.now page_type_at) 0))) }
{
    let found = be16_at(bytes, PAGE_TYPE_AT);
    if name.page == 0 && found != HEAD_TYPE {
        return Err(EngineFault::Damaged {
            space: name.space,
            page: 0,
            fault: OpenFault::WrongKind { found, version: 0 },
        });
    }
    Ok(())
}

// Takes a page of the store from its home.
fn take_home<D: Disk + Drop>(
    disk: &mut Counted<D>,
    keys: &mut SessionKeys,
    store: &Tablespaces,
    name: PageName,
    into: &mut [u8],
) -> Result<(), EngineFault>
    requires up { disk.old.stop ≡ None }
    requires long { length into.old ≡ page_bytes }
    requires page { (info : SpaceInfo) × (space_with_id store.now.spaces name.space ≡ Some info) × (name.page < info.pages) }
    requires files { At (HasStoreFiles store.now.header.blocks store.now.spaces) (D.past disk.old.disk) }
    ensures taken { OnOk result (IsTakenFromHome keys.old store.now (D.past disk.old.disk) name (plain_page into.new)) }
    ensures refused { IfErr result (IsTakeFault keys.old store.now (D.past disk.old.disk) name disk.new) }
    ensures up { OnOk result (disk.new.stop ≡ None) }
    ensures long { length into.new ≡ page_bytes }
    ensures keys { keys.new ≡ keys.old }
    ensures past { D.past disk.new.disk ≡ D.past disk.old.disk }
    ensures later { D.is_later disk.old.disk disk.new.disk × IsCounted (count_of D.past D.faults D.memory_refusals disk.old) (count_of D.past D.faults D.memory_refusals disk.new) }
    ensures calls { calls_of D.clock disk.new ≤ calls_of D.clock disk.old + 1 }
{
    let Some(info) = store.info(name.space) else {
        unreachable!();
    };
    match fetch_page(disk, keys, store.algorithm(), &info, name.page, into) {
        Ok(()) => check_head(name, into),
        Err(fault) => Err(fault),
    }
}

// Whether a page that isn't held is one from page 1 on that nothing was written to.
fn is_new(store: &Tablespaces, name: PageName) -> bool
    requires { (info : SpaceInfo) × (space_with_id store.now.spaces name.space ≡ Some info) × (name.page < info.pages) }
    ensures yes { result ≡ true → (name.page ≢ 0) × (home_in store.now name.space name.page ≡ Unused) }
    ensures no { name.page ≢ 0 → home_in store.now name.space name.page ≡ Unused → result ≡ true }
{
    name.page != 0 && is_unused(store.home(name.space, name.page))
}

// Holds a page of the store, where it isn't unused.
fn hold_page<D: Disk + Drop>(
    disk: &mut Counted<D>,
    keys: &mut SessionKeys,
    store: &Tablespaces,
    pool: &mut Pool,
    name: PageName,
    into: &mut [u8],
) -> Result<(), EngineFault>
    requires up { disk.old.stop ≡ None }
    requires long { length into.old ≡ page_bytes }
    requires page { (info : SpaceInfo) × (space_with_id store.now.spaces name.space ≡ Some info) × (name.page < info.pages) }
    requires files { At (HasStoreFiles store.now.header.blocks store.now.spaces) (D.past disk.old.disk) }
    ensures meets { OnOk result (MeetsPage keys.old store.now (D.past disk.old.disk) name pool.old pool.new) }
    ensures refused { IfErr result (IsHoldFault keys.old store.now (D.past disk.old.disk) name disk.new pool.old) }
    ensures pool { OnErr result (pool.new ≡ found_page name pool.old) }
    ensures still { IsAtHand store.now name pool.old → disk.new ≡ disk.old }
    ensures up { OnOk result (disk.new.stop ≡ None) }
    ensures long { length into.new ≡ page_bytes }
    ensures keys { keys.new ≡ keys.old }
    ensures past { D.past disk.new.disk ≡ D.past disk.old.disk }
    ensures later { D.is_later disk.old.disk disk.new.disk × IsCounted (count_of D.past D.faults D.memory_refusals disk.old) (count_of D.past D.faults D.memory_refusals disk.new) }
    ensures calls { calls_of D.clock disk.new ≤ calls_of D.clock disk.old + 1 }
{
    if bring(pool, name) || is_new(store, name) {
        return Ok(());
    }
    take_home(disk, keys, store, name, into)?;
    match pool.admit(name.space, name.page, into) {
        Ok(()) => Ok(()),
        Err(_) => Err(EngineFault::OutOfMemory),
    }
}

// Holds the pages that changes name, one after another, where they aren't unused.
fn hold_each<D: Disk + Drop>(
    disk: &mut Counted<D>,
    keys: &mut SessionKeys,
    store: &Tablespaces,
    pool: &mut Pool,
    changes: &[Change],
    into: &mut [u8],
) -> Result<(), EngineFault>
    requires up { disk.old.stop ≡ None }
    requires long { length into.old ≡ page_bytes }
    requires few { length changes.now ≤ 64 }
    requires of_store { AreOfStore store.now.header.spaces changes.now }
    requires files { At (HasStoreFiles store.now.header.blocks store.now.spaces) (D.past disk.old.disk) }
    ensures held { OnOk result (HoldsNamed keys.old store.now (D.past disk.old.disk) changes.now pool.old pool.new) }
    ensures refused { IfErr result (IsHoldRefusal keys.old store.now (D.past disk.old.disk) changes.now disk.new pool.old) }
    ensures looks { LooksForPages keys.old store.now (D.past disk.old.disk) changes.now pool.old pool.new }
    ensures still { AreAtHand store.now changes.now pool.old → disk.new ≡ disk.old }
    ensures up { OnOk result (disk.new.stop ≡ None) }
    ensures keys { keys.new ≡ keys.old }
    ensures past { D.past disk.new.disk ≡ D.past disk.old.disk }
    ensures later { D.is_later disk.old.disk disk.new.disk × IsCounted (count_of D.past D.faults D.memory_refusals disk.old) (count_of D.past D.faults D.memory_refusals disk.new) }
    ensures calls { calls_of D.clock disk.new ≤ calls_of D.clock disk.old + length changes.now }
{
    let _spaces = store.spaces();
    for change in changes {
        hold_page(disk, keys, store, pool, name_of(change), into)?;
    }
    Ok(())
}

/// Holds the pages that changes name, where they aren't unused: those that aren't held are read from their
/// homes. After a refusal only clean pages may be others.
pub(crate) fn hold_named<D: Disk + Drop>(
    disk: &mut Counted<D>,
    keys: &mut SessionKeys,
    store: &Tablespaces,
    pool: &mut Pool,
    changes: &[Change],
) -> Result<(), EngineFault>
    requires up { disk.old.stop ≡ None }
    requires few { length changes.now ≤ 64 }
    requires of_store { AreOfStore store.now.header.spaces changes.now }
    requires files { At (HasStoreFiles store.now.header.blocks store.now.spaces) (D.past disk.old.disk) }
    ensures held { OnOk result (HoldsNamed keys.old store.now (D.past disk.old.disk) changes.now pool.old pool.new) }
    ensures refused { IfErr result (IsHoldRefusal keys.old store.now (D.past disk.old.disk) changes.now disk.new pool.old) }
    ensures looks { LooksForPages keys.old store.now (D.past disk.old.disk) changes.now pool.old pool.new }
    ensures still { AreAtHand store.now changes.now pool.old → disk.new ≡ disk.old }
    ensures up { OnOk result (disk.new.stop ≡ None) }
    ensures keys { keys.new ≡ keys.old }
    ensures past { D.past disk.new.disk ≡ D.past disk.old.disk }
    ensures later { D.is_later disk.old.disk disk.new.disk × IsCounted (count_of D.past D.faults D.memory_refusals disk.old) (count_of D.past D.faults D.memory_refusals disk.new) }
    ensures calls { calls_of D.clock disk.new ≤ calls_of D.clock disk.old + length changes.now }
{
    let mut bytes = [0; PAGE_BYTES];
    hold_each(disk, keys, store, pool, changes, &mut bytes)
}
