// A page of a store at rest is read and taken apart in place.
ghost use Rattle.std.specs.Prelude.{◌≡◌, ◌≢◌, ℕ, ◌≤◌, ◌+◌, ◌*◌, IsErrOf, true, length, All, IsSome, option_map, Ok, OnOk, IfErr, ◌⊎◌};
ghost use Rattle.byte_list.specs.Fields.{be32_at, be64_at};
ghost use Rattle.cause_core.specs.Cause.{HasCauseOf};
ghost use Rattle.disk_model.specs.Image.{InFile};
ghost use Rattle.disk_model.specs.Past.{At};
ghost use Rattle.disk_model.specs.declared.names.FileName.TheVariants.{Space};
ghost use Rattle.key_ring.specs.Local.{local_key};
ghost use Rattle.page_places.specs.Texts.{page_bytes, page_lsn_at, page_version_at};
ghost use Rattle.page_text.specs.Opening.{opening};
ghost use Rattle.page_text.specs.Text.{IsText, Plain, key_lent, plain_of};
ghost use Rattle.places.specs.Places.{shown};
ghost use Rattle.space_head.specs.Sizes.{IsPageSize};
ghost use Rattle.store_form.specs.PageRead.{IsHomeOpened, IsTextOpened, IsTextTaken, TakesTexts};
ghost use Rattle.store_form.specs.Rest.{place_in};
ghost use Rattle.store_form.specs.declared.fault.RestFault.TheVariants.{DiskFault, OutOfMemory};

use crate::RestFault;
use aes_core::Algorithm;
use byte_list::fields::be32_at;
use disk_model::{Disk, DiskError, FileName};
use key_ring::Ring;
use page_places::PAGE_VERSION_AT;
use page_text::{OpenFault, PageKey, PageMut, unseal};
use space_head::{Home, SpaceInfo};

// The bytes of a page, for places in a space's file.
const PAGE_BYTES: u64 = page_places::PAGE_BYTES as u64;

// The place of a space among the spaces of a store.
pub(crate) fn place_of(spaces: &[SpaceInfo], space: u32) -> usize
    ensures { result ≡ place_in spaces.now space }
{
    spaces.iter().take_while(|s| s.space != space).count()
}

/// Reads the bytes of a page's home. It takes no memory.
///
/// # Errors
/// [`RestFault::DiskFault`] only where the disk's count of faults rose, [`RestFault::OutOfMemory`] only
/// where its count of refused memory rose.
pub fn read_home<D: Disk>(
    disk: &mut D,
    space: u32,
    page: u32,
    into: &mut [u8],
) -> Result<(), RestFault>
    requires long { length into.old ≡ page_bytes }
    requires inside { At (InFile (Space space) (page * page_bytes) page_bytes) (D.past disk.old) }
    ensures bytes { OnOk result (At (λ es. into.new ≡ shown (Space space) page_bytes page es) (D.past disk.old)) }
    ensures long { length into.new ≡ page_bytes }
    ensures refused { IfErr result (λ e. (e ≡ DiskFault) ⊎ (e ≡ OutOfMemory)) }
    ensures same { D.past disk.new ≡ D.past disk.old }
    ensures later { D.is_later disk.old disk.new }
    ensures cause { HasCauseOf DiskFault (D.faults disk.old) (D.faults disk.new) result }
    ensures memory { HasCauseOf OutOfMemory (D.memory_refusals disk.old) (D.memory_refusals disk.new) result }
    ensures no_fault { (IsErrOf result DiskFault → ⊥) → D.faults disk.new ≡ D.faults disk.old }
    ensures no_refusal { OnOk result (D.memory_refusals disk.new ≡ D.memory_refusals disk.old) }
    ensures calls { D.clock disk.new ≤ D.clock disk.old + 1 }
{
    let at = u64::from(page) * PAGE_BYTES;
    match disk.read(FileName::Space(space), at, into) {
        Ok(()) => Ok(()),
        Err(DiskError::Failed) => Err(RestFault::DiskFault),
        Err(DiskError::NoMemory) => Err(RestFault::OutOfMemory),
    }
}

pub(crate) fn are_zero(bytes: &[u8]) -> bool
    ensures yes { result ≡ true → All (λ byte. byte ≡ 0) bytes.now }
    ensures no { All (λ byte. byte ≡ 0) bytes.now → result ≡ true }
{
    bytes.iter().all(|byte| *byte == 0)
}

// The key of a space's pages at a version, where it is there.
fn page_key(ring: &Ring, algorithm: Algorithm, info: &SpaceInfo, version: u32) -> Option<PageKey>
    ensures { result ≡ option_map (λ local. record { local = local; algorithm = algorithm }) (local_key ring.now info.now.key_id version info.now.salt) }
{
    let local = ring.local(info.key_id, version, &info.salt)?;
    Some(PageKey { local, algorithm })
}

// Takes a page text apart in place.
fn take_apart(
    bytes: &mut [u8],
    space: u32,
    page: u32,
    key: Option<&PageKey>,
) -> Result<(), OpenFault>
    requires long { length bytes.old ≡ page_bytes }
    requires keyed { be32_at bytes.old 0 ≢ 0 → IsSome key }
    ensures value { result ≡ opening space page (key_lent key.entry) bytes.old }
    ensures accepted { result ≡ Ok tt → IsText page_bytes space page (be64_at bytes.old page_lsn_at) (be32_at bytes.old page_version_at) (key_lent key.entry) (plain_of bytes.new) bytes.old }
    ensures taken { (lsn : ℕ) (plain : Plain) → IsText page_bytes space page lsn (be32_at bytes.old 0) (key_lent key.entry) plain bytes.old → (result ≡ Ok tt) × (plain_of bytes.new ≡ plain) }
{
    let mut text = PageMut::of(bytes);
    unseal(&mut text, space, page, key)
}

// Takes the text of a page that isn't unused apart, with the key of its version.
fn open_text(
    info: &SpaceInfo,
    page: u32,
    version: u32,
    key: Option<PageKey>,
    into: &mut [u8],
) -> Result<Home, RestFault>
    requires long { length into.old ≡ page_bytes }
    requires version { version ≡ be32_at into.old 0 }
    ensures opened { IsTextOpened info.now.space page info.now.key_id key into.old into.new result }
    ensures taken { (lsn : ℕ) (plain : Plain) → IsText page_bytes info.now.space page lsn (be32_at into.old 0) key plain into.old → IsTextTaken (be32_at into.old 0) plain into.new result }
{
    if version != 0 && key.is_none() {
        return Err(RestFault::NoVersion {
            id: info.key_id,
            version,
        });
    }
    match take_apart(into, info.space, page, key.as_ref()) {
        Ok(()) => Ok(Home::Clean(version)),
        Err(fault) => Err(RestFault::Damaged {
            space: info.space,
            page,
            fault,
        }),
    }
}

/// Takes a page apart in place, by the bytes of its home and the key of the version that stands there,
/// `None` where there is none. Ok leaves the plain page, and of an unused page its zero bytes. It takes
/// no memory.
///
/// # Errors
/// [`RestFault::NoVersion`] exactly where the home isn't zero bytes, its version isn't 0 and there is no
/// key; then [`RestFault::Damaged`] with the first fault of the home's text.
pub fn open_home_with(
    info: &SpaceInfo,
    page: u32,
    key: Option<PageKey>,
    into: &mut [u8],
) -> Result<Home, RestFault>
    requires { length into.old ≡ page_bytes }
    ensures opened { IsHomeOpened info.now.space page info.now.key_id key into.old into.new result }
    ensures taken { TakesTexts info.now.space page key into.old into.new result }
{
    if are_zero(into) {
        return Ok(Home::Unused);
    }
    let version = be32_at(into, PAGE_VERSION_AT);
    open_text(info, page, version, key, into)
}

// Takes a page apart in place, by the bytes of its home.
pub(crate) fn open_home(
    ring: &Ring,
    algorithm: Algorithm,
    info: &SpaceInfo,
    page: u32,
    into: &mut [u8],
) -> Result<Home, RestFault>
    requires { length into.old ≡ page_bytes }
    ensures opened { IsHomeOpened info.now.space page info.now.key_id (option_map (λ local. record { local = local; algorithm = algorithm }) (local_key ring.now info.now.key_id (be32_at into.old 0) info.now.salt)) into.old into.new result }
    ensures taken { TakesTexts info.now.space page (option_map (λ local. record { local = local; algorithm = algorithm }) (local_key ring.now info.now.key_id (be32_at into.old 0) info.now.salt)) into.old into.new result }
{
    let version = be32_at(into, PAGE_VERSION_AT);
    let key = page_key(ring, algorithm, info, version);
    open_home_with(info, page, key, into)
}
