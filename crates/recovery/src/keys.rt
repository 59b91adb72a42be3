// The keys that a store needs are looked for in a ring.
ghost use Rattle.std.specs.Prelude.{◌≡◌, ◌≤◌, ◌<◌, ℕ, List, true, false, length, map, take, IfErr, OnOk, Err, ◌↔◌};
ghost use Rattle.disk_model.specs.Event.{Event};
ghost use Rattle.doublewrite.specs.declared.refuse.OpenRefuse.TheVariants.{MissingKey};
ghost use Rattle.redo_text.specs.declared.change.Change.{Change};
ghost use Rattle.store_files.specs.Header.{are_allowed, are_in_order};
ghost use Rattle.store_form.specs.Said.{header_said, space_said};
ghost use Rattle.store_image.specs.Places.{LogView};
ghost use Rattle.recovery.specs.Keys.{AreFound, AreThere, IsCopyKey, IsKeyKind, IsMissingKey, IsLeastLacking, IsListedKey, IsLiveBy, IsNoteKey, IsSpaceKey, IsTextKey, IsNotBehind, IsVersionKey, LooksFor, NamedAt, OneBelow, key_named, version_of};
ghost use Rattle.recovery.specs.Notes.{FitNotes};

use crate::layout::LOG_KEY;
use crate::notes::{NoteSource, PageNote, PageNotes, SpaceNotes};
use crate::space_list::place_of;
use doublewrite::{Copied, Copies, OpenRefuse};
use key_ring::Ring;
use redo_log::{Run, Versions};
use store_form::{Header, HeaderSpace};

/// A key by its id and its version.
#[derive(Clone, Copy, Debug, PartialEq, Eq)]
pub(crate) struct KeyName {
    pub id: u32,
    pub version: u32,
}

// Whether the first doesn't come behind the second.
fn is_up_to(a: KeyName, b: KeyName) -> bool
    ensures yes { result ≡ true → IsNotBehind a b }
    ensures no { result ≡ false → IsNotBehind b a }
{
    if a.id == b.id {
        return a.version <= b.version;
    }
    a.id < b.id
}

// Looks for a key. The least one that is lacking is kept.
fn look_for(ring: &Ring, least: Option<KeyName>, name: KeyName) -> Option<KeyName>
    ensures { LooksFor ring.now (λ x. x ≡ name) least result }
{
    let None = ring.get(name.id, name.version) else {
        return least;
    };
    let Some(found) = least else {
        return Some(name);
    };
    if is_up_to(found, name) {
        return least;
    }
    Some(name)
}

// Looks for the key of a text, which one in clear has not.
fn look_for_text(ring: &Ring, least: Option<KeyName>, id: u32, version: u32) -> Option<KeyName>
    ensures { LooksFor ring.now (IsTextKey id version) least result }
{
    if version == 0 {
        return least;
    }
    look_for(ring, least, KeyName { id, version })
}

fn version_of(source: NoteSource) -> u32
    ensures { result ≡ version_of source }
{
    match source {
        NoteSource::Unused => 0,
        NoteSource::Home(version) | NoteSource::Copy(version) => version,
    }
}

// Looks for the keys of the texts that the pages of a space are read from.
fn look_in_notes(
    ring: &Ring,
    least: Option<KeyName>,
    id: u32,
    notes: &SpaceNotes,
) -> Option<KeyName>
    ensures { LooksFor ring.now (OneBelow (IsNoteKey id notes.now) (length notes.now)) least result }
{
    let mut found = least;
    for page in 0..notes.len() {
        let version = version_of(notes.get(page).source);
        found = look_for_text(ring, found, id, version);
    }
    found
}

// Looks for the keys of the spaces: the active version, and those of their pages.
fn look_in_spaces(
    ring: &Ring,
    least: Option<KeyName>,
    active: u32,
    spaces: &[HeaderSpace],
    notes: &PageNotes,
) -> Option<KeyName>
    requires { FitNotes (map space_said spaces.now) notes.now }
    ensures { LooksFor ring.now (OneBelow (IsSpaceKey active (map space_said spaces.now) notes.now) (length spaces.now)) least result }
{
    let mut found = least;
    for i in 0..spaces.len() {
        let id = spaces[i].key_id;
        let version = active;
        let own = look_for(ring, found, KeyName { id, version });
        found = look_in_notes(ring, own, id, notes.get(i));
    }
    found
}

// Whether a copy of this LSN can be read from.
fn is_live(note: &PageNote, lsn: u64) -> bool
    ensures yes { result ≡ true → IsLiveBy note.now lsn }
    ensures no { result ≡ false → IsLiveBy note.now lsn → ⊥ }
{
    match note.source {
        NoteSource::Home(_) => note.lsn < lsn,
        NoteSource::Unused => note.lsn <= lsn,
        NoteSource::Copy(_) => note.lsn <= lsn,
    }
}

// Looks for the key of a copy that can be read from.
fn look_for_copy(
    ring: &Ring,
    least: Option<KeyName>,
    spaces: &[HeaderSpace],
    notes: &PageNotes,
    copied: &Copied,
) -> Option<KeyName>
    requires fit { FitNotes (map space_said spaces.now) notes.now }
    requires order { are_in_order 0 (map space_said spaces.now) ≡ true }
    ensures { LooksFor ring.now (IsCopyKey (map space_said spaces.now) notes.now copied.now) least result }
{
    let Some(place) = place_of(spaces, copied.space, copied.page) else {
        return least;
    };
    let note = notes.get(place).get(copied.page as usize);
    if !is_live(note, copied.lsn) {
        return least;
    }
    look_for_text(ring, least, spaces[place].key_id, copied.version)
}

// Looks for the keys of the copies that can be read from.
fn look_in_copies(
    ring: &Ring,
    least: Option<KeyName>,
    spaces: &[HeaderSpace],
    notes: &PageNotes,
    copies: &Copies,
) -> Option<KeyName>
    requires fit { FitNotes (map space_said spaces.now) notes.now }
    requires order { are_in_order 0 (map space_said spaces.now) ≡ true }
    ensures { LooksFor ring.now (OneBelow (IsListedKey (map space_said spaces.now) notes.now copies.now) (length copies.now)) least result }
{
    let mut found = least;
    for j in 0..copies.len() {
        found = look_for_copy(ring, found, spaces, notes, copies.get(j));
    }
    found
}

// Looks for the keys of the blocks of a run.
fn look_in_versions(ring: &Ring, least: Option<KeyName>, versions: &Versions) -> Option<KeyName>
    ensures { LooksFor ring.now (OneBelow (IsVersionKey versions.now) (length versions.now)) least result }
{
    let mut found = least;
    for i in 0..versions.len() {
        let version = *versions.get(i);
        let id = LOG_KEY;
        found = look_for(ring, found, KeyName { id, version });
    }
    found
}

/// Refuses a store of which the ring lacks a key that reading it needs: those of the texts that pages
/// are read from, by their notes, and of the copies that could be, but for texts in clear; that of each
/// version among the blocks of the run, under id 1; and the active version under id 1 and under the key
/// id of each space. It reads nothing and takes no memory.
///
/// # Errors
/// [`OpenRefuse::MissingKey`] exactly where one is lacking, with the least, by id and then by version.
pub fn check_keys(
    ring: &Ring,
    active: u32,
    header: &Header,
    run: &Run,
    notes: &PageNotes,
    copies: &Copies,
) -> Result<(), OpenRefuse>
    requires allowed { are_allowed (header_said header.now) ≡ true }
    requires count { header.now.count ≤ 16 }
    requires fit { FitNotes (header_said header.now).spaces notes.now }
    ensures there { OnOk result ((log : LogView (List Change)) (es : List Event) → AreFound (header_said header.now) run.now.versions notes.now copies.now log es → AreThere ring.now (NamedAt (header_said header.now) log active es)) }
    ensures refused { IfErr result (λ why. (log : LogView (List Change)) (es : List Event) → AreFound (header_said header.now) run.now.versions notes.now copies.now log es → IsMissingKey ring.now (NamedAt (header_said header.now) log active es) why) }
    ensures exact { (log : LogView (List Change)) (es : List Event) → AreFound (header_said header.now) run.now.versions notes.now copies.now log es → (id version : ℕ) → (result ≡ Err (MissingKey id version)) ↔ IsLeastLacking ring.now (NamedAt (header_said header.now) log active es) (key_named id version) }
    ensures kind { IfErr result IsKeyKind }
{
    let spaces = &header.spaces[..header.count];
    let of_blocks = look_in_versions(ring, None, &run.versions);
    let id = LOG_KEY;
    let version = active;
    let of_log = look_for(ring, of_blocks, KeyName { id, version });
    let of_pages = look_in_spaces(ring, of_log, active, spaces, notes);
    match look_in_copies(ring, of_pages, spaces, notes, copies) {
        None => Ok(()),
        Some(name) => Err(OpenRefuse::MissingKey {
            id: name.id,
            version: name.version,
        }),
    }
}
