// The spaces of a session's store: what the header says, what each space is after the journal, and what
// is known of the homes of its pages.
ghost use Rattle.std.specs.Prelude.{◌≡◌, ◌<◌, true, false, List, IfNone, IfSome, Some};
ghost use Rattle.session_core.specs.SpaceChanges.{with_home, with_space};
ghost use Rattle.session_core.specs.Spaces.{HaveLists};
ghost use Rattle.space_head.specs.declared.space.SpaceInfo.{SpaceInfo};
ghost use Rattle.store_files.specs.Header.{HeldSpace};
ghost use Rattle.store_model.specs.Fold.{floor_set, made_ciphered};
ghost use Rattle.session_core.specs.Spaces.{is_page, space_with_id};
ghost use Rattle.store_form.specs.Rest.{place_in};

use crate::naming::name_of;
use aes_core::Algorithm;
use redo_text::Change;
use space_head::{Home, SpaceInfo};
use std::marker::Model;
use store_form::{Header, Homes, Spaces};

/// The spaces of a store. Contracts see the header, the spaces in its order, and for each page what is
/// known of its home; a page that was changed since it was written is dirty there.
#[derive(Drop)]
pub(crate) struct Tablespaces {
    header: Header,
    spaces: Spaces,
    homes: Homes,
}

/// What is said of the spaces of a store, taken apart.
#[derive(Drop)]
pub(crate) struct SpaceParts {
    pub(crate) header: Header,
    pub(crate) spaces: Spaces,
    pub(crate) homes: Homes,
}

impl Model for Tablespaces {
    ghost use Rattle.session_core.specs.Spaces.{AreHeldSpaces, StoreSpaces};
    ghost use Rattle.store_form.specs.Said.{header_said};

    ghost Value = { StoreSpaces };

    ghost view = { λ t. record { header = header_said t.header; spaces = t.spaces; homes = t.homes } };

    ghost invariant = { λ t. AreHeldSpaces t.header (record { header = header_said t.header; spaces = t.spaces; homes = t.homes }) };
}

impl Tablespaces {
    ghost use Rattle.std.specs.Prelude.{◌≡◌, ◌<◌, ◌≤◌, true, false, length, IfNone, IfSome, Some};
    ghost use Rattle.space_head.specs.declared.space.SpaceInfo.{SpaceInfo};
    ghost use Rattle.crash_image.specs.Recovers.{AreOfStore, IsOfStore};
    ghost use Rattle.session_core.specs.SpaceChanges.{spaces_after, spaces_changed, with_home, with_space};
    ghost use Rattle.session_core.specs.Spaces.{AreSpaces, home_in, is_page, space_with_id};
    ghost use Rattle.store_files.specs.Header.{most_spaces};
    ghost use Rattle.store_form.specs.Rest.{homes_of};
    ghost use Rattle.store_model.specs.Fold.{floor_set, made_ciphered};
    ghost use Rattle.store_form.specs.Said.{header_said};

    /// The spaces of a store at rest.
    pub(crate) fn of(header: Header, spaces: Spaces, homes: Homes) -> Tablespaces
        requires format { header.format ≡ 2 }
        requires count { header.count ≤ most_spaces }
        requires spaces { AreSpaces (record { header = header_said header; spaces = spaces; homes = homes }) }
        ensures { result ≡ record { header = header_said header; spaces = spaces; homes = homes } }
    {
        Tablespaces {
            header,
            spaces,
            homes,
        }
    }

    /// The parts. It takes no memory.
    pub(crate) fn into_parts(self) -> SpaceParts
        ensures header { header_said result.header ≡ self.header }
        ensures format { result.header.format ≡ 2 }
        ensures count { result.header.count ≤ most_spaces }
        ensures spaces { result.spaces ≡ self.spaces }
        ensures homes { result.homes ≡ self.homes }
    {
        let Tablespaces {
            header,
            spaces,
            homes,
        } = self;
        SpaceParts {
            header,
            spaces,
            homes,
        }
    }

    /// The spaces, in order of id.
    pub(crate) fn spaces(&self) -> &[SpaceInfo]
        ensures value { result.now ≡ self.now.spaces }
        ensures kept { AreSpaces self.now }
    {
        self.spaces.as_slice()
    }

    /// How many ring blocks the log has.
    pub(crate) fn blocks(&self) -> u64
        ensures { result ≡ self.now.header.blocks }
    {
        self.header.blocks
    }

    /// How pages and log are ciphered.
    pub(crate) fn algorithm(&self) -> Algorithm
        ensures { result ≡ self.now.header.algorithm }
    {
        self.header.algorithm
    }

    /// What the log's local keys are made from.
    pub(crate) fn log_salt(&self) -> [u8; 16]
        ensures { result ≡ self.now.header.salt }
    {
        self.header.salt
    }

    /// The space of an id, if it is there.
    pub(crate) fn info(&self, space: u32) -> Option<SpaceInfo>
        ensures value { result ≡ space_with_id self.now.spaces space }
        ensures kept { AreSpaces self.now }
    {
        find_space(self.spaces.as_slice(), space)
    }

    /// The space of a page, where the store has the page and it isn't page 0.
    pub(crate) fn page_info(&self, space: u32, page: u32) -> Option<SpaceInfo>
        ensures none { IfNone result (is_page self.now.spaces space page ≡ false) }
        ensures page { IfSome result (λ info. is_page self.now.spaces space page ≡ true) }
        ensures space { IfSome result (λ info. space_with_id self.now.spaces space ≡ Some info) }
        ensures kept { AreSpaces self.now }
    {
        find_page(self.spaces.as_slice(), space, page)
    }

    /// What is known of the pages of a space of the store, from page 0 on.
    pub(crate) fn homes(&self, space: u32) -> &[Home]
        requires { (info : SpaceInfo) × (space_with_id self.now.spaces space ≡ Some info) }
        ensures homes { result.now ≡ homes_of self.now.spaces self.now.homes space }
        ensures long { (info : SpaceInfo) → space_with_id self.now.spaces space ≡ Some info → length (homes_of self.now.spaces self.now.homes space) ≡ info.pages }
    {
        let place = place_of(self.spaces.as_slice(), space);
        self.homes.get(place).as_slice()
    }

    /// Puts something else for what is known of a page of the store.
    pub(crate) fn set_home(&mut self, space: u32, page: u32, home: Home)
        requires { (info : SpaceInfo) × (space_with_id self.old.spaces space ≡ Some info) × (page < info.pages) }
        ensures { self.new ≡ record self.old { homes = with_home self.old.spaces self.old.homes space page home } }
    {
        put_home(self.spaces.as_slice(), &mut self.homes, space, page, home);
    }

    // Gives a space of the store another floor.
    fn set_floor(&mut self, space: u32, version: u32)
        requires { (info : SpaceInfo) × (space_with_id self.old.spaces space ≡ Some info) }
        ensures { self.new ≡ record self.old { spaces = with_space self.old.spaces space (floor_set version) } }
    {
        put_floor(&mut self.spaces, space, version);
    }

    // Makes a space of the store a ciphered one.
    fn set_ciphered(&mut self, space: u32)
        requires { (info : SpaceInfo) × (space_with_id self.old.spaces space ≡ Some info) }
        ensures { self.new ≡ record self.old { spaces = with_space self.old.spaces space made_ciphered } }
    {
        put_ciphered(&mut self.spaces, space);
    }

    // What a change makes of the spaces, and of what is known of the page that it names.
    fn change(&mut self, change: &Change)
        requires { IsOfStore self.old.header.spaces change.now }
        ensures { self.new ≡ spaces_changed change.now self.old }
    {
        let _spaces = self.spaces();
        let name = name_of(change);
        self.set_home(name.space, name.page, Home::Dirty);
        match change {
            Change::Put {
                space: _,
                page: _,
                at: _,
                bytes: _,
            } => {}
            Change::Kind {
                space: _,
                page: _,
                kind: _,
            } => {}
            Change::Touch { space: _, page: _ } => {}
            Change::Floor { space, version } => self.set_floor(*space, *version),
            Change::Encrypt { space } => self.set_ciphered(*space),
        }
    }

    /// What the changes of a mini-transaction make of the spaces, and of what is known of the pages that
    /// they name.
    pub(crate) fn change_all(&mut self, changes: &[Change])
        requires { AreOfStore self.old.header.spaces changes.now }
        ensures { self.new ≡ spaces_after changes.now self.old }
    {
        for change in changes {
            self.change(change);
        }
    }

    /// What is known of a page of the store.
    pub(crate) fn home(&self, space: u32, page: u32) -> Home
        requires { (info : SpaceInfo) × (space_with_id self.now.spaces space ≡ Some info) × (page < info.pages) }
        ensures { result ≡ home_in self.now space page }
    {
        self.homes(space)[page as usize]
    }
}

// The place of a space among the spaces of a store.
fn place_of(spaces: &[SpaceInfo], space: u32) -> usize
    ensures { result ≡ place_in spaces.now space }
{
    spaces.iter().take_while(|info| info.space != space).count()
}

// Puts something else for what is known of a page.
fn put_home(spaces: &[SpaceInfo], homes: &mut Homes, space: u32, page: u32, home: Home)
    requires lists { (hs : List HeldSpace) × HaveLists hs spaces.now homes.old }
    requires there { (info : SpaceInfo) × (space_with_id spaces.now space ≡ Some info) × (page < info.pages) }
    ensures { homes.new ≡ with_home spaces.now homes.old space page home }
{
    homes.set(place_of(spaces, space), page as usize, home);
}

fn put_floor(spaces: &mut Spaces, space: u32, version: u32)
    requires { (info : SpaceInfo) × (space_with_id spaces.old space ≡ Some info) }
    ensures { spaces.new ≡ with_space spaces.old space (floor_set version) }
{
    let place = place_of(spaces.as_slice(), space);
    let mut info = *spaces.get(place);
    info.floor = version;
    spaces.set(place, info);
}

fn put_ciphered(spaces: &mut Spaces, space: u32)
    requires { (info : SpaceInfo) × (space_with_id spaces.old space ≡ Some info) }
    ensures { spaces.new ≡ with_space spaces.old space made_ciphered }
{
    let place = place_of(spaces.as_slice(), space);
    let mut info = *spaces.get(place);
    info.ciphered = true;
    spaces.set(place, info);
}

fn find_space(spaces: &[SpaceInfo], space: u32) -> Option<SpaceInfo>
    ensures { result ≡ space_with_id spaces.now space }
{
    for info in spaces {
        if info.space == space {
            return Some(*info);
        }
    }
    None
}

fn find_page(spaces: &[SpaceInfo], space: u32, page: u32) -> Option<SpaceInfo>
    ensures none { IfNone result (is_page spaces.now space page ≡ false) }
    ensures page { IfSome result (λ info. is_page spaces.now space page ≡ true) }
    ensures space { IfSome result (λ info. space_with_id spaces.now space ≡ Some info) }
{
    let Some(info) = find_space(spaces, space) else {
        return None;
    };
    if page == 0 || info.pages <= page {
        return None;
    }
    Some(info)
}
