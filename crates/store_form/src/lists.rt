// The spaces of a store at rest, and what is known of their pages.
use space_head::{Home, SpaceInfo};
use std::marker::Model;

/// The spaces of a store, in order of id. In contracts it is their list.
#[derive(Drop)]
pub struct Spaces {
    items: Vec<SpaceInfo>,
}

impl Model for Spaces {
    ghost use Rattle.std.specs.Prelude.{List};
    ghost use Rattle.space_head.specs.declared.space.SpaceInfo.{SpaceInfo};

    ghost Value = { List SpaceInfo };

    ghost view = { λ spaces. spaces.items.items };
}

impl Spaces {
    ghost use Rattle.std.specs.Prelude.{◌≡◌, ◌<◌, length, slice_index_or, slice_set};

    /// The list of these.
    pub fn of(items: Vec<SpaceInfo>) -> Spaces
        ensures { result ≡ items.items }
    {
        Spaces { items }
    }

    /// How many there are.
    pub fn len(&self) -> usize
        ensures { result ≡ length self.now }
    {
        self.items.len()
    }

    /// The one at this place, from 0.
    pub fn get(&self, i: usize) -> &SpaceInfo
        requires { i < length self.now }
        ensures { result.now ≡ slice_index_or self.now i result.now }
    {
        &self.items[i]
    }

    /// Puts another one at this place.
    pub fn set(&mut self, i: usize, info: SpaceInfo)
        requires { i < length self.old }
        ensures { self.new ≡ slice_set self.old i info }
    {
        self.items[i] = info;
    }

    /// All of them.
    pub fn as_slice(&self) -> &[SpaceInfo]
        ensures { result.now ≡ self.now }
    {
        &self.items
    }
}

/// What is known of the pages of a space, from page 0 on. In contracts it is their list.
#[derive(Drop)]
pub struct HomeList {
    items: Vec<Home>,
}

impl Model for HomeList {
    ghost use Rattle.std.specs.Prelude.{List};
    ghost use Rattle.space_head.specs.declared.space.Home.{Home};

    ghost Value = { List Home };

    ghost view = { λ homes. homes.items.items };
}

impl HomeList {
    ghost use Rattle.std.specs.Prelude.{◌≡◌, ◌<◌, length, slice_index_or, slice_set};

    /// The list of these.
    pub fn of(items: Vec<Home>) -> HomeList
        ensures { result ≡ items.items }
    {
        HomeList { items }
    }

    /// How many there are.
    pub fn len(&self) -> usize
        ensures { result ≡ length self.now }
    {
        self.items.len()
    }

    /// The one at this place, from 0.
    pub fn get(&self, i: usize) -> &Home
        requires { i < length self.now }
        ensures { result.now ≡ slice_index_or self.now i result.now }
    {
        &self.items[i]
    }

    /// Puts another one at this place.
    pub fn set(&mut self, i: usize, home: Home)
        requires { i < length self.old }
        ensures { self.new ≡ slice_set self.old i home }
    {
        self.items[i] = home;
    }

    /// All of them.
    pub fn as_slice(&self) -> &[Home]
        ensures { result.now ≡ self.now }
    {
        &self.items
    }
}

/// What is known of the pages of each space, in the order of the spaces. In contracts it is the list of
/// their lists.
#[derive(Drop)]
pub struct Homes {
    items: Vec<HomeList>,
}

impl Model for Homes {
    ghost use Rattle.std.specs.Prelude.{List};
    ghost use Rattle.space_head.specs.declared.space.Home.{Home};

    ghost Value = { List (List Home) };

    ghost view = { λ homes. homes.items.items };
}

impl Homes {
    ghost use Rattle.std.specs.Prelude.{◌≡◌, ◌<◌, length, slice_index_or, slice_set, []};

    /// The list of these.
    pub fn of(items: Vec<HomeList>) -> Homes
        ensures { result ≡ items.items }
    {
        Homes { items }
    }

    /// How many there are.
    pub fn len(&self) -> usize
        ensures { result ≡ length self.now }
    {
        self.items.len()
    }

    /// The one at this place, from 0.
    pub fn get(&self, i: usize) -> &HomeList
        requires { i < length self.now }
        ensures { result.now ≡ slice_index_or self.now i [] }
    {
        &self.items[i]
    }

    /// Puts another one at a place of the list at this place.
    pub fn set(&mut self, i: usize, page: usize, home: Home)
        requires list { i < length self.old }
        requires place { page < length (slice_index_or self.old i []) }
        ensures { self.new ≡ slice_set self.old i (slice_set (slice_index_or self.old i []) page home) }
    {
        self.items[i].set(page, home);
    }
}
