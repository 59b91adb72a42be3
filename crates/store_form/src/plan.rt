// What a store is to be made as.
use aes_core::Algorithm;
use std::marker::Model;

/// A space that is to be made.
#[derive(Clone, Copy, Debug, PartialEq, Eq)]
pub struct SpacePlan {
    /// Its id, 1 to 4294967279.
    pub space: u32,
    /// Its size in pages, page 0 included: 2 to 16384.
    pub pages: u32,
    /// The id of its key, at least 1.
    pub key_id: u32,
    /// Whether its pages are to be ciphered.
    pub ciphered: bool,
}

/// The spaces of a plan, in order. In contracts it is their list.
#[derive(Drop)]
pub struct SpacePlans {
    items: Vec<SpacePlan>,
}

/// A store that is to be made.
#[derive(Drop)]
pub struct StorePlan {
    /// The number of ring blocks of its log, 32 to 4096.
    pub blocks: u64,
    /// The key version that is active as it is made, at least 1.
    pub active: u32,
    /// How its pages and its log are ciphered.
    pub algorithm: Algorithm,
    /// 1 to 16 spaces, whose ids differ, with 16384 pages at most together.
    pub spaces: SpacePlans,
}

impl Model for SpacePlans {
    ghost use Rattle.std.specs.Prelude.{List};
    ghost use Rattle.store_form.specs.declared.plan.SpacePlan.{SpacePlan};

    ghost Value = { List SpacePlan };

    ghost view = { λ plans. plans.items.items };
}

impl SpacePlans {
    ghost use Rattle.std.specs.Prelude.{◌≡◌, ◌<◌, length, slice_index_or};

    /// The list of these.
    pub fn of(items: Vec<SpacePlan>) -> SpacePlans
        ensures { result ≡ items.items }
    {
        SpacePlans { items }
    }

    /// How many there are.
    pub fn len(&self) -> usize
        ensures { result ≡ length self.now }
    {
        self.items.len()
    }

    /// The one at this place, from 0.
    pub fn get(&self, i: usize) -> &SpacePlan
        requires { i < length self.now }
        ensures { result.now ≡ slice_index_or self.now i result.now }
    {
        &self.items[i]
    }
}
