// Which batches are outstanding.
ghost use Rattle.std.specs.Prelude.{◌≡◌, ◌≤◌, IsTrue, ◌↔◌, List, [], ◌∷◌, Bool};
ghost use Rattle.script_core.specs.declared.act.Act.{Act};
ghost use Rattle.script_core.specs.Batches.{IsOut, Tells, HasBatch};

use crate::act::Act;

// The greatest number of a batch.
pub(crate) const LAST_BATCH: u32 = 16;

// An entry for each number of a batch, and one for 0.
const BATCH_ENTRIES: usize = 17;

// The batches from 1 to 16 that were taken and not yet put. Entry 0 isn't used.
#[derive(Drop)]
pub(crate) struct Batches {
    out: [bool; BATCH_ENTRIES],
}

impl Batches {
    // None is outstanding.
    pub(crate) fn none() -> Batches
        ensures { Tells result.out [] }
    {
        Batches {
            out: [false; BATCH_ENTRIES],
        }
    }

    // Whether this one is.
    pub(crate) fn is_out(&self, batch: u32) -> bool
        requires from { 1 ≤ batch }
        requires to { batch ≤ 16 }
        ensures { (before : List Act) → Tells self.now.out before → IsTrue result ↔ IsOut batch before }
    {
        self.out[batch as usize]
    }

    // After one statement more.
    pub(crate) fn note(&mut self, act: &Act)
        requires { HasBatch act.now }
        ensures { (before : List Act) → Tells self.old.out before → Tells self.new.out (act.now ∷ before) }
    {
        match act {
            Act::Take { batch, .. } => self.out[*batch as usize] = true,
            Act::Put { batch } => self.out[*batch as usize] = false,
            _ => {}
        }
    }
}
