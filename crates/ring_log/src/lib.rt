//! The log's file as a ring of numbered blocks behind a header and two checkpoints, over any form
//! of block.
//!
//! Definitions and laws alone, on the past of a disk (`disk_model`, `places`):
//!
//! 1. `Form` is what is told of blocks: which bytes are a valid block of a number, which begin and
//!    end a mini-transaction, which blocks are those of one, and what a checkpoint says. `IsForm` is
//!    what a form must keep.
//! 2. `RingState` is what a session knows of its log. `Ringed` holds at each moment of it, also after a
//!    refusal, and `RingReady` between calls that were answered Ok. There is a lemma for each call that
//!    writes blocks or a checkpoint (`ready_writing`, `ready_settled`, `ready_checking`,
//!    `ready_checked`).
//! 3. Of a ring whose blocks are a journal's (`IsRingJournal`) each lucky image stands for a part of
//!    it: the run from its newest checkpoint is whole mini-transactions of the journal, which end
//!    between the settled blocks and the written ones, and no valid block has a number that the
//!    blocks behind the run could meet (`stands`; for a session of `store_image`, `image_log`).
//! 4. `IsRingRun` is the longest run of whole mini-transactions by its blocks alone, as it is read
//!    block by block (`read_more`, `read_stops`, `read_all`); of a file that says something it ends
//!    where that ends (`run_of_log`).
#![tactic(auto)]
