//! What an image of a store holds, place by place, and what it recovers to.
//!
//! Definitions and laws alone, over pages and mini-transactions that they don't look into
//! (`Theory`), and over no bytes: a `View` says of an image what each home and each slot of the
//! doublewrite file holds, and the run of its log.
//!
//! 1. `IsChosen` is the text that a page is read from, `IsLive` a slot that may be read from.
//!    `ViewRecovers` says that an image recovers to contents, and these are one thing
//!    (`page_one`). `ViewStands` says that they are a beginning of the journal that holds all
//!    that was acknowledged, and that no page needs a key that was given up.
//! 2. `Places` are what each place reads as and what an image may hold there. `KeepsSession` is what
//!    every moment of a session has, `Ready` what holds between two calls; there is a lemma for
//!    each step of a call. Every image of a session then stands (`stands`).
//! 3. The stages of an opening: each image of one recovers the same contents
//!    (`moment_recovers`), also after openings that were stopped (`openings_recover`).
//! 4. A life of sessions, crashes and openings: no two texts of one page at one LSN, no two
//!    blocks of one number (`life_once`), and so no key and IV twice (`life_ivs`).
#![tactic(auto)]
