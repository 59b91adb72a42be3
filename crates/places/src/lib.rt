//! Files of places of one size, each written whole: what a place reads as, and what a crash may
//! leave there.
//!
//! Definitions and laws alone, on the past of a disk (`disk_model`):
//!
//! 1. `shown` is what place i of a file reads as. `May` is what a crash may leave of it: the bytes
//!    that it had at the last sync, those of a later write of it, or torn (`None`). There is a
//!    lemma for each event.
//! 2. `HasPlaces` says that each write since the last sync was one of a whole place whose test
//!    refuses it once its last byte is inverted. A crash of a memory disk is then lucky
//!    (`refusable`), and each place of a lucky image is one that `May` allows (`in_lucky`).
//! 3. `Writing`, `Wrote` and `BatchSettled` are places written in a row by a list of places and bytes,
//!    `Filling` and `Filled` are places written in the order of the file.
#![tactic(auto)]
