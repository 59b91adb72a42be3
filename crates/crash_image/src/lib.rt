//! What a crash image of a store recovers to, over its bytes and keys.
//!
//! The definitions that the log, the doublewrite file, creation, the engine and the opening all
//! speak in.
//!
//! 1. `Recovers`: the contents that an image recovers to, and the last block of its run. Everything
//!    that an opening refuses is a condition here. It is one thing
//!    (`recovers_one`).
//! 2. `Named`: the keys that reading an image needs. `Lucky`: no torn place passes the one test of
//!    its file. `Rotated`: no page needs a key that was given up.
//! 3. `Stands`: an image recovers to a beginning of a journal that holds all that was acknowledged,
//!    is rotated, and needs named keys alone.
//! 4. `Once` and `Settled`: what the record of all writes has, so that no key and IV serve twice.
//! 5. `IsAtRest`: nothing is pending, the run is empty, and no slot is read from.
#![tactic(auto)]
