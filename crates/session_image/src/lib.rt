//! What a running session keeps of its disk, over bytes and keys, with no code: the definitions that
//! an engine's contracts and type speak in, and the laws of its device calls.
//!
//! 1. `SessionMoment` holds at each moment since the session began, also inside a call and after one
//!    that failed. With it each lucky image stands for a beginning of the journal (`AllImagesStand`).
//! 2. `SessionReady` holds between two calls that were answered Ok.
//! 3. `SessionRecord` goes beside both: of what was written no number serves two texts, and each
//!    lucky image agrees with it (`AllImagesSettled`).
//! 4. `BeginsSession` and `BeginsRecord` are what a session's start needs of its disk.
#![tactic(auto)]
