//! Key rotation of a tablespace's pages: the age rule, the page that is next, and the least version
//! that pages need. Nothing here takes memory.
//!
//! A page is known by its [`Home`]: unused, clean under a key version (0 for a page in clear), or
//! dirty. What holds of every answer:
//!
//! 1. [`needs_rotation`] is the age rule, summed in 64 bits.
//! 2. [`Turner::next`] is the first clean page from page 1 on that needs rotation.
//! 3. [`least`] is the least version of the used pages from page 1 on, where none is dirty.
#![tactic(auto)]

ghost use Rattle.std.specs.Prelude.{◌≡◌, ◌⊎◌, ◌≤◌, length, MatchOption};
ghost use Rattle.rotation.specs.Rotation.{IsFirstDue, IsLeastBelow, NoneCleanBelow, NoneDirty, NoneDueBelow, is_due, needs_rotation};

pub use space_head::Home;

#[cfg(test)]
mod tests;

/// Whether a page of this version has to be written anew under the latest version: never where
/// `age` or `latest` is 0, else where the page is in clear (version 0) or its version with `age`
/// added is below `latest`.
pub fn needs_rotation(version: u32, latest: u32, age: u32) -> bool
    ensures { result ≡ needs_rotation version latest age }
{
    if age == 0 || latest == 0 {
        return false;
    }
    version == 0 || u64::from(version) + u64::from(age) < u64::from(latest)
}

fn is_due(home: Home, latest: u32, age: u32) -> bool
    ensures { result ≡ is_due latest age home }
{
    match home {
        Home::Clean(version) => needs_rotation(version, latest, age),
        Home::Unused | Home::Dirty => false,
    }
}

/// Gives the pages of a tablespace their turn, one after the other. It remembers nothing: a page
/// that was passed may be due again under a later version.
#[derive(Debug, Drop)]
pub struct Turner {}

impl Turner {
    /// A turner.
    pub fn new() -> Turner {
        Turner {}
    }

    /// The first clean used page from page 1 on that needs rotation; None exactly where there is
    /// none. `homes` are the pages from page 0 on.
    pub fn next(&mut self, homes: &[Home], latest: u32, age: u32) -> Option<u32>
        requires { length homes.now ≤ 4294967295 }
        ensures { MatchOption result (NoneDueBelow homes.now latest age (length homes.now)) (IsFirstDue homes.now latest age) }
    {
        for page in 1..homes.len() {
            if is_due(homes[page], latest, age) {
                return Some(page as u32);
            }
        }
        None
    }
}

// The lower one of a least version so far and a page's.
fn lower(least: Option<u32>, version: u32) -> u32
    ensures { MatchOption least (result ≡ version) (λ old. (result ≤ version) × (result ≤ old) × ((result ≡ version) ⊎ (result ≡ old))) }
{
    match least {
        Some(old) if old < version => old,
        _ => version,
    }
}

/// The least version of the used pages from page 1 on, none of which may be dirty; None exactly
/// where none is used. `homes` are the pages from page 0 on.
pub fn least(homes: &[Home]) -> Option<u32>
    requires { NoneDirty homes.now }
    ensures { MatchOption result (NoneCleanBelow homes.now (length homes.now)) (IsLeastBelow homes.now (length homes.now)) }
{
    let mut least = None;
    for page in 1..homes.len() {
        if let Home::Clean(version) = homes[page] {
            least = Some(lower(least, version));
        }
    }
    least
}
