// The keys that a version needs: that of the log, and that of each space.
ghost use Rattle.std.specs.Prelude.{◌≡◌, ◌≤◌, MatchOption, All};
ghost use Rattle.key_ring.specs.Ring.{pairs_of};
ghost use Rattle.session_core.specs.Keys.{HasVersion, IsLeastIdLacking};
ghost use Rattle.session_core.specs.Spaces.{NoneAbove};
ghost use Rattle.session_core.specs.Start.{IsFirstFloorAbove};
ghost use Rattle.store_form.specs.Plan.{lesser_missing};

use key_ring::Ring;
use space_head::SpaceInfo;

// The lesser of an id so far and one whose key may be missing.
fn lesser(ring: &Ring, version: u32, least: Option<u32>, id: u32) -> Option<u32>
    ensures { result ≡ lesser_missing ring.now version least id }
{
    if ring.get(id, version).is_some() {
        return least;
    }
    match least {
        Some(other) if other <= id => Some(other),
        _ => Some(id),
    }
}

/// The least of the id 1 and the spaces' key ids under which the ring lacks this version.
pub(crate) fn first_lacking(ring: &Ring, version: u32, spaces: &[SpaceInfo]) -> Option<u32>
    ensures lacking { MatchOption result (HasVersion ring.now version spaces.now) (IsLeastIdLacking ring.now version spaces.now) }
    // The ring has no version 0.
    ensures versions { All (λ p. 1 ≤ p.1) (pairs_of ring.now) }
{
    let _count = ring.len();
    let mut least = lesser(ring, version, None, 1);
    for info in spaces {
        least = lesser(ring, version, least, info.key_id);
    }
    least
}

/// The first of the spaces whose floor is above this version.
pub(crate) fn first_above(version: u32, spaces: &[SpaceInfo]) -> Option<SpaceInfo>
    ensures { MatchOption result (NoneAbove version spaces.now) (IsFirstFloorAbove version spaces.now) }
{
    for info in spaces {
        if version < info.floor {
            return Some(*info);
        }
    }
    None
}
