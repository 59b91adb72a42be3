// What is refused by numbers alone: a space whose least version isn't reached, and a log without numbers.
ghost use Rattle.std.specs.Prelude.{◌≡◌, ◌+◌, ◌≤◌, ◌<◌, ◌^◌, IfErr, OnOk};
ghost use Rattle.recovery.specs.Stages.{AreFloorsBelow, IsFloorRefusal, IsNumberRefusal};
ghost use Rattle.store_files.specs.Header.{most_ring_blocks};

use doublewrite::OpenRefuse;
use redo_text::LAST_BLOCK;
use space_head::SpaceInfo;

/// Refuses the first space whose least key version is above the active one. It takes no memory.
///
/// # Errors
/// [`OpenRefuse::VersionBelowFloor`] exactly where there is one.
pub fn check_floors(spaces: &[SpaceInfo], active: u32) -> Result<(), OpenRefuse>
    ensures ok { OnOk result (AreFloorsBelow active spaces.now) }
    ensures refused { IfErr result (IsFloorRefusal active spaces.now) }
{
    for space in spaces {
        if active < space.floor {
            return Err(OpenRefuse::VersionBelowFloor {
                space: space.space,
                floor: space.floor,
                version: active,
            });
        }
    }
    Ok(())
}

/// Refuses a log whose numbers end before a store could go on a ring behind the run that ends with
/// block `last`. It takes no memory.
///
/// # Errors
/// [`OpenRefuse::Spent`] exactly where `last + 1 + blocks` is above 2^35.
pub fn check_numbers(last: u64, blocks: u64) -> Result<(), OpenRefuse>
    requires { blocks ≤ most_ring_blocks }
    ensures ok { OnOk result (last + 1 + blocks ≤ 2 ^ 35) }
    ensures refused { IfErr result (IsNumberRefusal blocks last) }
{
    if last >= LAST_BLOCK - blocks {
        return Err(OpenRefuse::Spent { last });
    }
    Ok(())
}
