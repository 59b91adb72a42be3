// What a session's disk answers once it was stopped.
ghost use Rattle.std.specs.Prelude.{◌≡◌, None, OnOk};
ghost use Rattle.session_core.specs.Stops.{device_fault, up_or_refused};

use crate::EngineFault;
use counted_disk::Counted;
use disk_model::{Disk, DiskError};

/// Whether calls are taken: a session whose disk was stopped refuses each.
pub(crate) fn check_up<D: Disk + Drop>(disk: &Counted<D>) -> Result<(), EngineFault>
    ensures value { result ≡ up_or_refused disk.now.stop disk.now.turns }
    ensures up { OnOk result (disk.now.stop ≡ None) }
{
    let Some(stop) = disk.stop() else {
        return Ok(());
    };
    match stop.error {
        DiskError::Failed => Err(EngineFault::Down { turn: disk.turns() }),
        DiskError::NoMemory => Err(EngineFault::OutOfMemory),
    }
}

/// The refusal of a call whose device call answered this error.
pub(crate) fn fault_of<D: Disk + Drop>(disk: &Counted<D>, error: DiskError) -> EngineFault
    ensures { result ≡ device_fault error disk.now.turns }
{
    match error {
        DiskError::Failed => EngineFault::DiskFault { turn: disk.turns() },
        DiskError::NoMemory => EngineFault::OutOfMemory,
    }
}
