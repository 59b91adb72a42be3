// Another version of the keys becomes the active one.
ghost use Rattle.std.specs.Prelude.{◌≡◌, ◌<◌, None, IfErr, OnErr, OnOk};
ghost use Rattle.session_core.specs.Activating.{IsVersionRefusal};
ghost use Rattle.session_core.specs.Keys.{HasVersion};

use crate::{EngineFault, SessionCore};
use disk_model::Disk;

impl<D: Disk + Drop> SessionCore<D> {
    // Refuses a version that can't become the active one.
    fn check_version(&self, version: u32) -> Result<(), EngineFault>
        ensures newer { OnOk result (self.now.active < version) }
        ensures keyed { OnOk result (HasVersion self.now.ring version self.now.store.spaces) }
        ensures up { OnOk result (self.now.disk.stop ≡ None) }
        ensures refused { IfErr result (IsVersionRefusal self.now version) }
    {
        self.check()?;
        if version <= self.active {
            return Err(EngineFault::NotNewer {
                active: self.active,
                asked: version,
            });
        }
        match self.keys.first_lacking(version, self.store.spaces()) {
            Some(id) => Err(EngineFault::NoVersion { id, version }),
            None => Ok(()),
        }
    }

    /// From here on new texts are ciphered under this version. It takes no memory, and the disk isn't
    /// called.
    ///
    /// # Errors
    /// The first of these, and nothing is changed: [`EngineFault::Down`] or [`EngineFault::OutOfMemory`]
    /// exactly where the disk was stopped; [`EngineFault::NotNewer`] exactly where the version isn't above
    /// the active one; [`EngineFault::NoVersion`] exactly where the ring lacks it under id 1 or a space's key
    /// id, with the least such id.
    pub fn activate(&mut self, version: u32) -> Result<(), EngineFault>
        ensures active { OnOk result (self.new ≡ record self.old { active = version }) }
        ensures newer { OnOk result (self.old.active < version) }
        ensures keyed { OnOk result (HasVersion self.old.ring version self.old.store.spaces) }
        ensures up { OnOk result (self.old.disk.stop ≡ None) }
        ensures refused { IfErr result (IsVersionRefusal self.old version) }
        ensures unchanged { OnErr result (self.new ≡ self.old) }
    {
        self.check_version(version)?;
        self.active = version;
        Ok(())
    }
}
