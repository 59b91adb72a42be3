// Another version of the keys becomes the active one.
ghost use Rattle.std.specs.Prelude.{◌≡◌, ◌<◌, None, IfErr, OnErr, OnOk};
ghost use Rattle.session_core.specs.Activating.{IsVersionRefusal};
ghost use Rattle.session_core.specs.Keys.{HasVersion};

use crate::{Engine, EngineFault};
use disk_model::Disk;

impl<D: Disk + Drop> Engine<D> {
    /// From here on new texts are ciphered under this version. It takes no memory, and the disk isn't
    /// called.
    ///
    /// # Errors
    /// The first of these, and nothing is changed: [`EngineFault::Down`] or [`EngineFault::OutOfMemory`]
    /// exactly where the disk was stopped; [`EngineFault::NotNewer`] exactly where the version isn't above
    /// the active one; [`EngineFault::NoVersion`] exactly where the ring lacks it under id 1 or a space's key
    /// id, with the least such id.
    pub fn activate(&mut self, version: u32) -> Result<(), EngineFault>
        ensures active { OnOk result (self.new.now ≡ record self.old.now { active = version }) }
        ensures newer { OnOk result (self.old.now.active < version) }
        ensures keyed { OnOk result (HasVersion self.old.now.ring version self.old.now.store.spaces) }
        ensures up { OnOk result (self.old.now.disk.stop ≡ None) }
        ensures refused { IfErr result (IsVersionRefusal self.old.now version) }
        ensures unchanged { OnErr result (self.new.now ≡ self.old.now) }
        ensures first { self.new.first ≡ self.old.first }
    {
        self.core.activate(version)
    }
}
