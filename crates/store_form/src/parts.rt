// A store at rest is taken apart.
ghost use Rattle.std.specs.Prelude.{◌≡◌, ◌≤◌};
ghost use Rattle.disk_model.specs.Past.{At};
ghost use Rattle.store_files.specs.Header.{most_spaces};
ghost use Rattle.store_form.specs.Rest.{IsRestForm, ReadsAtRest};
ghost use Rattle.store_form.specs.Said.{header_said};

use crate::{AtRest, Header, Homes, Spaces};
use disk_model::Disk;

/// A store at rest, taken apart: its disk, its header, its spaces in order of id, what is known of their
/// pages, the number of the log's next block, and the sequence of the newest checkpoint.
#[derive(Drop)]
pub struct RestParts<D> {
    pub disk: D,
    pub header: Header,
    pub spaces: Spaces,
    pub homes: Homes,
    pub next: u64,
    pub sequence: u64,
}

impl<D: Disk + Drop> AtRest<D> {
    /// The parts of the store. It takes no memory.
    pub fn into_parts(self) -> RestParts<D>
        ensures disk { result.disk ≡ self.disk }
        ensures header { header_said result.header ≡ self.header }
        ensures format { result.header.format ≡ 2 }
        ensures count { result.header.count ≤ most_spaces }
        ensures spaces { result.spaces ≡ self.spaces }
        ensures homes { result.homes ≡ self.homes }
        ensures next { result.next ≡ self.next }
        ensures sequence { result.sequence ≡ self.sequence }
        // They fit together, and the disk reads as they tell.
        ensures form { IsRestForm self.header self.spaces self.homes self.next self.sequence }
        ensures reads { At (ReadsAtRest self.header self.spaces self.homes self.next self.sequence) (D.past self.disk) }
    {
        let AtRest {
            disk,
            header,
            spaces,
            homes,
            next,
            sequence,
        } = self;
        RestParts {
            disk,
            header,
            spaces,
            homes,
            next,
            sequence,
        }
    }
}
