// A page in memory.

ghost use Rattle.std.specs.Prelude.{◌≡◌, ◌<◌, ◌^◌, None, length, IfOk};
ghost use Rattle.std.specs.Int.{to_be_bytes, w32};
ghost use Rattle.redo_text.specs.Changes.{change_of};
ghost use Rattle.redo_text.specs.Text.{IsAllowed, IsRange};
ghost use Rattle.store_model.specs.Fold.{used, written};
ghost use Rattle.page_places.specs.Texts.{page_bytes};
ghost use Rattle.page_pool.specs.Pages.{plain_page};
ghost use Rattle.page_pool.specs.Changes.{body_written, kind_set, page_changed_by};

use byte_list::fields::{put, put_be16};
use byte_list::zero_bytes;
use cause_core::OutOfMemory;
use page_places::PAGE_BYTES;
use redo_text::ChangeView;
use space_head::{RECORD_MINIMUM, RECORD_MODE, RECORD_TYPE, record_place};
use std::alloc::Global;
use std::marker::Model;

// Where the type of a page stands in it.
const KIND_PLACE: usize = page_places::PAGE_TYPE_AT;

// The bytes of a held page. Contracts see its type and its body.
#[derive(Drop)]
pub(crate) struct Frame {
    bytes: Vec<u8>,
}

impl Model for Frame {
    ghost use Rattle.std.specs.Prelude.{◌≡◌, length};
    ghost use Rattle.page_places.specs.Texts.{page_bytes};
    ghost use Rattle.page_pool.specs.Pages.{plain_page};
    ghost use Rattle.store_model.specs.declared.contents.PlainPage.{PlainPage};

    ghost Value = { PlainPage };

    ghost view = { λ f. plain_page f.bytes.items };

    ghost invariant = { λ f. length f.bytes.items ≡ page_bytes };
}

impl Frame {
    // A page that nothing was written to.
    pub(crate) fn unused(alloc: Global) -> Result<Frame, OutOfMemory>
        ensures { IfOk result (λ f. f ≡ used None) }
    {
        let bytes = zero_bytes(alloc, PAGE_BYTES)?;
        Ok(Frame { bytes })
    }

    // A copy of a page's bytes.
    pub(crate) fn copy_of(alloc: Global, page: &[u8]) -> Result<Frame, OutOfMemory>
        requires { length page.now ≡ page_bytes }
        ensures { IfOk result (λ f. f ≡ plain_page page.now) }
    {
        let bytes = page.to_vec(alloc)?;
        Ok(Frame { bytes })
    }

    pub(crate) fn bytes(&self) -> &[u8]
        ensures page { plain_page result.now ≡ self.now }
        ensures whole { length result.now ≡ page_bytes }
    {
        &self.bytes
    }

    // Writes bytes over the body. Places are counted from the page's beginning.
    fn write(&mut self, at: usize, bytes: &[u8])
        requires { IsRange at (length bytes.now) }
        ensures { self.new ≡ body_written at bytes.now self.old }
    {
        put(&mut self.bytes, at, bytes);
    }

    fn set_kind(&mut self, kind: u16)
        ensures { self.new ≡ kind_set kind self.old }
    {
        put_be16(&mut self.bytes, KIND_PLACE, kind);
    }

    // Makes a change that names this page.
    pub(crate) fn change(&mut self, change: &ChangeView)
        requires { IsAllowed (change_of change.now) }
        ensures { self.new ≡ page_changed_by (change_of change.now) self.old }
    {
        match *change {
            ChangeView::Put { at, bytes, .. } => self.write(at as usize, bytes),
            ChangeView::Kind { kind, .. } => self.set_kind(kind),
            ChangeView::Touch { .. } => {}
            ChangeView::Floor { version, .. } => {
                self.write(
                    record_place(PAGE_BYTES) + RECORD_MINIMUM,
                    &version.to_be_bytes(),
                );
            }
            ChangeView::Encrypt { .. } => {
                self.write(record_place(PAGE_BYTES) + RECORD_TYPE, &[1]);
                self.write(record_place(PAGE_BYTES) + RECORD_MODE, &[1]);
            }
        }
    }
}
