// The state of a page, by its bytes alone.

ghost use Rattle.std.specs.Prelude.{length};
ghost use Rattle.space_head.specs.Sizes.{IsPageSize};
ghost use Rattle.page_text.specs.State.{IsState};

use crate::layout::CHECKSUM;
use byte_list::fields::be32_at;
use bytes_core::crc32c;

/// What a page's bytes alone tell of it.
#[derive(Clone, Copy, Debug, PartialEq, Eq)]
pub enum PageState {
    /// All bytes are zero: an unused page, which has no checksum.
    Zero,
    /// The checksum in the last four bytes is that of all bytes before them.
    Valid,
    /// The checksum that is stored isn't the one that the bytes have.
    Bad { stored: u32, computed: u32 },
}

/// Tells the state of a page of one of the five sizes.
pub fn check(bytes: &[u8]) -> PageState
    requires { IsPageSize (length bytes.now) }
    ensures { IsState bytes.now result }
{
    if bytes.iter().all(|byte| *byte == 0) {
        return PageState::Zero;
    }
    let end = bytes.len() - CHECKSUM;
    let stored = be32_at(bytes, end);
    let computed = crc32c(&bytes[..end]);
    if stored == computed {
        PageState::Valid
    } else {
        PageState::Bad { stored, computed }
    }
}
