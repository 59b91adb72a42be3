//! The text of a page, in pages of 4096, 8192, 16384, 32768 and 65536 bytes: MariaDB's full_crc32
//! with AES_CBC or AES_CTR, as this project's profile of it has them.
//!
//! What this layer promises, `IsText` and `IsState` being definitions in specs/:
//!
//! 1. [`check`] tells the state of a page by its bytes alone: zero, valid, or bad with the two
//!    checksums.
//! 2. [`seal`] writes over a plain page's type and body its text under a space, a page number, an
//!    LSN, a key version and a key.
//! 3. [`unseal`] accepts exactly the page texts of a space, a page and a key, and leaves the plain
//!    page. Each refusal comes exactly where it is the first in order, with the two values that
//!    differ, and leaves the page as it was or deciphered, as its fault says.
//! 4. The parts of a page are borrowed slices, to be read ([`PageView`]) and to be written
//!    ([`PageMut`]). A view's header, body and trailer, joined in this order, are the page; what is
//!    written through a part that a `PageMut` lends is the page's new part, and all else stays. So
//!    it is with the slice of a page made by [`PageMut::of`], once the page is gone.
//! 5. Nothing is copied, and nothing here takes memory.
//!
//! Numbers in a page have their highest byte first. A page has these parts, n being its length:
//! header 0 to 38, body 38 to n - 8, trailer n - 8 to n; what is ciphered stands from 26 to n - 4.
#![tactic(auto)]

mod fault;
mod key;
mod layout;
mod opening;
mod parts;
mod sealing;
mod state;
mod view;

pub use fault::OpenFault;
pub use key::{PageKey, Seal};
pub use opening::unseal;
pub use parts::{PageBytes, PageMut, WritablePage, is_page_size};
pub use sealing::seal;
pub use state::{PageState, check};
pub use view::PageView;

#[cfg(test)]
mod part_tests;
#[cfg(test)]
mod real_page;
#[cfg(test)]
mod text_tests;
