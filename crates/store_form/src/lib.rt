//! The form of a store at rest: what its header says, how it is created, and how its pages are read.
//!
//! What this layer promises:
//!
//! 1. [`read_header`] reads the header of a store, block 0 of its log, exactly where it is one of
//!    format 2: its checksum, magic, format, page size, algorithm, number of ring blocks, number and
//!    order of spaces and the limits are right. It takes no memory.
//! 2. [`create`] makes a store of a [`StorePlan`] on a disk: at Ok it is at rest with the plan's spaces,
//!    no page of them used, and with the salts as they were drawn. At each moment meanwhile each image
//!    of a crash has no valid header, or it recovers to just that; no mark is told, and of page texts
//!    and ring blocks only texts of pages 0 are written. Each refusal hands back the disk.
//! 3. [`AtRest`] is a store at rest: a disk with what it reads as, which its type keeps. Its calls tell
//!    what it was made of, and take no memory.
//! 4. [`AtRest::read_page`] answers a page by the bytes of its home alone: that it is unused, its plain
//!    page, the version that the ring lacks, or the first fault of its text; and what it answers is
//!    what is known of the page. Of a disk that is at rest with contents it gives the page of these.
//! 5. [`AtRest::into_parts`] takes a store apart, and [`read_home`] and [`open_home_with`] read a page of
//!    it with a key that the caller has.
#![tactic(auto)]

mod checks;
mod create_fault;
mod creation;
mod drawing;
mod fault;
mod first_page;
mod header;
mod header_block;
mod lists;
mod making;
mod parts;
mod plan;
mod plan_order;
mod reading;
mod rest;
mod space_list;
mod store_made;

pub use create_fault::CreateFault;
pub use creation::{CreateRefusal, create};
pub use fault::RestFault;
pub use header::{Header, HeaderSpace, read_header};
pub use lists::{HomeList, Homes, Spaces};
pub use parts::RestParts;
pub use plan::{SpacePlan, SpacePlans, StorePlan};
pub use reading::{open_home_with, read_home};
pub use rest::AtRest;

#[cfg(test)]
mod create_tests;
#[cfg(test)]
mod home_tests;
#[cfg(test)]
mod page_tests;
#[cfg(test)]
mod tests;
