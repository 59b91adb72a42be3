//! Stores that are laid down by the words of their formats, and what an opening finds of them.
#![tactic(auto)]

mod files;

pub use files::{LaidFiles, disk_of};

#[cfg(test)]
mod laid;
#[cfg(test)]
mod look_tests;
