//! Where bytes come from and go to: a [`Source`] that hands out bytes in order, a [`Sink`] that
//! takes them, and a [`Library`] of named files. Layers above are generic over these three, so
//! that one proof serves memory, streams and files.
//!
//! What the layer promises of every implementation:
//!
//! 1. What an object holds is told as an option: the bytes that a source still has (`left`), those
//!    that a sink was given (`given`), the files of a library (`files`). Each call says by one
//!    equation what it does to that, and an object that tells nothing (`None`) meets each such
//!    equation, so no caller splits on it.
//! 2. A count of faults never falls, and [`IoError::Failed`] is answered only where it rose in that
//!    call. A count of refused memory stands to [`IoError::NoMemory`] in the same way, and a count
//!    of absences to the answer that a library has no file of a name. At Ok neither faults nor
//!    refusals rose, and at `NoMemory` no fault did: no call is made again with a fault dropped.
//! 3. An error of a source leaves what is to come as it was. An error of a sink leaves some of the
//!    bytes given, from their front on. No call of a library changes its files.
//!
//! [`ByteSource`], [`ByteSink`] and [`Shelf`] keep everything in memory, tell all of it, and fail at
//! exactly the calls that they are made with. [`StdSource`], [`StdSink`] and [`Folder`] stand over
//! std's streams and files and tell nothing of content: they are the trusted edge. [`read_all`] and
//! [`read_file`] read a whole source or file up to a limit.
#![tactic(auto)]

mod byte_sink;
mod byte_source;
mod bytes;
mod calls;
mod counts;
mod error;
mod folder;
mod library;
#[cfg(test)]
mod opens;
mod shelf;
mod sink;
mod source;
mod std_sink;
mod std_source;
mod whole;

pub use byte_sink::ByteSink;
pub use byte_source::ByteSource;
pub use error::IoError;
pub use folder::Folder;
pub use library::Library;
pub use shelf::Shelf;
pub use sink::Sink;
pub use source::Source;
pub use std_sink::StdSink;
pub use std_source::StdSource;
pub use whole::{FileContents, SourceContents, read_all, read_file};

#[cfg(test)]
mod tests;
