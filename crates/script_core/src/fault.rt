// Why a script isn't read, and why it isn't run.
use cause_core::OutOfMemory;
use std::alloc::AllocFailed;
use thiserror::Error;

/// What is wrong with a line: with the first of its words that can't stand where it stands, or with
/// its end.
#[derive(Clone, Copy, Debug, PartialEq, Eq, Error)]
pub enum LineFault {
    /// Another word stands where the name of a statement or of a change must stand.
    #[error("Word")]
    Word,
    /// Not decimal digits without a leading zero.
    #[error("Number")]
    Number,
    /// A number outside what stands here, or past a u32.
    #[error("Range")]
    Range,
    /// Not the hex digits of bytes.
    #[error("Hex")]
    Hex,
    /// The line ends early.
    #[error("Missing")]
    Missing,
    /// A word after a whole statement, or a word other than `;` after a whole change.
    #[error("Extra")]
    Extra,
    /// A 65th change, at its `;`.
    #[error("TooMany")]
    TooMany,
    /// A batch is taken that is outstanding, or one is put that isn't.
    #[error("Batch")]
    Batch,
}

// Why a line isn't read.
#[derive(Clone, Copy, Debug, PartialEq, Eq, Error)]
pub(crate) enum LineError {
    #[error("{0}")]
    Fault(LineFault),
    #[error("out of memory")]
    OutOfMemory,
}

impl From<LineFault> for LineError {
    ghost use Rattle.std.specs.Prelude.{◌≡◌};
    ghost use Rattle.script_core.specs.declared.fault.LineError.TheVariants.{Fault};

    ghost from_gives = { λ k e. e ≡ Fault k };

    fn from(kind: LineFault) -> LineError {
        LineError::Fault(kind)
    }
}

impl From<OutOfMemory> for LineError {
    ghost use Rattle.std.specs.Prelude.{◌≡◌};
    ghost use Rattle.script_core.specs.declared.fault.LineError.TheVariants.{OutOfMemory};

    ghost from_gives = { λ _ e. e ≡ OutOfMemory };

    fn from(_e: OutOfMemory) -> LineError {
        LineError::OutOfMemory
    }
}

impl<T: Drop> From<AllocFailed<T>> for LineError {
    ghost use Rattle.std.specs.Prelude.{◌≡◌};
    ghost use Rattle.script_core.specs.declared.fault.LineError.TheVariants.{OutOfMemory};

    ghost from_gives = { λ _ e. e ≡ OutOfMemory };

    fn from(_e: AllocFailed<T>) -> LineError {
        LineError::OutOfMemory
    }
}

/// Why a text is no script.
#[derive(Clone, Copy, Debug, PartialEq, Eq, Error)]
pub enum ScriptFault {
    /// The first line that is bad, counted from 1.
    #[error("line {line}: {kind}")]
    BadLine { line: u32, kind: LineFault },
    /// No line is bad, and there are more than 10,000 statements.
    #[error("too many statements")]
    TooMany,
    /// The machine had no memory for the call.
    #[error("out of memory")]
    OutOfMemory,
}

/// Why a store refuses a statement. A refused line has the first of these, in this order, where the
/// check of a script answers it; the last four come where the statement is run.
#[derive(Clone, Copy, Debug, PartialEq, Eq, Error)]
pub enum Why {
    /// The store has no such tablespace.
    #[error("NoSuchSpace {space}")]
    NoSuchSpace { space: u32 },
    /// Page 0, or a page past the tablespace's end.
    #[error("NoSuchPage {space} {page}")]
    NoSuchPage { space: u32, page: u32 },
    /// The range is empty or doesn't lie in bytes 38 to 16376 of a page.
    #[error("BadRange {at} {length}")]
    BadRange { at: u32, length: usize },
    /// The mini-transaction would have this many blocks, and more than 16.
    #[error("TooLong {blocks}")]
    TooLong { blocks: usize },
    /// A run by threads has no statements other than `mtr` and `read`.
    #[error("NotInRun")]
    NotInRun,
    /// The tablespace is ciphered already.
    #[error("Ciphered {space}")]
    Ciphered { space: u32 },
    /// The tablespace isn't ciphered.
    #[error("Plain {space}")]
    Plain { space: u32 },
    /// The version asked for isn't greater than the active one.
    #[error("NotNewer {active} {asked}")]
    NotNewer { active: u32, asked: u32 },
    /// The first page that is dirty, or needs rotation, and its key version.
    #[error("Pending {page} {version}")]
    Pending { page: u32, version: u32 },
}

/// A statement that a store refuses: its line, and why.
#[derive(Clone, Copy, Debug, PartialEq, Eq, Error)]
#[error("line {line} refused: {why}")]
pub struct Refused {
    pub line: u32,
    pub why: Why,
}
