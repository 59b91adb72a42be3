// What a list of words asks for.
use crate::text::{CrashChoices, FileNames, NewSpaces, OptionText};
use aes_core::Algorithm;
use key_file::KeyDigest;

/// The keys of a store, as the words name them.
#[derive(Debug, Drop)]
pub struct KeyOptions {
    /// The key files, 1 to 64, those of version 1, 2, .. in order.
    pub key_files: FileNames,
    /// The password of enciphered key files, or `FILE:` and the name of a file that has it.
    pub filekey: Option<OptionText>,
    /// The digest that the key of an enciphered key file is derived with, SHA-1 by default.
    pub digest: KeyDigest,
    /// The active version, by default the number of key files.
    pub active: u32,
}

/// A store to be made.
#[derive(Debug, Drop)]
pub struct CreateOptions {
    pub keys: KeyOptions,
    /// The tablespaces, 1 to 16, of different ids, with 16384 pages together at most.
    pub spaces: NewSpaces,
    /// The blocks of the log's ring, 32 to 4096, by default 256.
    pub log: u32,
    /// The mode of the cipher, CBC by default.
    pub algorithm: Algorithm,
}

/// A schedule to be run on a store, statement by statement.
#[derive(Debug, Drop)]
pub struct StepOptions {
    pub keys: KeyOptions,
    /// How many versions behind the active one a page may be, 0 to 2^31, by default 1.
    pub age: u32,
    /// Whether the binary log of the journal is printed.
    pub binlog: bool,
}

/// A schedule to be run on a store by threads.
#[derive(Debug, Drop)]
pub struct RunOptions {
    pub step: StepOptions,
    /// The threads that write pages home, 1 to 4, by default 1.
    pub flushers: u32,
    /// The threads that rotate keys, 1 to 4, by default 1.
    pub rotators: u32,
}

/// How a session of a drill ends.
#[derive(Debug, Drop)]
pub struct CrashOptions {
    /// The turn at which the disk stops, 1 to 1,000,000, counted from the start of the session.
    pub stop: Option<u32>,
    /// What the crash makes of the unsynced writes, by default that all are lost.
    pub choices: CrashChoices,
}

/// A drill.
#[derive(Debug, Drop)]
pub struct DrillOptions {
    pub store: CreateOptions,
    /// How many versions behind the active one a page may be, 0 to 2^31, by default 1.
    pub age: u32,
    pub first: CrashOptions,
    /// The turn at which the opening after the first session is stopped, 1 to 1,000,000.
    pub reopen: Option<u32>,
    /// The end of a second session, where `--stop2` or `--choice2` stands.
    pub second: Option<CrashOptions>,
}

/// A store to be made by a generator and measured.
#[derive(Clone, Copy, Debug, PartialEq, Eq)]
pub struct MakeOptions {
    /// Where the generator starts.
    pub number: u64,
    /// How many mini-transactions, 1 to 4,000.
    pub count: u32,
}

/// What the words ask for, by their command.
#[derive(Debug, Drop)]
pub enum Plan {
    Create(CreateOptions),
    Step(StepOptions),
    Run(RunOptions),
    Drill(DrillOptions),
    Recover(KeyOptions),
    Report(KeyOptions),
    Make(MakeOptions),
}
