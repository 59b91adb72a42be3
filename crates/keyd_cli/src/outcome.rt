// What a command ends with.
use crate::status::Status;
use disk_model::MemDisk;
use plain_engine::Journal;
use std::marker::Model;

/// The answer to a statement.
#[derive(Clone, Copy, Debug, PartialEq, Eq)]
pub enum Answer {
    /// The place in the journal and the LSN of a mini-transaction that was committed.
    Place(u64, u64),
    /// How many entries are acknowledged.
    Acked(u64),
}

/// An answer with its statement's line, from 1 on, and the journal's length when it was given.
#[derive(Clone, Copy, Debug, PartialEq, Eq)]
pub struct Reply {
    pub line: u32,
    pub place: u64,
    pub answer: Answer,
}

/// The replies of a command, in the order of their statements.
#[derive(Debug, Drop)]
pub struct Replies {
    replies: Vec<Reply>,
}

impl Model for Replies {
    ghost use Rattle.std.specs.Prelude.{List};
    ghost use Rattle.keyd_cli.specs.declared.outcome.Reply.{Reply};

    ghost Value = { List Reply };

    ghost view = { λ r. r.replies.items };
}

impl Replies {
    ghost use Rattle.std.specs.Prelude.{◌≡◌, ◌<◌, length, slice_index_or};

    pub(crate) fn of(replies: Vec<Reply>) -> Replies
        ensures { result ≡ replies.items }
    {
        Replies { replies }
    }

    /// How many replies there are.
    pub fn len(&self) -> usize
        ensures { result ≡ length self.now }
    {
        self.replies.len()
    }

    /// The reply at this place, from 0.
    pub fn get(&self, i: usize) -> &Reply
        requires { i < length self.now }
        ensures { result.now ≡ slice_index_or self.now i result.now }
    {
        &self.replies[i]
    }
}

/// How a session of a drill ended: at which turn it was stopped, counted from its start; how many
/// entries its journal has, how many of them were acknowledged by the crash, and how many the image
/// of the crash recovers to; and the session's disk as it stood before the crash.
#[derive(Drop)]
pub struct DrillEnd {
    pub stopped: Option<u64>,
    pub journal: u64,
    pub acked: u64,
    pub kept: u64,
    pub disk: MemDisk,
    pub rest: Option<MemDisk>,
}

/// The sessions of a drill, in order.
#[derive(Drop)]
pub struct Drills {
    ends: Vec<DrillEnd>,
}

impl Drills {
    ghost use Rattle.std.specs.Prelude.{◌≡◌, ◌<◌, length, slice_index_or};

    pub(crate) fn of(ends: Vec<DrillEnd>) -> Drills
        ensures { result.ends.items ≡ ends.items }
    {
        Drills { ends }
    }

    /// How many sessions there are.
    pub fn len(&self) -> usize
        ensures { result ≡ length self.now.ends.items }
    {
        self.ends.len()
    }

    /// The session at this place, from 0.
    pub fn get(&self, i: usize) -> &DrillEnd
        requires { i < length self.now.ends.items }
        ensures { result.now ≡ slice_index_or self.now.ends.items i result.now }
    {
        &self.ends[i]
    }
}

/// What a command ends with: its status, the disk that it was handed, the journal and the replies of
/// its session, and how each session of a drill ended. All but the disk is empty where the status
/// isn't Done.
#[derive(Drop)]
pub struct Ended<D> {
    pub status: Status,
    pub disk: D,
    pub journal: Journal,
    pub replies: Replies,
    pub drill: Drills,
}
