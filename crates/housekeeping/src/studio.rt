// The studio: its cluster, what its tables hold, and the words for it.
ghost use Rattle.std.specs.Prelude.{◌≡◌};
ghost use Rattle.std.specs.Result.{result_ok};

use anyhow::anyhow;
use catalogue::kind::tape::Tape;
use catalogue::refusal::Refusal;
use client::declaration::Access;
use cluster::cluster::Cluster;
use std::fmt;

// A tape has the same row number in both tables.
#[derive(Clone, Copy)]
pub enum Table {
    Tapes = 1,
    Copies = 2,
}

pub const POSTER: u32 = 12;

pub const OLD_TAPE: u32 = 3;

// The cost class of every write.
pub const CLASS: u32 = 0;

// No transaction has more operations.
pub const MOST_OPERATIONS: u32 = 25;

// The cluster, and where the story is told.
#[derive(Drop)]
pub struct Studio<'s, R> {
    pub rt: &'s HostRuntime,
    pub cluster: &'s mut Cluster<R>,
}

// Who works with the tapes.
#[derive(Clone, Copy)]
pub enum Client {
    Backup,
    Housekeeping,
}

impl fmt::Display for Client {
    fn fmt<W: fmt::Write>(&self, f: &mut fmt::Formatter<W>) -> fmt::Result {
        match *self {
            Client::Backup => write!(f, "backup"),
            Client::Housekeeping => write!(f, "housekeeping"),
        }
    }
}

// A value of a library's type as it is printed here.
#[derive(Clone, Copy)]
pub struct Shown<T>(pub T);

impl fmt::Display for Shown<Tape> {
    fn fmt<W: fmt::Write>(&self, f: &mut fmt::Formatter<W>) -> fmt::Result {
        match self.0 {
            Tape::Blank => write!(f, "blank"),
            Tape::Holding { job, since } => write!(f, "holding job {job} since day {since}"),
            Tape::Reusable { from } => write!(f, "reusable from day {from}"),
        }
    }
}

impl fmt::Display for Shown<Access> {
    fn fmt<W: fmt::Write>(&self, f: &mut fmt::Formatter<W>) -> fmt::Result {
        match self.0 {
            Access::Read => write!(f, "reading"),
            Access::Write => write!(f, "writing"),
        }
    }
}

// An answer that the story cannot go on without.
pub(crate) fn needed<T>(answer: Result<T, Refusal>) -> anyhow::Result<T>
    ensures { result_ok result ≡ result_ok answer }
{
    answer.map_err(|_| anyhow!("a call was refused that the story needs"))
}
