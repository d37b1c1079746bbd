// The accesses to one table, as a line of letters, and what the sequencer assigns to each.
ghost use Rattle.std.specs.Prelude.{◌≡◌, [], IfOk, Ok, Err, Some};
ghost use Rattle.catalogue.specs.Refusals.{told};
ghost use Rattle.sequencing.specs.Sequencer.{counts_of, begin_after};
ghost use Rattle.tracing.specs.Trace.{letter_of, only, access_reply, Steps, Stops, trace_of, traced_text, stop_text};

use catalogue::refusal::Refusal;
use sequencing::mode::Mode;
use sequencing::sequencer::{Assigned, Next, Sequencer};
use std::alloc::{AllocError, Global};
use std::fmt;

// What a byte of the line stands for. Not an Option of an access: a line feed and an unknown byte end a trace differently.
#[derive(Clone, Copy)]
pub enum Letter {
    Access(Mode),
    LineEnd,
    Unknown,
}

// An access with what it was assigned, and the table's counters after it.
#[derive(Clone, Copy)]
pub struct Traced {
    pub assigned: Assigned,
    pub next: Next,
}

// Why a trace ended: the line did, or a byte is no access, or the sequencer refused one. Positions count from 1.
// Not an Option of two faults: the end of the line is shown by a text too.
#[derive(Clone, Copy)]
pub enum Stop {
    LineEnd,
    Unknown { position: usize, byte: u8 },
    Refused { position: usize, refusal: Refusal },
}

#[derive(Drop)]
pub struct Trace {
    pub accesses: Vec<Traced>,
    pub stop: Stop,
}

impl From<u8> for Letter {
    ghost from_gives = { λ b l. l ≡ letter_of b };

    fn from(byte: u8) -> Letter {
        match char::from(byte) {
            'r' => Letter::Access(Mode::Read),
            'w' => Letter::Access(Mode::Write),
            '\n' => Letter::LineEnd,
            _ => Letter::Unknown,
        }
    }
}

// A transaction that declares table 0 alone begins.
fn access(sequencer: &mut Sequencer, mode: Mode) -> Result<Traced, Refusal>
    ensures answer { told result ≡ access_reply (counts_of sequencer.old) mode }
    ensures after { counts_of sequencer.new ≡ begin_after (counts_of sequencer.old) (only mode) }
{
    let mut modes = [Mode::None; 8];
    modes[0] = mode;
    let begun = sequencer.begin(&modes)?;
    let next = sequencer.next(0)?;
    Ok(Traced {
        assigned: begun.assigned[0],
        next,
    })
}

// The access that a byte stands for, or why the trace ends at it.
fn step(sequencer: &mut Sequencer, position: usize, byte: u8) -> Result<Traced, Stop>
    ensures { elim result [ Ok traced ↦ Steps (counts_of sequencer.old) byte traced (counts_of sequencer.new) | Err stop ↦ Stops (counts_of sequencer.old) byte position stop ] }
{
    match Letter::from(byte) {
        Letter::Access(mode) => {
            access(sequencer, mode).map_err(|refusal| Stop::Refused { position, refusal })
        }
        Letter::LineEnd => Err(Stop::LineEnd),
        Letter::Unknown => Err(Stop::Unknown { position, byte }),
    }
}

impl Trace {
    // What each access of the line is assigned, up to the first byte that ends the trace.
    pub fn of_line(heap: Global, line: &[u8]) -> Result<Trace, AllocError>
        ensures { IfOk result (λ t. (t.accesses.items, t.stop) ≡ trace_of [] line.now) }
    {
        let mut sequencer = Sequencer::new();
        let mut accesses = Vec::new(heap);
        for byte in line {
            match step(&mut sequencer, accesses.len() + 1, *byte) {
                Ok(traced) => accesses.push(traced)?,
                Err(stop) => return Ok(Trace { accesses, stop }),
            }
        }
        Ok(Trace {
            accesses,
            stop: Stop::LineEnd,
        })
    }
}

// The access as its letter, what it was assigned, then next-for-read and next-for-write, parted by commas.
impl fmt::Display for Traced {
    ghost output = { λ x. Some (traced_text x) };

    fn fmt<W: fmt::Write>(&self, f: &mut fmt::Formatter<W>) -> fmt::Result {
        let Next { read, write } = self.next;
        match self.assigned {
            Assigned::None => write!(f, "n,,{read},{write}"),
            Assigned::Read(number) => write!(f, "r,{number},{read},{write}"),
            Assigned::Write(number) => write!(f, "w,{number},{read},{write}"),
        }
    }
}

impl fmt::Display for Stop {
    ghost output = { λ x. Some (stop_text x) };

    fn fmt<W: fmt::Write>(&self, f: &mut fmt::Formatter<W>) -> fmt::Result {
        match *self {
            Stop::LineEnd => write!(f, "end of the line"),
            Stop::Unknown { position, byte } => write!(
                f,
                "position {position}: byte {byte} is neither r nor w"
            ),
            Stop::Refused { position, refusal } => {
                let number = refusal.number();
                write!(f, "position {position}: refused with {number}")
            }
        }
    }
}
