ghost use Rattle.std.specs.Prelude.{◌≡◌, ℕ, ◌<◌};
ghost use Rattle.catalogue.specs.Refusals.{told};
ghost use Rattle.sequencing.specs.Modes.{declares_any as declares_any_of};
ghost use Rattle.sequencing.specs.Sequencer.{next_at, assigned, moved_on, all_assigned, all_moved_on, counts_of, fresh, next_reply, admitted, admitted_after, begin_reply, begin_after};

use super::{Assigned, Begun, Next, Sequencer};
use crate::mode::Mode;
use catalogue::refusal::Refusal;
use catalogue::table::Table;
use std::array;

// As many transactions may begin over the life of a sequencer.
const MOST_BEGUN: u32 = 1_000_000;

pub fn declares_any(modes: &[Mode; 8]) -> bool
    ensures { result ≡ declares_any_of modes.now }
{
    modes.iter().any(|mode| mode.declares())
}

impl Next {
    fn assign(self, mode: Mode) -> Assigned
        ensures { result ≡ assigned mode self }
    {
        match mode {
            Mode::None => Assigned::None,
            Mode::Read => Assigned::Read(self.read),
            Mode::Write => Assigned::Write(self.write),
        }
    }

    fn after(self, mode: Mode) -> Next
        requires { self.write < 1000000 }
        ensures { result ≡ moved_on mode self }
    {
        match mode {
            Mode::None => self,
            Mode::Read => Next {
                read: self.read,
                write: self.write + 1,
            },
            Mode::Write => Next {
                read: self.write + 1,
                write: self.write + 1,
            },
        }
    }
}

// What each table gives to its mode.
fn assign_all(next: &[Next; 8], modes: &[Mode; 8]) -> [Assigned; 8]
    ensures { result ≡ all_assigned modes.now next.now }
{
    array::from_fn(|t| next[t].assign(modes[t]))
}

// The counters of each table, moved on by its mode.
fn move_all_on(next: &[Next; 8], modes: &[Mode; 8]) -> [Next; 8]
    requires { (t : ℕ) → (next_at next.now t).write < 1000000 }
    ensures { result ≡ all_moved_on modes.now next.now }
{
    array::from_fn(|t| next[t].after(modes[t]))
}

impl Sequencer {
    pub fn new() -> Sequencer
        ensures { counts_of result ≡ fresh }
    {
        Sequencer {
            begun: 0,
            next: [Next { read: 0, write: 0 }; 8],
        }
    }

    pub fn next(&self, table: u32) -> Result<Next, Refusal>
        ensures { told result ≡ next_reply (counts_of self.now) table }
    {
        let table = Table::new(table)?;
        Ok(self.next[table.index()])
    }

    // How many transactions have begun.
    pub fn begun(&self) -> u32
        ensures { result ≡ (counts_of self.now).begun }
    {
        self.begun
    }

    // Lets a transaction begin that no check refuses.
    fn admit(&mut self, modes: &[Mode; 8]) -> Begun
        requires { self.old.begun < 1000000 }
        ensures answer { result ≡ admitted (counts_of self.old) modes.now }
        ensures after { counts_of self.new ≡ admitted_after (counts_of self.old) modes.now }
    {
        let begun = Begun {
            number: self.begun,
            assigned: assign_all(&self.next, modes),
        };
        *self = Sequencer {
            begun: self.begun + 1,
            next: move_all_on(&self.next, modes),
        };
        begun
    }

    // Inlined: with its walks over the tables it is too long for the compiler to do so by itself, and a trace takes four times as long.
    #[inline(always)]
    pub fn begin(&mut self, modes: &[Mode; 8]) -> Result<Begun, Refusal>
        ensures answer { told result ≡ begin_reply (counts_of self.old) modes.now }
        ensures after { counts_of self.new ≡ begin_after (counts_of self.old) modes.now }
    {
        if !declares_any(modes) {
            return Err(Refusal::NothingDeclared);
        }
        if self.begun >= MOST_BEGUN {
            return Err(Refusal::TooManyBegun);
        }
        Ok(self.admit(modes))
    }
}
