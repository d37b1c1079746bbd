// What a transaction may ask, and how it asks.
ghost use Rattle.std.specs.Prelude.{◌≡◌, ◌&&◌, IfOk};
ghost use Rattle.catalogue.specs.Refusals.{told, told_as, first, unless_refused};
ghost use Rattle.versioning.specs.Words.{mode, writes, released};
ghost use Rattle.versioning.specs.Machine.{may_write, may_release, may_abort, past_recall};
ghost use Rattle.cluster.specs.Transactions.{course_of, transaction_of, begun_as, may_ask_reply, asked_after, may_read_reply};

use super::operations::{CLASSES, cost, count_writes};
use super::progress::Progress;
use super::{Phase, Transaction};
use crate::short_list::ShortList;
use catalogue::refusal::Refusal;
use catalogue::table::Table;
use sequencing::mode::Mode;
use sequencing::sequencer::Begun;
use versioning::operation::Operation;

// So many writes may one transaction ask.
const MOST_WRITES: usize = 16;

impl Transaction {
    pub(crate) fn new(declared: [Mode; 8], begun: Begun) -> Transaction
        ensures { transaction_of result ≡ begun_as declared begun }
    {
        let Begun { number, assigned } = begun;
        Transaction {
            number,
            declared,
            assigned,
            phase: Phase::Open,
            // Aborts in the unused places: commits are all zeros, and a begin would set all of the transaction to zero, byte by byte.
            asked: ShortList::new(Operation::Abort),
            cost: 0,
            progress: [
                Progress::new(),
                Progress::new(),
                Progress::new(),
                Progress::new(),
            ],
        }
    }

    // The table, if it may read there, as far as it alone decides.
    pub(crate) fn may_read(&self, table: u32, row: u32) -> Result<Table, Refusal>
        ensures answer { told_as (λ _. tt) result ≡ may_read_reply (transaction_of self.now) table row }
        ensures found { IfOk result (λ found. found.number ≡ table) }
    {
        if let Phase::Ended = self.phase {
            return Err(Refusal::NotOpen);
        }
        let table = Table::new(table)?;
        table.place(row)?;
        if !self.declares(table) {
            return Err(Refusal::NotDeclared);
        }
        if self.has_asked_release(table) {
            return Err(Refusal::AlreadyReleased);
        }
        Ok(table)
    }

    // What may be asked is checked for an open transaction alone; a type for one would be taken apart in `ask`, which matches the state and the
    // call together.
    fn may_write(&self, table: u32, row: u32, class: u32) -> Result<(), Refusal>
        requires { self.now.phase ≡ Phase.Open }
        ensures { told result ≡ unless_refused (first (may_write (course_of self.now) table row class)) tt }
    {
        let table = Table::new(table)?;
        table.place(row)?;
        if class >= CLASSES {
            return Err(Refusal::ClassOutOfRange);
        }
        if !self.writes(table) {
            return Err(Refusal::NotDeclared);
        }
        if self.has_asked_release(table) {
            return Err(Refusal::AlreadyReleased);
        }
        if count_writes(self.asked.as_slice()) >= MOST_WRITES {
            return Err(Refusal::TooManyWrites);
        }
        Ok(())
    }

    fn may_release(&self, table: u32) -> Result<(), Refusal>
        requires { self.now.phase ≡ Phase.Open }
        ensures { told result ≡ unless_refused (first (may_release (course_of self.now) table)) tt }
    {
        let table = Table::new(table)?;
        if !self.declares(table) {
            return Err(Refusal::NotDeclared);
        }
        if self.has_asked_release(table) {
            return Err(Refusal::AlreadyReleased);
        }
        Ok(())
    }

    fn has_released_for_writing(&self, table: Table) -> bool
        ensures { result ≡ (writes (mode (course_of self.now) table.number) && released table.number (course_of self.now).asked) }
    {
        self.writes(table) && self.has_asked_release(table)
    }

    // Whether it asked the release of a table that it declares for writing.
    fn is_past_recall(&self) -> bool
        ensures { result ≡ past_recall (course_of self.now) }
    {
        Table::all()
            .iter()
            .any(|table| self.has_released_for_writing(*table))
    }

    fn may_abort(&self) -> Result<(), Refusal>
        requires { self.now.phase ≡ Phase.Open }
        ensures { told result ≡ unless_refused (first (may_abort (course_of self.now))) tt }
    {
        if self.is_past_recall() {
            return Err(Refusal::PastRecall);
        }
        Ok(())
    }

    // The transaction asks one operation more, or is refused.
    pub(crate) fn ask(&mut self, operation: Operation) -> Result<(), Refusal>
        ensures answer { told result ≡ may_ask_reply (transaction_of self.old) operation }
        ensures after { transaction_of self.new ≡ asked_after (transaction_of self.old) operation }
    {
        let phase = match (self.phase, operation) {
            (Phase::Ended, _) => return Err(Refusal::NotOpen),
            (
                Phase::Open,
                Operation::Write {
                    table,
                    row,
                    class,
                    ..
                },
            ) => {
                self.may_write(table, row, class)?;
                Phase::Open
            }
            (Phase::Open, Operation::Release { table }) => {
                self.may_release(table)?;
                Phase::Open
            }
            (Phase::Open, Operation::Commit) => Phase::Ended,
            (Phase::Open, Operation::Abort) => {
                self.may_abort()?;
                Phase::Ended
            }
        };
        self.asked.push(operation);
        self.cost += cost(operation);
        self.phase = phase;
        Ok(())
    }
}
