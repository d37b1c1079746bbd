ghost use Rattle.std.specs.Prelude.{◌≡◌, ℕ, ◌≤◌, true, length, sum_by};
ghost use Rattle.versioning.specs.Machine.{cost as cost_of};
ghost use Rattle.versioning.specs.Words.{count_writes, ended as ended_by};
ghost use Rattle.cluster.specs.Orderly.{orderly, tally, is_ended, executed_at, Spent};

use crate::short_list::ShortList;
use crate::transaction::progress::Progress;
use catalogue::row::Row;
use sequencing::mode::Mode;
use sequencing::sequencer::Assigned;
use versioning::operation::Operation;

pub mod asking;
pub mod executing;
pub mod next;
pub mod operations;
pub mod progress;
pub mod tables;
pub mod waiting;

// Kept in place of a replaced row where an operation replaces none. No Option: the operation itself tells whether it replaced one.
const BLANK: Row = Row { high: 0, low: 0 };

// A transaction is open until its commit or abort is accepted.
#[derive(Clone, Copy)]
pub enum Phase {
    Open,
    Ended,
}

// An unfinished transaction: what it declared, was assigned and asked, what it asked costs together, and how far each replica is with it.
// It asks at most 25 operations: 16 writes, a release of each table, and an end. Its two lists over the tables are as declared and as begun: it
// can be begun with any two.
#[derive(Clone, Copy)]
pub struct Transaction {
    number: u32,
    declared: [Mode; 8],
    assigned: [Assigned; 8],
    phase: Phase,
    asked: ShortList<Operation, 25>,
    cost: u32,
    progress: [Progress; 4],
    ghost phased: { ended_by asked.items ≡ is_ended phase },
    ghost allowed: { orderly declared asked.items (length asked.items) ≡ true },
    ghost modest: { count_writes asked.items ≤ 16 },
    ghost tallied: { length asked.items ≤ tally asked.items },
    ghost within: { (j : ℕ) → executed_at progress j ≤ length asked.items },
    ghost summed: { cost ≡ sum_by cost_of asked.items },
    ghost spent: { Spent progress asked.items },
}
