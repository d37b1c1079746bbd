ghost use Rattle.std.specs.Prelude.{◌≡◌, ◌≤◌, true, vec_len, vec_capacity};
ghost use Rattle.sequencing.specs.Sequencer.{counts_of};
ghost use Rattle.cluster.specs.Transactions.{transactions_of};
ghost use Rattle.cluster.specs.Rooms.{rising, Room};

use crate::transaction::Transaction;
use sequencing::sequencer::Sequencer;

pub mod asking;
pub mod beginning;
pub mod finding;
pub mod opening;
pub mod reading;
pub mod running;
pub mod stepping;

// So many transactions may be unfinished at a time.
const MOST_UNFINISHED: usize = 16;

// The replicas, the versions of the tables at each, and the transactions that are not finished everywhere, the oldest first.
// These are no map by their numbers, which would allocate: no call after the opening does.
#[derive(Drop)]
pub struct Cluster<R> {
    replicas: R,
    sequencer: Sequencer,
    versions: [[u32; 8]; 4],
    unfinished: Vec<Transaction>,
    ghost reserved: { 16 ≤ vec_capacity unfinished },
    ghost few: { vec_len unfinished ≤ 16 },
    ghost ordered: { rising 0 (transactions_of unfinished.items) (counts_of sequencer).begun ≡ true },
    ghost room: { Room versions (counts_of sequencer).next (transactions_of unfinished.items) },
}
