// What of a transaction waits at a replica: the next operation there, whether it is held back, and what is left to do.
ghost use Rattle.std.specs.Prelude.{◌≡◌, ◌<◌, ◌≤◌, true, not, ◌&&◌, length, slice_index_or};
ghost use Rattle.catalogue.specs.Refusals.{told};
ghost use Rattle.sequencing.specs.declared.sequencer.Assigned.{Assigned as AssignedOf};
ghost use Rattle.sequencing.specs.Modes.{some};
ghost use Rattle.versioning.specs.declared.operation.Operation.{Operation as OperationOf};
ghost use Rattle.versioning.specs.Words.{waits as waits_at, next as next_at, waiting as waiting_at, is_write_at, done, released, has_table};
ghost use Rattle.versioning.specs.Machine.{admits as admits_of, held_at, qualifies_at, cost_left as cost_left_at, all_executed as all_executed_by};
ghost use Rattle.cluster.specs.Orderly.{progress_at, executed_at};
ghost use Rattle.cluster.specs.Transactions.{course_of, transaction_of, may_execute_reply};
ghost use Rattle.cluster.specs.Executing.{InRange};

use super::operations::writes_to;
use super::progress::Progress;
use super::{Phase, Transaction};
use crate::replica_index::ReplicaIndex;
use catalogue::refusal::Refusal;
use catalogue::table::Table;
use sequencing::sequencer::Assigned;
use versioning::operation::Operation;

// Whether a table at the version admits what was assigned there.
pub(crate) fn admits(assigned: Assigned, version: u32) -> bool
    ensures { result ≡ admits_of assigned version }
{
    match assigned {
        Assigned::None => true,
        Assigned::Read(number) => number <= version,
        Assigned::Write(number) => version == number,
    }
}

impl Transaction {
    pub(crate) fn number(&self) -> u32
        ensures { result ≡ (transaction_of self.now).number }
    {
        self.number
    }

    // How far the replica is with it.
    pub(crate) fn progress(&self, replica: ReplicaIndex) -> &Progress
        ensures { result.now ≡ progress_at self.now.progress replica.number }
    {
        &self.progress[replica.number as usize]
    }

    // How many of its operations the replica has executed.
    pub(crate) fn executed(&self, replica: ReplicaIndex) -> usize
        ensures is { result ≡ executed_at self.now.progress replica.number }
        ensures within { result ≤ length self.now.asked.items }
    {
        self.progress(replica).executed()
    }

    // Whether an operation of it waits at the replica.
    pub(crate) fn waits(&self, replica: ReplicaIndex) -> bool
        ensures { result ≡ waits_at (transaction_of self.now).course replica.number }
    {
        self.executed(replica) < self.asked.len()
    }

    // The n-th operation that it asked.
    pub(crate) fn asked_at(&self, n: usize) -> Operation
        requires { n < length self.now.asked.items }
        ensures is { result ≡ slice_index_or self.now.asked.items n OperationOf.Commit }
        ensures range { InRange result }
    {
        self.asked.as_slice()[n]
    }

    // Whether its next operation may be executed at the replica, as far as it alone decides.
    pub(crate) fn may_execute(
        &self,
        replica: ReplicaIndex,
        versions: &[u32; 8],
    ) -> Result<(), Refusal>
        ensures { told result ≡ may_execute_reply (transaction_of self.now) replica.number versions.now }
    {
        let next = self.next(replica).ok_or(Refusal::NothingWaits)?;
        if next.is_held(versions) {
            return Err(Refusal::HeldBack);
        }
        Ok(())
    }

    // The operations that wait at the replica.
    fn waiting(&self, replica: ReplicaIndex) -> &[Operation]
        ensures are { result.now ≡ waiting_at (course_of self.now) replica.number }
        ensures few { length result.now ≤ 25 }
    {
        &self.asked.as_slice()[self.executed(replica)..]
    }

    // Whether a write of it to the table waits at the replica.
    fn has_write_waiting(&self, replica: ReplicaIndex, table: Table) -> bool
        ensures { result ≡ some (is_write_at table.number) (waiting_at (course_of self.now) replica.number) }
    {
        self.waiting(replica).iter().any(|o| writes_to(*o, table))
    }

    // Whether the replica can answer its read of the table.
    pub(crate) fn qualifies(&self, table: Table, replica: ReplicaIndex, versions: &[u32; 8]) -> bool
        ensures { result ≡ qualifies_at (transaction_of self.now) table.number replica.number versions.now }
    {
        let t = table.index();
        admits(self.assigned[t], versions[t])
            && !(self.writes(table) && self.has_write_waiting(replica, table))
    }

    // What it still costs at the replica: 25 operations at most, each 34 at most.
    pub(crate) fn cost_left(&self, replica: ReplicaIndex) -> u32
        ensures is { result ≡ cost_left_at (transaction_of self.now) replica.number }
        ensures most { result ≤ 850 }
    {
        self.cost - self.progress(replica).cost
    }

    // Whether each of so many replicas has executed it to its end.
    pub(crate) fn all_executed(&self, replicas: u32) -> bool
        requires { replicas ≤ 4 }
        ensures { result ≡ all_executed_by replicas (transaction_of self.now).course }
    {
        if let Phase::Open = self.phase {
            return false;
        }
        // Not `all` over the range: the closure asks that its number is below four, which the range does not tell it.
        for number in 0..replicas {
            if self.waits(ReplicaIndex { number }) {
                return false;
            }
        }
        true
    }
}
