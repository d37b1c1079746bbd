// How a replica executes the next operation of a transaction. The replicas and the index of one go together without a struct of the two:
// one was tried, and each of its methods has to promise too that the `&mut` in it stays. What is lent stays, which no value can hold, since it is
// of two moments. That a write is in range is asked here and known of each operation that a transaction asked.
ghost use Rattle.std.specs.Prelude.{◌≡◌, ℕ, ◌+◌, ◌^◌, ◌<◌, true, false, not, ◌&&◌, [], length, slice_index, slice_index_or, slice_set};
ghost use Rattle.catalogue.specs.Rows.{blank, place};
ghost use Rattle.catalogue.specs.Replicated.{catalogue_of};
ghost use Rattle.sequencing.specs.Modes.{tables};
ghost use Rattle.versioning.specs.Words.{waits as waits_at, next as next_at, done, has_table, is_write as is_write_of};
ghost use Rattle.versioning.specs.Machine.{undo, rows_after, version_after as version_after_at};
ghost use Rattle.cluster.specs.Orderly.{executed_at};
ghost use Rattle.cluster.specs.Transactions.{course_of, transaction_of, replaced_by, executed_after};
ghost use Rattle.cluster.specs.Executing.{InRange, replaced_row, newest_replaced, advanced};

use super::next::NextOperation;
use super::operations::cost;
use super::{BLANK, Transaction};
use crate::replica_index::ReplicaIndex;
use catalogue::replicas::Replicas;
use catalogue::row::Row;
use versioning::operation::Operation;

// Puts the value there, and answers the row that it replaces.
fn overwrite<R: Replicas>(
    replicas: &mut R,
    replica: ReplicaIndex,
    table: u32,
    row: u32,
    value: Row,
) -> Row
    requires { (replica.number < length (R.Replicas.catalogues replicas.old)) × ((table < 8) × (row < 64)) }
    ensures rows { R.Replicas.catalogues replicas.new ≡ slice_set (R.Replicas.catalogues replicas.old) replica.number (slice_set (catalogue_of (R.Replicas.catalogues replicas.old) replica.number) (place table row) value) }
    ensures kept { R.Replicas.lents replicas.new ≡ R.Replicas.lents replicas.old }
    ensures old { result ≡ slice_index_or (catalogue_of (R.Replicas.catalogues replicas.old) replica.number) (place table row) blank }
{
    let old = replicas.fetch(replica.number, table, row).unwrap();
    let _ = replicas.put(replica.number, table, row, value);
    old
}

// Puts back what the operation replaced.
fn restore<R: Replicas>(replicas: &mut R, replica: ReplicaIndex, operation: Operation, old: Row)
    requires { (replica.number < length (R.Replicas.catalogues replicas.old)) × (InRange operation) }
    ensures rows { R.Replicas.catalogues replicas.new ≡ slice_set (R.Replicas.catalogues replicas.old) replica.number (undo (replaced_by operation old []) (catalogue_of (R.Replicas.catalogues replicas.old) replica.number)) }
    ensures kept { R.Replicas.lents replicas.new ≡ R.Replicas.lents replicas.old }
{
    if let Operation::Write { table, row, .. } = operation {
        let _ = replicas.put(replica.number, table, row, old);
    }
}

impl Transaction {
    // Puts back what it replaced at the replica with the newest operation there, or with the one so many turns before it.
    fn restore_newest<R: Replicas>(&self, replicas: &mut R, replica: ReplicaIndex, turn: usize)
        requires { (replica.number < length (R.Replicas.catalogues replicas.old)) × (turn < executed_at self.now.progress replica.number) }
        ensures rows { R.Replicas.catalogues replicas.new ≡ slice_set (R.Replicas.catalogues replicas.old) replica.number (undo (newest_replaced self.now replica.number turn) (catalogue_of (R.Replicas.catalogues replicas.old) replica.number)) }
        ensures kept { R.Replicas.lents replicas.new ≡ R.Replicas.lents replicas.old }
    {
        let n = self.executed(replica) - 1 - turn;
        restore(
            replicas,
            replica,
            self.asked_at(n),
            self.progress(replica).replaced.as_slice()[n],
        );
    }

    // Puts back the rows that it replaced at the replica, the newest first.
    fn restore_all<R: Replicas>(&self, replicas: &mut R, replica: ReplicaIndex)
        requires { replica.number < length (R.Replicas.catalogues replicas.old) }
        ensures rows { R.Replicas.catalogues replicas.new ≡ slice_set (R.Replicas.catalogues replicas.old) replica.number (undo ((transaction_of self.now).replaced replica.number) (catalogue_of (R.Replicas.catalogues replicas.old) replica.number)) }
        ensures kept { R.Replicas.lents replicas.new ≡ R.Replicas.lents replicas.old }
    {
        // Not `rev()` over their places: by a rule of the project a wrong order is refused in the code, and the order of this loop is proved by hand.
        for turn in 0..self.executed(replica) {
            self.restore_newest(replicas, replica, turn);
        }
    }

    // The operation on the rows of the replica; answers the row that it replaces, which is blank for all but a write.
    pub(crate) fn apply<R: Replicas>(
        &self,
        replicas: &mut R,
        replica: ReplicaIndex,
        operation: Operation,
    ) -> Row
        requires { (replica.number < length (R.Replicas.catalogues replicas.old)) × (InRange operation) }
        ensures rows { R.Replicas.catalogues replicas.new ≡ slice_set (R.Replicas.catalogues replicas.old) replica.number (rows_after operation ((transaction_of self.now).replaced replica.number) (catalogue_of (R.Replicas.catalogues replicas.old) replica.number)) }
        ensures kept { R.Replicas.lents replicas.new ≡ R.Replicas.lents replicas.old }
        ensures old { result ≡ replaced_row operation (catalogue_of (R.Replicas.catalogues replicas.old) replica.number) }
    {
        match operation {
            Operation::Write {
                table,
                row,
                value,
                ..
            } => overwrite(replicas, replica, table, row, value),
            Operation::Release { .. } | Operation::Commit => BLANK,
            Operation::Abort => {
                self.restore_all(replicas, replica);
                BLANK
            }
        }
    }

    // One operation more is executed at the replica, and the row that it replaced there is kept. It takes no `NextOperation`, which borrows it.
    fn advance(&mut self, replica: ReplicaIndex, old: Row)
        requires { waits_at (course_of self.old) replica.number ≡ true }
        ensures { transaction_of self.new ≡ advanced (transaction_of self.old) replica.number old }
    {
        let next = NextOperation {
            transaction: self,
            replica,
        };
        let price = cost(next.operation());
        self.progress[replica.number as usize].record(old, price);
    }

    // Executes its next operation at the replica: on the rows there, on the versions there, and on itself.
    pub(crate) fn execute<R: Replicas>(
        &mut self,
        replicas: &mut R,
        replica: ReplicaIndex,
        versions: &mut [u32; 8],
    )
        requires place { (replica.number < length (R.Replicas.catalogues replicas.old)) × (waits_at (transaction_of self.old).course replica.number ≡ true) }
        requires room { (t : ℕ) → is_write_of (next_at (transaction_of self.old).course replica.number) ≡ false → has_table (transaction_of self.old).course (done (transaction_of self.old).course replica.number) (next_at (transaction_of self.old).course replica.number) t ≡ true → slice_index versions.old t + 1 < 2 ^ 32 }
        ensures rows { R.Replicas.catalogues replicas.new ≡ slice_set (R.Replicas.catalogues replicas.old) replica.number (rows_after (next_at (transaction_of self.old).course replica.number) ((transaction_of self.old).replaced replica.number) (catalogue_of (R.Replicas.catalogues replicas.old) replica.number)) }
        ensures kept { R.Replicas.lents replicas.new ≡ R.Replicas.lents replicas.old }
        ensures versions { versions.new ≡ tables (λ t. version_after_at (transaction_of self.old).course replica.number t (slice_index versions.old t)) }
        ensures after { transaction_of self.new ≡ executed_after (transaction_of self.old) replica.number (catalogue_of (R.Replicas.catalogues replicas.old) replica.number) }
    {
        let next = NextOperation {
            transaction: self,
            replica,
        };
        let old = next.perform(replicas);
        next.let_go(versions);
        self.advance(replica, old);
    }
}
