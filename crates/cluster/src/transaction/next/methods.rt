// The next operation of a transaction at a replica: what it is, whether it is held back, and which tables it lets go of.
ghost use Rattle.std.specs.Prelude.{◌≡◌, ℕ, ◌+◌, ◌^◌, ◌<◌, true, false, not, ◌&&◌, length, slice_index, slice_index_or, slice_set};
ghost use Rattle.std.specs.Option.{MatchOption};
ghost use Rattle.catalogue.specs.Replicated.{catalogue_of};
ghost use Rattle.sequencing.specs.Modes.{tables};
ghost use Rattle.sequencing.specs.declared.sequencer.Assigned.{Assigned as AssignedOf};
ghost use Rattle.versioning.specs.Words.{waits as waits_at, done, released, is_write as is_write_of};
ghost use Rattle.versioning.specs.Machine.{admits as admits_of, held_at, rows_after, version_after as version_after_at};
ghost use Rattle.cluster.specs.Transactions.{course_of, transaction_of};
ghost use Rattle.cluster.specs.Executing.{InRange, replaced_row};
ghost use Rattle.cluster.specs.Next.{operation_of, touches as touches_of, RoomFor};

use super::NextOperation;
use crate::replica_index::ReplicaIndex;
use crate::transaction::Transaction;
use crate::transaction::operations::is_write;
use crate::transaction::waiting::admits;
use catalogue::replicas::Replicas;
use catalogue::row::Row;
use catalogue::table::Table;
use versioning::operation::Operation;

impl Transaction {
    // Its next operation at the replica, if one waits there.
    pub(crate) fn next(&self, replica: ReplicaIndex) -> Option<NextOperation<'_>>
        ensures { MatchOption result (waits_at (course_of self.now) replica.number ≡ false) (λ next. (next.transaction.now ≡ self.now) × (next.replica ≡ replica)) }
    {
        // Not `then`, whose closure would not know that one waits.
        if self.waits(replica) {
            Some(NextOperation {
                transaction: self,
                replica,
            })
        } else {
            None
        }
    }

    // Whether the replica has executed its release of the table.
    fn has_released(&self, replica: ReplicaIndex, table: Table) -> bool
        ensures { result ≡ released table.number (done (course_of self.now) replica.number) }
    {
        self.releases_within(self.executed(replica), table)
    }
}

impl NextOperation<'_> {
    pub(crate) fn operation(&self) -> Operation
        ensures is { result ≡ operation_of self.now }
        ensures range { InRange result }
    {
        self.transaction
            .asked_at(self.transaction.executed(self.replica))
    }

    // Whether the table is one of its own.
    fn touches(&self, table: Table) -> bool
        ensures { result ≡ touches_of self.now table.number }
    {
        match self.operation() {
            Operation::Write { table: written, .. } => table.number() == written,
            Operation::Release { table: released } => table.number() == released,
            Operation::Commit | Operation::Abort => self.transaction.declares(table)
                && !self.transaction.has_released(self.replica, table),
        }
    }

    // Whether the table, at this version, holds it back.
    fn is_held_by(&self, table: Table, version: u32) -> bool
        ensures { result ≡ (touches_of self.now table.number && not (admits_of (slice_index_or self.now.transaction.now.assigned table.number AssignedOf.None) version)) }
    {
        self.touches(table) && !admits(self.transaction.assigned[table.index()], version)
    }

    // Whether it is held back where the tables have these versions.
    pub(crate) fn is_held(&self, versions: &[u32; 8]) -> bool
        ensures { result ≡ held_at (transaction_of self.now.transaction.now) self.now.replica.number versions.now }
    {
        Table::all()
            .iter()
            .any(|table| self.is_held_by(*table, versions[table.index()]))
    }

    // On the rows of the replica; answers the row that it replaces.
    pub(crate) fn perform<R: Replicas>(&self, replicas: &mut R) -> Row
        requires { self.now.replica.number < length (R.Replicas.catalogues replicas.old) }
        ensures rows { R.Replicas.catalogues replicas.new ≡ slice_set (R.Replicas.catalogues replicas.old) self.now.replica.number (rows_after (operation_of self.now) ((transaction_of self.now.transaction.now).replaced self.now.replica.number) (catalogue_of (R.Replicas.catalogues replicas.old) self.now.replica.number)) }
        ensures kept { R.Replicas.lents replicas.new ≡ R.Replicas.lents replicas.old }
        ensures old { result ≡ replaced_row (operation_of self.now) (catalogue_of (R.Replicas.catalogues replicas.old) self.now.replica.number) }
    {
        self.transaction
            .apply(replicas, self.replica, self.operation())
    }

    // Whether it lets go of the table.
    fn lets_go_of(&self, table: Table) -> bool
        ensures { result ≡ (not (is_write_of (operation_of self.now)) && touches_of self.now table.number) }
    {
        !is_write(self.operation()) && self.touches(table)
    }

    // The table's version after it: one more where it lets go of the table.
    fn version_after(&self, table: Table, version: u32) -> u32
        requires { RoomFor self.now table.number version }
        ensures { result ≡ version_after_at (course_of self.now.transaction.now) self.now.replica.number table.number version }
    {
        if self.lets_go_of(table) {
            version + 1
        } else {
            version
        }
    }

    // Adds one to the version of each table that it lets go of.
    pub(crate) fn let_go(&self, versions: &mut [u32; 8])
        requires { (t : ℕ) → RoomFor self.now t (slice_index versions.old t) }
        ensures { versions.new ≡ tables (λ t. version_after_at (course_of self.now.transaction.now) self.now.replica.number t (slice_index versions.old t)) }
    {
        // Lent, since a walk over an array by value moves each element twice.
        for table in &Table::all() {
            let t = table.index();
            versions[t] = self.version_after(*table, versions[t]);
        }
    }
}
