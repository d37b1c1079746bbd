ghost use Rattle.std.specs.Prelude.{◌≡◌, ◌^◌, ◌<◌, length, sum_by, nat_lt};
ghost use Rattle.catalogue.specs.Refusals.{told, told_as};
ghost use Rattle.versioning.specs.Machine.{cost_left, load as load_of, better as better_of, least, and_then, read_reply, read_as_reply, write_reply, write_after};
ghost use Rattle.cluster.specs.Transactions.{transaction_of};
ghost use Rattle.cluster.specs.View.{state_of, Keeps, fits, choice, fetched, number_of};

use super::Cluster;
use crate::replica_index::ReplicaIndex;
use crate::transaction::Transaction;
use catalogue::refusal::Refusal;
use catalogue::replicas::Replicas;
use catalogue::row::Row;
use catalogue::table::Table;
use versioning::family::Family;

// What all of them still cost at the replica.
fn cost_left_of_all(transactions: &[Transaction], replica: ReplicaIndex) -> u32
    requires { sum_by (λ x. cost_left (transaction_of x) replica.number) transactions.now < 2 ^ 32 }
    ensures { result ≡ sum_by (λ x. cost_left (transaction_of x) replica.number) transactions.now }
{
    transactions
        .iter()
        .map(|transaction| transaction.cost_left(replica))
        .sum()
}

impl<R: Replicas> Cluster<R> {
    // What waits at the replica, by its cost.
    fn load(&self, replica: ReplicaIndex) -> u32
        ensures { result ≡ load_of (state_of R.Replicas.catalogues self.now) replica.number }
    {
        cost_left_of_all(self.unfinished.as_slice(), replica)
    }

    // Whether less waits at the replica than at the other.
    fn is_lighter(&self, replica: ReplicaIndex, other: ReplicaIndex) -> bool
        ensures { result ≡ nat_lt (load_of (state_of R.Replicas.catalogues self.now) replica.number) (load_of (state_of R.Replicas.catalogues self.now) other.number) }
    {
        self.load(replica) < self.load(other)
    }

    // The best so far, or the replica where it qualifies and has less load.
    fn better(
        &self,
        transaction: &Transaction,
        table: Table,
        replica: ReplicaIndex,
        best: Option<ReplicaIndex>,
    ) -> Option<ReplicaIndex>
        requires { replica.number < length (R.Replicas.catalogues self.now.replicas) }
        ensures { number_of result ≡ better_of (fits (state_of R.Replicas.catalogues self.now) (transaction_of transaction.now) table.number) (load_of (state_of R.Replicas.catalogues self.now)) replica.number (number_of best) }
    {
        if !transaction.qualifies(table, replica, &self.versions[replica.number as usize]) {
            return best;
        }
        match best {
            Some(chosen) if !self.is_lighter(replica, chosen) => best,
            _ => Some(replica),
        }
    }

    // The replica that answers its read of the table: of those that qualify the least loaded, of equals the lowest.
    fn choose(&self, transaction: &Transaction, table: Table) -> Option<ReplicaIndex>
        ensures { number_of result ≡ choice (state_of R.Replicas.catalogues self.now) (transaction_of transaction.now) table.number }
    {
        // Not `min_by_key`, which does not promise that of equals the lowest is chosen.
        let mut best = None;
        for replica in 0..self.replicas.count() {
            best = self.better(transaction, table, ReplicaIndex { number: replica }, best);
        }
        best
    }

    // The replica that answers the read, unless a check refuses it: the answer is what is fetched there.
    fn replica_to_read(&self, number: u32, table: u32, row: u32) -> Result<ReplicaIndex, Refusal>
        ensures { and_then (told_as (λ r. r.number) result) (fetched (R.Replicas.catalogues self.now.replicas) table row) ≡ read_reply (state_of R.Replicas.catalogues self.now) number table row }
    {
        if number >= self.sequencer.begun() {
            return Err(Refusal::UnknownTransaction);
        }
        let Some(i) = self.position(number) else {
            return Err(Refusal::NotOpen);
        };
        let transaction = &self.unfinished[i];
        let table = transaction.may_read(table, row)?;
        self.choose(transaction, table)
            .ok_or(Refusal::NoReplicaQualifies)
    }

    pub fn read(&mut self, number: u32, table: u32, row: u32) -> Result<(Row, u32), Refusal>
        ensures answer { told result ≡ read_reply (state_of R.Replicas.catalogues self.old) number table row }
        ensures after { state_of R.Replicas.catalogues self.new ≡ state_of R.Replicas.catalogues self.old }
        ensures kept { Keeps R.Replicas.lents self.old self.new }
    {
        let replica = self.replica_to_read(number, table, row)?;
        let found = self.replicas.fetch(replica.number, table, row)?;
        Ok((found, replica.number))
    }

    // The row found as a value of the kind; refused last where it is none.
    pub fn read_as<F: Family>(
        &mut self,
        number: u32,
        table: u32,
        row: u32,
        kind: F::Which,
    ) -> Result<(F, u32), Refusal>
        ensures answer { told result ≡ read_as_reply (F.Family.unpacked kind) (state_of R.Replicas.catalogues self.old) number table row }
        ensures after { state_of R.Replicas.catalogues self.new ≡ state_of R.Replicas.catalogues self.old }
        ensures kept { Keeps R.Replicas.lents self.old self.new }
    {
        let (found, replica) = self.read(number, table, row)?;
        let value = F::unpack(kind, found).ok_or(Refusal::NoValue)?;
        Ok((value, replica))
    }

    // The row that the value packs into is written. The machine has both writes and both reads, so a cluster has.
    pub fn write_as<F: Family>(
        &mut self,
        number: u32,
        table: u32,
        row: u32,
        value: F,
        class: u32,
    ) -> Result<(), Refusal>
        ensures answer { told result ≡ write_reply (state_of R.Replicas.catalogues self.old) number table row class }
        ensures after { state_of R.Replicas.catalogues self.new ≡ write_after (state_of R.Replicas.catalogues self.old) number table row (F.Family.packed value) class }
        ensures kept { Keeps R.Replicas.lents self.old self.new }
    {
        self.write(number, table, row, value.pack(), class)
    }
}
