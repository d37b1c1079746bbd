ghost use Rattle.std.specs.Prelude.{◌≡◌, ◌<◌, true, [], length, vec_len, MatchResult, slice_index_or};
ghost use Rattle.catalogue.specs.Refusals.{told, number as number_of};
ghost use Rattle.versioning.specs.Words.{waits};
ghost use Rattle.versioning.specs.Machine.{finished, step_reply, step_after};
ghost use Rattle.cluster.specs.Transactions.{transaction_of, transactions_of, may_execute_reply};
ghost use Rattle.cluster.specs.View.{state_of, Keeps, stepped_at, StepsAt, StepRefused};

use super::Cluster;
use crate::replica_index::ReplicaIndex;
use crate::transaction::Transaction;
use catalogue::refusal::Refusal;
use catalogue::replicas::Replicas;

impl<R: Replicas> Cluster<R> {
    // Whether the next operation of the transaction may be executed at the replica, at the versions there.
    fn may_execute(&self, transaction: &Transaction, replica: ReplicaIndex) -> Result<(), Refusal>
        ensures { told result ≡ may_execute_reply (transaction_of transaction.now) replica.number (slice_index_or self.now.versions replica.number []) }
    {
        transaction.may_execute(replica, &self.versions[replica.number as usize])
    }

    // The place among the unfinished whose next operation the step executes, unless a check refuses it.
    fn may_step(&self, number: u32, replica: u32) -> Result<(usize, ReplicaIndex), Refusal>
        ensures { MatchResult result (λ at. (at.1.number ≡ replica) × StepsAt R.Replicas.catalogues self.now number replica at.0) (λ refusal. StepRefused (state_of R.Replicas.catalogues self.now) number replica (number_of refusal)) }
    {
        if replica >= self.replica_count() {
            return Err(Refusal::UnknownReplica);
        }
        if number >= self.sequencer.begun() {
            return Err(Refusal::UnknownTransaction);
        }
        let Some(i) = self.position(number) else {
            return Err(Refusal::NothingWaits);
        };
        let replica = ReplicaIndex { number: replica };
        self.may_execute(&self.unfinished[i], replica)?;
        Ok((i, replica))
    }

    // Executes the next operation of the i-th unfinished transaction at the replica. Executed everywhere to its end, it gives up its place.
    fn execute(&mut self, i: usize, replica: ReplicaIndex)
        requires place { (i < vec_len self.old.unfinished) × (replica.number < length (R.Replicas.catalogues self.old.replicas)) }
        requires waits { waits (slice_index_or (transactions_of self.old.unfinished.items) i finished).course replica.number ≡ true }
        ensures after { state_of R.Replicas.catalogues self.new ≡ stepped_at (state_of R.Replicas.catalogues self.old) i replica.number }
        ensures kept { Keeps R.Replicas.lents self.old self.new }
    {
        let count = self.replicas.count();
        let mut versions = self.versions[replica.number as usize];
        self.unfinished[i].execute(&mut self.replicas, replica, &mut versions);
        self.versions[replica.number as usize] = versions;
        if self.unfinished[i].all_executed(count) {
            let _ = self.unfinished.remove(i);
        }
    }

    pub fn step(&mut self, number: u32, replica: u32) -> Result<(), Refusal>
        ensures answer { told result ≡ step_reply (state_of R.Replicas.catalogues self.old) number replica }
        ensures after { state_of R.Replicas.catalogues self.new ≡ step_after (state_of R.Replicas.catalogues self.old) number replica }
        ensures kept { Keeps R.Replicas.lents self.old self.new }
    {
        let (i, replica) = self.may_step(number, replica)?;
        self.execute(i, replica);
        Ok(())
    }
}
