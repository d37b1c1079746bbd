ghost use Rattle.std.specs.Prelude.{◌≡◌, ◌==◌, length, vec_len};
ghost use Rattle.std.specs.List.{position};
ghost use Rattle.cluster.specs.Transactions.{transactions_of, Stands};
ghost use Rattle.cluster.specs.View.{state_of};

use super::Cluster;
use crate::transaction::Transaction;
use catalogue::replicas::Replicas;

// Where the first transaction of the number stands.
fn first_numbered(transactions: &[Transaction], number: u32) -> Option<usize>
    ensures { result ≡ position (λ x. x.number == number) transactions.now }
{
    transactions
        .iter()
        .position(|transaction| transaction.number() == number)
}

impl<R> Cluster<R> {
    // Where the transaction stands among the unfinished.
    pub(crate) fn position(&self, number: u32) -> Option<usize>
        ensures { Stands number (transactions_of self.now.unfinished.items) result }
    {
        first_numbered(self.unfinished.as_slice(), number)
    }
}

impl<R: Replicas> Cluster<R> {
    pub(crate) fn replica_count(&self) -> u32
        ensures { result ≡ length (state_of R.Replicas.catalogues self.now).replicas }
    {
        self.replicas.count()
    }

    pub(crate) fn unfinished_count(&self) -> usize
        ensures is { result ≡ length (state_of R.Replicas.catalogues self.now).unfinished }
        ensures held { result ≡ vec_len self.now.unfinished }
    {
        self.unfinished.len()
    }
}
