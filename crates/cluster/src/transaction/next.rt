ghost use Rattle.std.specs.Prelude.{◌≡◌, true};
ghost use Rattle.versioning.specs.Words.{waits as waits_at};
ghost use Rattle.cluster.specs.Transactions.{course_of};

use super::Transaction;
use crate::replica_index::ReplicaIndex;

pub mod methods;

// The next operation of a transaction at a replica at which one waits.
#[derive(Clone, Copy)]
pub struct NextOperation<'t> {
    pub(crate) transaction: &'t Transaction,
    pub(crate) replica: ReplicaIndex,
    ghost waits: { waits_at (course_of transaction.now) replica.number ≡ true },
}
