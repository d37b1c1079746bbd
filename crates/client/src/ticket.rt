ghost use Rattle.std.specs.Prelude.{◌≡◌, IfOk, Some};
ghost use Rattle.catalogue.specs.Refusals.{told};
ghost use Rattle.versioning.specs.Machine.{begin_after, write_reply, write_after, read_reply, read_as_reply, release_reply, release_after, commit_reply, commit_after, abort_reply, abort_after};
ghost use Rattle.cluster.specs.View.{state_of, Keeps};
ghost use Rattle.client.specs.Tickets.{begin_told, ticket_reply, abort_told, spent_reply, Good, CanMeet, DoneOrPastRecall};

use crate::calling::{abort, begin};
use crate::declaration::Declaration;
use catalogue::refusal::Refusal;
use catalogue::replicas::Replicas;
use catalogue::row::Row;
use cluster::cluster::Cluster;
use versioning::family::Family;

// Stands for one open transaction. It cannot be made or copied elsewhere, and it cannot be let go: a commit or an abort spends it.
pub struct Ticket {
    number: u32,
}

// Why no transaction began, and the declaration, which is handed back.
#[derive(Drop)]
pub struct NotBegun {
    pub refusal: Refusal,
    pub declaration: Declaration,
}

// Why a ticket's transaction was not aborted. Past recall it is still open, and so the ticket is handed back; any other refusal ends it.
pub enum NotAborted {
    PastRecall(Ticket),
    Refused(Refusal),
}

// A call promises what the cluster's of that name does, said of the ticket's number, and what a good ticket can meet. It takes a
// table and a row as that does: a struct of the two would be made here only to be taken apart.
impl Ticket {
    // The transaction that it stands for.
    pub fn number(&self) -> u32
        ensures { result ≡ self.now.number }
    {
        self.number
    }

    // Begins a transaction of the cluster with what the declaration gathered. A refused begin hands the declaration back.
    pub fn begin<R: Replicas>(
        cluster: &mut Cluster<R>,
        declaration: Declaration,
    ) -> Result<Ticket, NotBegun>
        ensures answer { begin_told result ≡ ticket_reply (state_of R.Replicas.catalogues cluster.old) declaration.modes }
        ensures after { state_of R.Replicas.catalogues cluster.new ≡ begin_after (state_of R.Replicas.catalogues cluster.old) declaration.modes }
        ensures kept { Keeps R.Replicas.lents cluster.old cluster.new }
        ensures good { IfOk result (λ t. Good (state_of R.Replicas.catalogues cluster.new) t.number) }
    {
        let number = begin(cluster, declaration.modes()).map_err(|refusal| NotBegun {
            refusal,
            declaration,
        })?;
        Ok(Ticket { number })
    }

    pub fn write<R: Replicas>(
        &self,
        cluster: &mut Cluster<R>,
        table: u32,
        row: u32,
        value: Row,
        class: u32,
    ) -> Result<(), Refusal>
        ensures answer { told result ≡ write_reply (state_of R.Replicas.catalogues cluster.old) self.now.number table row class }
        ensures after { state_of R.Replicas.catalogues cluster.new ≡ write_after (state_of R.Replicas.catalogues cluster.old) self.now.number table row value class }
        ensures kept { Keeps R.Replicas.lents cluster.old cluster.new }
        ensures good { Good (state_of R.Replicas.catalogues cluster.old) self.now.number → CanMeet (told result).0 }
    {
        cluster.write(self.number, table, row, value, class)
    }

    // The row found, and the replica that answered.
    pub fn read<R: Replicas>(
        &self,
        cluster: &mut Cluster<R>,
        table: u32,
        row: u32,
    ) -> Result<(Row, u32), Refusal>
        ensures answer { told result ≡ read_reply (state_of R.Replicas.catalogues cluster.old) self.now.number table row }
        ensures after { state_of R.Replicas.catalogues cluster.new ≡ state_of R.Replicas.catalogues cluster.old }
        ensures kept { Keeps R.Replicas.lents cluster.old cluster.new }
        ensures good { Good (state_of R.Replicas.catalogues cluster.old) self.now.number → CanMeet (told result).0 }
    {
        cluster.read(self.number, table, row)
    }

    pub fn release<R: Replicas>(&self, cluster: &mut Cluster<R>, table: u32) -> Result<(), Refusal>
        ensures answer { told result ≡ release_reply (state_of R.Replicas.catalogues cluster.old) self.now.number table }
        ensures after { state_of R.Replicas.catalogues cluster.new ≡ release_after (state_of R.Replicas.catalogues cluster.old) self.now.number table }
        ensures kept { Keeps R.Replicas.lents cluster.old cluster.new }
        ensures good { Good (state_of R.Replicas.catalogues cluster.old) self.now.number → CanMeet (told result).0 }
    {
        cluster.release(self.number, table)
    }

    // The row that the value packs into is written. The machine has both writes and both reads, so a ticket has.
    pub fn write_as<R: Replicas, F: Family>(
        &self,
        cluster: &mut Cluster<R>,
        table: u32,
        row: u32,
        value: F,
        class: u32,
    ) -> Result<(), Refusal>
        ensures answer { told result ≡ write_reply (state_of R.Replicas.catalogues cluster.old) self.now.number table row class }
        ensures after { state_of R.Replicas.catalogues cluster.new ≡ write_after (state_of R.Replicas.catalogues cluster.old) self.now.number table row (F.Family.packed value) class }
        ensures kept { Keeps R.Replicas.lents cluster.old cluster.new }
        ensures good { Good (state_of R.Replicas.catalogues cluster.old) self.now.number → CanMeet (told result).0 }
    {
        cluster.write_as(self.number, table, row, value, class)
    }

    #[tactic(auto, using(crate::proofs::Meets::typed_meets))]
    // The row found as a value of the kind; refused last where it is none.
    pub fn read_as<R: Replicas, F: Family>(
        &self,
        cluster: &mut Cluster<R>,
        table: u32,
        row: u32,
        kind: F::Which,
    ) -> Result<(F, u32), Refusal>
        ensures answer { told result ≡ read_as_reply (F.Family.unpacked kind) (state_of R.Replicas.catalogues cluster.old) self.now.number table row }
        ensures after { state_of R.Replicas.catalogues cluster.new ≡ state_of R.Replicas.catalogues cluster.old }
        ensures kept { Keeps R.Replicas.lents cluster.old cluster.new }
        ensures good { Good (state_of R.Replicas.catalogues cluster.old) self.now.number → CanMeet (told result).0 }
    {
        cluster.read_as(self.number, table, row, kind)
    }

    // Spends the ticket. A good one's commit is accepted.
    pub fn commit<R: Replicas>(self, cluster: &mut Cluster<R>) -> Result<(), Refusal>
        ensures answer { told result ≡ commit_reply (state_of R.Replicas.catalogues cluster.old) self.number }
        ensures after { state_of R.Replicas.catalogues cluster.new ≡ commit_after (state_of R.Replicas.catalogues cluster.old) self.number }
        ensures kept { Keeps R.Replicas.lents cluster.old cluster.new }
        ensures good { Good (state_of R.Replicas.catalogues cluster.old) self.number → told result ≡ (0, Some tt) }
    {
        let Ticket { number } = self;
        cluster.commit(number)
    }

    // Spends the ticket, unless the transaction is past recall: nothing else can refuse a good one's abort.
    pub fn abort<R: Replicas>(self, cluster: &mut Cluster<R>) -> Result<(), NotAborted>
        ensures answer { abort_told result ≡ spent_reply (state_of R.Replicas.catalogues cluster.old) self.number }
        ensures after { state_of R.Replicas.catalogues cluster.new ≡ abort_after (state_of R.Replicas.catalogues cluster.old) self.number }
        ensures kept { Keeps R.Replicas.lents cluster.old cluster.new }
        ensures good { Good (state_of R.Replicas.catalogues cluster.old) self.number → DoneOrPastRecall (abort_told result).0 }
    {
        let Ticket { number } = self;
        abort(cluster, number).map_err(|refusal| match refusal {
            Refusal::PastRecall => NotAborted::PastRecall(Ticket { number }),
            _ => NotAborted::Refused(refusal),
        })
    }
}
