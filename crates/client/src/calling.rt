// Two of the cluster's calls by number, with what they promise of a good ticket: a proof by hand each.
ghost use Rattle.std.specs.Prelude.{◌≡◌, IfOk};
ghost use Rattle.catalogue.specs.Refusals.{told};
ghost use Rattle.versioning.specs.Machine.{begin_reply, begin_after, abort_reply, abort_after};
ghost use Rattle.cluster.specs.View.{state_of, Keeps};
ghost use Rattle.client.specs.Tickets.{Good, DoneOrPastRecall};

use catalogue::refusal::Refusal;
use catalogue::replicas::Replicas;
use cluster::cluster::Cluster;
use sequencing::mode::Mode;

pub(crate) fn begin<R: Replicas>(cluster: &mut Cluster<R>, modes: [Mode; 8]) -> Result<u32, Refusal>
    ensures answer { told result ≡ begin_reply (state_of R.Replicas.catalogues cluster.old) modes }
    ensures after { state_of R.Replicas.catalogues cluster.new ≡ begin_after (state_of R.Replicas.catalogues cluster.old) modes }
    ensures kept { Keeps R.Replicas.lents cluster.old cluster.new }
    ensures good { IfOk result (λ number. Good (state_of R.Replicas.catalogues cluster.new) number) }
{
    cluster.begin(modes)
}

pub(crate) fn abort<R: Replicas>(cluster: &mut Cluster<R>, number: u32) -> Result<(), Refusal>
    ensures answer { told result ≡ abort_reply (state_of R.Replicas.catalogues cluster.old) number }
    ensures after { state_of R.Replicas.catalogues cluster.new ≡ abort_after (state_of R.Replicas.catalogues cluster.old) number }
    ensures kept { Keeps R.Replicas.lents cluster.old cluster.new }
    ensures good { Good (state_of R.Replicas.catalogues cluster.old) number → DoneOrPastRecall (told result).0 }
{
    cluster.abort(number)
}
