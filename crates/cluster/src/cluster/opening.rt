ghost use Rattle.std.specs.Prelude.{◌≡◌, length, IfOk, MatchResult};
ghost use Rattle.catalogue.specs.Replicated.{catalogue_of};
ghost use Rattle.versioning.specs.Machine.{start};
ghost use Rattle.cluster.specs.View.{state_of};

use super::{Cluster, MOST_UNFINISHED};
use catalogue::replicas::Replicas;
use copying::copy_first;
use sequencing::sequencer::Sequencer;
use std::alloc::{AllocFailed, Global};

impl<R: Replicas> Cluster<R> {
    // Copies the rows of the first replica to the others. Where there is no memory the replicas are handed back as they were.
    pub fn open(heap: Global, mut replicas: R) -> Result<Cluster<R>, AllocFailed<R>>
        ensures state { MatchResult result (λ c. state_of R.Replicas.catalogues c ≡ start (length (R.Replicas.catalogues replicas)) (catalogue_of (R.Replicas.catalogues replicas) 0)) (λ back. back.value ≡ replicas) }
        ensures kept { IfOk result (λ c. R.Replicas.lents c.replicas ≡ R.Replicas.lents replicas) }
    {
        let Ok(unfinished) = Vec::with_capacity(heap, MOST_UNFINISHED) else {
            return Err(AllocFailed { value: replicas });
        };
        copy_first(&mut replicas);
        Ok(Cluster {
            replicas,
            sequencer: Sequencer::new(),
            versions: [[0; 8]; 4],
            unfinished,
        })
    }
}
