ghost use Rattle.std.specs.Prelude.{◌≡◌, ◌<◌, vec_len};
ghost use Rattle.catalogue.specs.Refusals.{told};
ghost use Rattle.sequencing.specs.Sequencer.{counts_of, begin_refusal, begin_reply as admit_reply};
ghost use Rattle.versioning.specs.Machine.{begin_reply, begin_after, beginning_after, kept_if_refused};
ghost use Rattle.cluster.specs.View.{state_of, Keeps};

use super::{Cluster, MOST_UNFINISHED};
use crate::transaction::Transaction;
use catalogue::refusal::Refusal;
use catalogue::replicas::Replicas;
use sequencing::mode::Mode;
use sequencing::sequencer::Begun;
use sequencing::sequencer::methods::declares_any;

impl<R: Replicas> Cluster<R> {
    // Begins it with the sequencer, and takes it up as the last of the unfinished, among which a place is free.
    fn admit(&mut self, modes: [Mode; 8]) -> Result<Begun, Refusal>
        requires { vec_len self.old.unfinished < 16 }
        ensures answer { told result ≡ admit_reply (counts_of self.old.sequencer) modes }
        ensures after { state_of R.Replicas.catalogues self.new ≡ kept_if_refused (begin_refusal (counts_of self.old.sequencer) modes) (state_of R.Replicas.catalogues self.old) (beginning_after (state_of R.Replicas.catalogues self.old) modes) }
        ensures kept { Keeps R.Replicas.lents self.old self.new }
    {
        let begun = self.sequencer.begin(&modes)?;
        self.unfinished
            .push_reserved(Transaction::new(modes, begun));
        Ok(begun)
    }

    pub fn begin(&mut self, modes: [Mode; 8]) -> Result<u32, Refusal>
        ensures answer { told result ≡ begin_reply (state_of R.Replicas.catalogues self.old) modes }
        ensures after { state_of R.Replicas.catalogues self.new ≡ begin_after (state_of R.Replicas.catalogues self.old) modes }
        ensures kept { Keeps R.Replicas.lents self.old self.new }
    {
        if !declares_any(&modes) {
            return Err(Refusal::NothingDeclared);
        }
        if self.unfinished_count() >= MOST_UNFINISHED {
            return Err(Refusal::TooManyUnfinished);
        }
        let begun = self.admit(modes)?;
        Ok(begun.number)
    }
}
