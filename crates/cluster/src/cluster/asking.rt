ghost use Rattle.std.specs.Prelude.{◌≡◌};
ghost use Rattle.catalogue.specs.Refusals.{told};
ghost use Rattle.versioning.specs.Machine.{write_reply, write_after, release_reply, release_after, commit_reply, commit_after, abort_reply, abort_after};
ghost use Rattle.cluster.specs.View.{state_of, Keeps, ask_reply, ask_after};

use super::Cluster;
use catalogue::refusal::Refusal;
use catalogue::replicas::Replicas;
use catalogue::row::Row;
use versioning::operation::Operation;

impl<R: Replicas> Cluster<R> {
    fn ask(&mut self, number: u32, operation: Operation) -> Result<(), Refusal>
        ensures answer { told result ≡ ask_reply (state_of R.Replicas.catalogues self.old) number operation }
        ensures after { state_of R.Replicas.catalogues self.new ≡ ask_after (state_of R.Replicas.catalogues self.old) number operation }
        ensures kept { Keeps R.Replicas.lents self.old self.new }
    {
        if number >= self.sequencer.begun() {
            return Err(Refusal::UnknownTransaction);
        }
        let Some(i) = self.position(number) else {
            return Err(Refusal::NotOpen);
        };
        self.unfinished[i].ask(operation)
    }

    pub fn write(
        &mut self,
        number: u32,
        table: u32,
        row: u32,
        value: Row,
        class: u32,
    ) -> Result<(), Refusal>
        ensures answer { told result ≡ write_reply (state_of R.Replicas.catalogues self.old) number table row class }
        ensures after { state_of R.Replicas.catalogues self.new ≡ write_after (state_of R.Replicas.catalogues self.old) number table row value class }
        ensures kept { Keeps R.Replicas.lents self.old self.new }
    {
        self.ask(
            number,
            Operation::Write {
                table,
                row,
                value,
                class,
            },
        )
    }

    pub fn release(&mut self, number: u32, table: u32) -> Result<(), Refusal>
        ensures answer { told result ≡ release_reply (state_of R.Replicas.catalogues self.old) number table }
        ensures after { state_of R.Replicas.catalogues self.new ≡ release_after (state_of R.Replicas.catalogues self.old) number table }
        ensures kept { Keeps R.Replicas.lents self.old self.new }
    {
        self.ask(number, Operation::Release { table })
    }

    pub fn commit(&mut self, number: u32) -> Result<(), Refusal>
        ensures answer { told result ≡ commit_reply (state_of R.Replicas.catalogues self.old) number }
        ensures after { state_of R.Replicas.catalogues self.new ≡ commit_after (state_of R.Replicas.catalogues self.old) number }
        ensures kept { Keeps R.Replicas.lents self.old self.new }
    {
        self.ask(number, Operation::Commit)
    }

    pub fn abort(&mut self, number: u32) -> Result<(), Refusal>
        ensures answer { told result ≡ abort_reply (state_of R.Replicas.catalogues self.old) number }
        ensures after { state_of R.Replicas.catalogues self.new ≡ abort_after (state_of R.Replicas.catalogues self.old) number }
        ensures kept { Keeps R.Replicas.lents self.old self.new }
    {
        self.ask(number, Operation::Abort)
    }
}
