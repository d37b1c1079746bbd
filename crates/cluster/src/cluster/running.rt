ghost use Rattle.std.specs.Prelude.{◌≡◌, ◌+◌, ◌≤◌, ◌++◌, map, length, IfOk, vec_len, vec_capacity, MatchResult};
ghost use Rattle.catalogue.specs.Replicated.{catalogue_of};
ghost use Rattle.versioning.specs.Serial.{InSerialOrder};
ghost use Rattle.catalogue.specs.Refusals.{told};
ghost use Rattle.versioning.specs.Machine.{reply, after, call_reply, call_after, start, final};
ghost use Rattle.cluster.specs.View.{state_of, Keeps};
ghost use Rattle.cluster.specs.Runs.{replies, history};

use super::Cluster;
use catalogue::refusal::Refusal;
use catalogue::replicas::Replicas;
use sequencing::call::Call;
use std::alloc::{AllocFailed, Global};
use versioning::family::Family;
use versioning::request::{Outcome, Request};

impl<R: Replicas> Cluster<R> {
    // One call by number, as a sheet makes it.
    pub fn call<V>(&mut self, call: Call) -> Result<Outcome<V>, Refusal>
        ensures answer { told result ≡ call_reply (state_of R.Replicas.catalogues self.old) call }
        ensures after { state_of R.Replicas.catalogues self.new ≡ call_after (state_of R.Replicas.catalogues self.old) call }
        ensures kept { Keeps R.Replicas.lents self.old self.new }
    {
        match call {
            Call::Begin { modes } => {
                let number = self.begin(modes)?;
                Ok(Outcome::Begun { number })
            }
            Call::Write {
                number,
                table,
                row,
                value,
                class,
            } => {
                self.write(number, table, row, value, class)?;
                Ok(Outcome::Accepted)
            }
            Call::Read { number, table, row } => {
                let (row, replica) = self.read(number, table, row)?;
                Ok(Outcome::Found { row, replica })
            }
            Call::Release { number, table } => {
                self.release(number, table)?;
                Ok(Outcome::Accepted)
            }
            Call::Commit { number } => {
                self.commit(number)?;
                Ok(Outcome::Accepted)
            }
            Call::Abort { number } => {
                self.abort(number)?;
                Ok(Outcome::Accepted)
            }
            Call::Step { number, replica } => {
                self.step(number, replica)?;
                Ok(Outcome::Accepted)
            }
        }
    }

    // One request: a call, or a typed write or read.
    pub fn request<F: Family>(
        &mut self,
        request: Request<F, F::Which>,
    ) -> Result<Outcome<F>, Refusal>
        ensures answer { told result ≡ reply F.Family.packed F.Family.unpacked (state_of R.Replicas.catalogues self.old) request }
        ensures after { state_of R.Replicas.catalogues self.new ≡ after F.Family.packed F.Family.unpacked (state_of R.Replicas.catalogues self.old) request }
        ensures kept { Keeps R.Replicas.lents self.old self.new }
    {
        match request {
            Request::Call(call) => self.call(call),
            Request::WriteAs {
                number,
                table,
                row,
                value,
                class,
            } => {
                self.write_as(number, table, row, value, class)?;
                Ok(Outcome::Accepted)
            }
            Request::ReadAs {
                number,
                table,
                row,
                kind,
            } => {
                let (value, replica) = self.read_as(number, table, row, kind)?;
                Ok(Outcome::Value { value, replica })
            }
        }
    }

    // Requests one after the other; the answers go behind those that are there, for which there is room.
    fn request_all<F: Family + Copy>(
        &mut self,
        requests: &[Request<F, F::Which>],
        answers: &mut Vec<Result<Outcome<F>, Refusal>>,
    )
        requires { vec_len answers.old + length requests.now ≤ vec_capacity answers.old }
        ensures answers { map told answers.new.items ≡ map told answers.old.items ++ replies F.Family.packed F.Family.unpacked (state_of R.Replicas.catalogues self.old) requests.now }
        ensures after { state_of R.Replicas.catalogues self.new ≡ final F.Family.packed F.Family.unpacked (state_of R.Replicas.catalogues self.old) requests.now }
        ensures kept { Keeps R.Replicas.lents self.old self.new }
    {
        for request in requests {
            answers.push_reserved(self.request(*request));
        }
    }

    // Opens a cluster over the replicas, makes the requests one after the other, and gives back their answers and the cluster.
    // The answers and the rows that the replicas end with are those of the serial run. Where there is no memory the replicas are handed back as they were.
    pub fn run<F: Family + Copy>(
        heap: Global,
        replicas: R,
        requests: &[Request<F, F::Which>],
    ) -> Result<(Vec<Result<Outcome<F>, Refusal>>, Cluster<R>), AllocFailed<R>>
        ensures order { MatchResult result (λ x. InSerialOrder F.Family.packed F.Family.unpacked (catalogue_of (R.Replicas.catalogues replicas) 0) (history requests.now (map told x.0.items)) (R.Replicas.catalogues x.1.replicas)) (λ back. back.value ≡ replicas) }
        ensures answers { IfOk result (λ x. map told x.0.items ≡ replies F.Family.packed F.Family.unpacked (start (length (R.Replicas.catalogues replicas)) (catalogue_of (R.Replicas.catalogues replicas) 0)) requests.now) }
        ensures after { IfOk result (λ x. state_of R.Replicas.catalogues x.1 ≡ final F.Family.packed F.Family.unpacked (start (length (R.Replicas.catalogues replicas)) (catalogue_of (R.Replicas.catalogues replicas) 0)) requests.now) }
        ensures kept { IfOk result (λ x. R.Replicas.lents x.1.replicas ≡ R.Replicas.lents replicas) }
    {
        let Ok(mut answers) = Vec::with_capacity(heap, requests.len()) else {
            return Err(AllocFailed { value: replicas });
        };
        let mut cluster = Cluster::open(heap, replicas)?;
        cluster.request_all(requests, &mut answers);
        Ok((answers, cluster))
    }
}
