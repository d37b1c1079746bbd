// The cluster on which a sheet is run: three replicas of zero rows, each of its own kind.
ghost use Rattle.std.specs.Prelude.{◌≡◌, ◌∷◌, [], map, IfOk};
ghost use Rattle.catalogue.specs.Refusals.{told};
ghost use Rattle.report.specs.Reports.{opening};
ghost use Rattle.report.specs.Writing.{answers_to};

use catalogue::kind::counter::Counter;
use catalogue::refusal::Refusal;
use cluster::cluster::Cluster;
use layers::cache::Cache;
use layers::numbers::Numbers;
use layers::renumbering::Renumbering;
use std::alloc::{AllocError, Global};
use stores::change_list::ChangeList;
use stores::image::Image;
use stores::memory::Memory;
use versioning::request::{Outcome, Request};

// Table t is 7 - t below.
fn backwards() -> Numbers
    ensures { result.below ≡ 7 ∷ 6 ∷ 5 ∷ 4 ∷ 3 ∷ 2 ∷ 1 ∷ 0 ∷ [] }
{
    Numbers::new([7, 6, 5, 4, 3, 2, 1, 0]).unwrap()
}

// The answers to the requests, which are made of a new cluster. No sheet speaks of values, so any kind does for those.
pub(crate) fn answers(
    heap: Global,
    requests: &[Request<Counter, ()>],
) -> Result<Vec<Result<Outcome<Counter>, Refusal>>, AllocError>
    ensures { IfOk result (λ v. map told v.items ≡ answers_to opening requests.now) }
{
    let numbers = backwards();
    let mut first = Memory::zeroed(heap)?;
    let mut second = Memory::zeroed(heap)?;
    let mut third = Memory::zeroed(heap)?;
    let replicas = (
        Image::new(&mut first),
        ChangeList::new(&mut second),
        Cache::new(Renumbering::new(Image::new(&mut third), &numbers)),
    );
    let (answers, _cluster) = Cluster::run(heap, replicas, requests)?;
    Ok(answers)
}
