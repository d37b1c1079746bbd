ghost use Rattle.std.specs.Prelude.{◌≡◌, ◌+◌, ◌^◌, ◌<◌, [], ◌∷◌, ◌++◌, length};

use super::BLANK;
use crate::short_list::ShortList;
use catalogue::row::Row;

// How far a replica is with a transaction: the row that each operation executed there replaced, and what those operations cost together.
#[derive(Clone, Copy)]
pub struct Progress {
    pub(super) replaced: ShortList<Row, 25>,
    pub(super) cost: u32,
}

impl Progress {
    pub(super) fn new() -> Progress
        ensures replaced { result.replaced.items ≡ [] }
        ensures cost { result.cost ≡ 0 }
    {
        Progress {
            replaced: ShortList::new(BLANK),
            cost: 0,
        }
    }

    // How many operations the replica has executed.
    pub(super) fn executed(&self) -> usize
        ensures { result ≡ length self.now.replaced.items }
    {
        self.replaced.len()
    }

    // One operation more is executed, which replaced the row and has the cost.
    pub(super) fn record(&mut self, old: Row, cost: u32)
        requires room { length self.old.replaced.items < 25 }
        requires fits { self.old.cost + cost < 2 ^ 32 }
        ensures replaced { self.new.replaced.items ≡ self.old.replaced.items ++ old ∷ [] }
        ensures cost { self.new.cost ≡ self.old.cost + cost }
    {
        self.replaced.push(old);
        self.cost += cost;
    }
}
