// What is to be told of an operation, and of several that were asked one after the other.
ghost use Rattle.std.specs.Prelude.{◌≡◌, ◌≤◌};
ghost use Rattle.versioning.specs.Words.{is_release, is_write as is_write_of, is_write_at, count_writes as count_writes_of};
ghost use Rattle.versioning.specs.Machine.{cost as cost_of};

use catalogue::table::Table;
use versioning::operation::Operation;

// A write's classes, and what it costs by its class.
pub(super) const CLASSES: u32 = 8;

const COSTS: [u32; 8] = [1, 2, 3, 5, 8, 13, 21, 34];

pub(crate) fn is_write(operation: Operation) -> bool
    ensures { result ≡ is_write_of operation }
{
    match operation {
        Operation::Write { .. } => true,
        Operation::Release { .. } | Operation::Commit | Operation::Abort => false,
    }
}

pub(crate) fn writes_to(operation: Operation, table: Table) -> bool
    ensures { result ≡ is_write_at table.number operation }
{
    match operation {
        Operation::Write { table: written, .. } => table.number() == written,
        Operation::Release { .. } | Operation::Commit | Operation::Abort => false,
    }
}

pub(crate) fn releases(operation: Operation, table: Table) -> bool
    ensures { result ≡ is_release table.number operation }
{
    match operation {
        Operation::Release { table: released } => table.number() == released,
        Operation::Write { .. } | Operation::Commit | Operation::Abort => false,
    }
}

pub(crate) fn count_writes(operations: &[Operation]) -> usize
    ensures { result ≡ count_writes_of operations.now }
{
    operations.iter().filter(|o| is_write(**o)).count()
}

// A class that is not in the table, which no accepted write has, costs nothing.
pub(crate) fn cost(operation: Operation) -> u32
    ensures is { result ≡ cost_of operation }
    ensures most { result ≤ 34 }
{
    match operation {
        Operation::Write { class, .. } if class < CLASSES => COSTS[class as usize],
        Operation::Write { .. } => 0,
        Operation::Release { .. } | Operation::Commit | Operation::Abort => 1,
    }
}
