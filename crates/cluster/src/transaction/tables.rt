// How a transaction stands to a table: as it declared it, and whether it asked to let go of it.
ghost use Rattle.std.specs.Prelude.{◌≡◌, ◌≤◌, length, take};
ghost use Rattle.sequencing.specs.Modes.{declares as declares_of};
ghost use Rattle.versioning.specs.Words.{writes as writes_of, mode, released};
ghost use Rattle.cluster.specs.Transactions.{course_of};

use super::Transaction;
use super::operations::releases;
use catalogue::table::Table;
use sequencing::mode::Mode;

impl Transaction {
    pub(crate) fn declares(&self, table: Table) -> bool
        ensures { result ≡ declares_of (mode (course_of self.now) table.number) }
    {
        self.declared[table.index()].declares()
    }

    pub(crate) fn writes(&self, table: Table) -> bool
        ensures { result ≡ writes_of (mode (course_of self.now) table.number) }
    {
        matches!(self.declared[table.index()], Mode::Write)
    }

    // Whether it asked the release of the table.
    pub(crate) fn has_asked_release(&self, table: Table) -> bool
        ensures { result ≡ released table.number (course_of self.now).asked }
    {
        self.releases_within(self.asked.len(), table)
    }

    // Whether its first operations release the table.
    pub(crate) fn releases_within(&self, first: usize, table: Table) -> bool
        requires { first ≤ length self.now.asked.items }
        ensures { result ≡ released table.number (take first self.now.asked.items) }
    {
        self.asked.as_slice()[..first]
            .iter()
            .any(|o| releases(*o, table))
    }
}
