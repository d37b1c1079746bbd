ghost use Rattle.std.specs.Prelude.{◌≡◌};
ghost use Rattle.layers.specs.Numbers.{renumbered, renumbered_full};

use crate::numbers::Numbers;
use catalogue::refusal::Refusal;
use catalogue::row::Row;
use catalogue::store::Store;
use catalogue::table::Table;

// A store over another that has the tables under other numbers.
#[derive(Drop)]
pub struct Renumbering<'n, S> {
    below: S,
    numbers: &'n Numbers,
}

impl<'n, S> Renumbering<'n, S> {
    pub fn new(below: S, numbers: &'n Numbers) -> Renumbering<'n, S>
        ensures { (result.below ≡ below) × (result.numbers.now ≡ numbers.now) }
    {
        Renumbering { below, numbers }
    }

    pub fn into_below(self) -> S
        ensures { result ≡ self.entry.below }
    {
        let Renumbering { below, numbers: _ } = self;
        below
    }
}

impl<'n, S: Store> Store for Renumbering<'n, S> {
    ghost rows = { λ s. renumbered s.numbers.now.below (S.Store.rows s.below) };

    ghost full = { λ s. renumbered_full s.numbers.now.below (S.Store.rows s.below) };

    ghost lent = { λ s. S.Store.lent s.below };

    fn fetch(&mut self, table: u32, row: u32) -> Result<Row, Refusal> {
        let table = Table::new(table)?;
        self.below.fetch(self.numbers.of(table), row)
    }

    fn put(&mut self, table: u32, row: u32, value: Row) -> Result<(), Refusal> {
        let table = Table::new(table)?;
        self.below.put(self.numbers.of(table), row, value)
    }
}
