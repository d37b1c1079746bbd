ghost use Rattle.std.specs.Prelude.{◌≡◌, ◌<◌, map, IfOk};
ghost use Rattle.std.specs.List.{range_with_len};
ghost use Rattle.catalogue.specs.Refusals.{told_as};
ghost use Rattle.catalogue.specs.Rows.{table_reply};

use crate::refusal::Refusal;
use crate::row::TABLES;

// The number of one of the eight tables.
#[derive(Clone, Copy, PartialEq, Eq, Debug)]
pub struct Table {
    number: u32,
    pub ghost within: { number < 8 },
}

impl Table {
    pub fn new(number: u32) -> Result<Table, Refusal>
        ensures answer { told_as (λ table. table.number) result ≡ table_reply number }
        ensures found { IfOk result (λ table. table.number ≡ number) }
    {
        if number >= TABLES {
            return Err(Refusal::TableOutOfRange);
        }
        Ok(Table { number })
    }

    // All of them, in their order.
    pub fn all() -> [Table; 8]
        ensures { map (λ table. table.number) result ≡ range_with_len 0 8 }
    {
        [
            Table { number: 0 },
            Table { number: 1 },
            Table { number: 2 },
            Table { number: 3 },
            Table { number: 4 },
            Table { number: 5 },
            Table { number: 6 },
            Table { number: 7 },
        ]
    }

    pub fn number(self) -> u32
        ensures { result ≡ self.number }
    {
        self.number
    }

    pub fn index(self) -> usize
        ensures { result ≡ self.number }
    {
        self.number as usize
    }
}
