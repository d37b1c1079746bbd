ghost use Rattle.std.specs.Prelude.{◌≡◌, ◌<◌, IfOk};
ghost use Rattle.catalogue.specs.Refusals.{told_as};
ghost use Rattle.catalogue.specs.Rows.{Placed, place_reply};

use crate::refusal::Refusal;
use crate::table::Table;

pub const TABLES: u32 = 8;

pub const ROWS: u32 = 64;

#[derive(Clone, Copy, PartialEq, Eq, Debug, Default)]
pub struct Row {
    pub high: u64,
    pub low: u64,
}

// One of the 512 places of a catalogue.
#[derive(Clone, Copy, PartialEq, Eq, Debug)]
pub struct Place {
    index: u32,
    pub ghost within: { index < 512 },
}

impl Place {
    pub fn index(self) -> usize
        ensures { result ≡ self.index }
    {
        self.index as usize
    }
}

// The first place.
impl Default for Place {
    fn default() -> Place
        ensures { result.index ≡ 0 }
    {
        Place { index: 0 }
    }
}

impl Table {
    // Where the row of the table stands among the 512.
    pub fn place(self, row: u32) -> Result<Place, Refusal>
        ensures answer { told_as (λ place. place.index) result ≡ place_reply self.number row }
        ensures found { IfOk result (λ place. Placed self.number row place.index) }
    {
        if row >= ROWS {
            return Err(Refusal::RowOutOfRange);
        }
        Ok(Place {
            index: self.number() * ROWS + row,
        })
    }
}

// Where the row of the table stands, which is refused first where there is no such table.
pub fn place_of(table: u32, row: u32) -> Result<Place, Refusal>
    ensures answer { told_as (λ place. place.index) result ≡ place_reply table row }
    ensures found { IfOk result (λ place. Placed table row place.index) }
{
    Table::new(table)?.place(row)
}
