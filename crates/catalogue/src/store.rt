ghost use Rattle.std.specs.Prelude.{◌≡◌, List, length};
ghost use Rattle.catalogue.specs.declared.row.Row.{Row as RowOf};
ghost use Rattle.catalogue.specs.Refusals.{told};
ghost use Rattle.catalogue.specs.Rows.{Lent, fetch_reply, put_reply, put_after};

use crate::refusal::Refusal;
use crate::row::Row;

// A store of one catalogue. It may rearrange itself at a fetch, so that takes `&mut self` too.
// A call takes any two numbers, and refuses those that have no place: a `Place` in their stead would ask more of callers.
pub trait Store {
    // What it means: the row at each of the 512 places.
    ghost rows: { Self → List RowOf };

    ghost full: { (s : Self) → length (rows s) ≡ 512 };

    // The memory that is lent to it, which no call exchanges, and the rows in it that no call touches.
    ghost lent: { Self → Lent };

    fn fetch(&mut self, table: u32, row: u32) -> Result<Row, Refusal>
        ensures answer { told result ≡ fetch_reply (rows self.old) table row }
        ensures same { rows self.new ≡ rows self.old }
        ensures kept { lent self.new ≡ lent self.old };

    fn put(&mut self, table: u32, row: u32, value: Row) -> Result<(), Refusal>
        ensures answer { told result ≡ put_reply table row }
        ensures after { rows self.new ≡ put_after (rows self.old) table row value }
        ensures kept { lent self.new ≡ lent self.old };
}
