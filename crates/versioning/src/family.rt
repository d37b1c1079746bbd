ghost use Rattle.std.specs.Prelude.{◌≡◌, Some, Option};
ghost use Rattle.catalogue.specs.declared.row.Row.{Row as RowOf};

use catalogue::row::Row;

pub mod pair;
pub mod single;

// A family of kinds of row: its values pack into rows, and a row unpacks to a value of the kind that is asked for, or to none.
pub trait Family: Sized {
    // Which of its kinds.
    type Which: Copy;

    // What holds of every value of the type: its numbers fit.
    ghost sound: { Self → Type 0 };

    // The kind of a value.
    ghost own: { Self → Self.Which };

    ghost packed: { Self → RowOf };

    ghost unpacked: { Self.Which → RowOf → Option Self };

    fn pack(self) -> Row
        ensures row { result ≡ packed self }
        ensures sound { sound self };

    fn unpack(kind: Self::Which, row: Row) -> Option<Self>
        ensures { result ≡ unpacked kind row };

    ghost unpacks: { (v : Self) → sound v → unpacked (own v) (packed v) ≡ Some v };

    ghost packs: { (k : Self.Which) (r : RowOf) (v : Self) → unpacked k r ≡ Some v → packed v ≡ r };
}
