ghost use Rattle.std.specs.Prelude.{◌≡◌, Some, Option};
ghost use Rattle.catalogue.specs.declared.row.Row.{Row as RowOf};
ghost use Rattle.catalogue.specs.Refusals.{told};
ghost use Rattle.catalogue.specs.Kinds.{value_reply};

use crate::refusal::Refusal;
use crate::row::Row;

pub mod counter;
pub mod tape;

// A kind of row: each of its values packs into a row of its own, and a row unpacks to the value that packs into it, or to none.
// `From` and `TryFrom` have no such laws.
pub trait Kind: Sized {
    // What holds of every value of the type: its numbers fit.
    ghost sound: { Self → Type 0 };

    ghost packed: { Self → RowOf };

    ghost unpacked: { RowOf → Option Self };

    fn pack(self) -> Row
        ensures row { result ≡ packed self }
        ensures sound { sound self };

    fn unpack(row: Row) -> Option<Self>
        ensures { result ≡ unpacked row };

    ghost unpacks: { (v : Self) → sound v → unpacked (packed v) ≡ Some v };

    ghost packs: { (r : RowOf) (v : Self) → unpacked r ≡ Some v → packed v ≡ r };
}

// The value that the row holds, where it holds one of this kind.
pub fn read_as<K: Kind>(row: Row) -> Result<K, Refusal>
    ensures { told result ≡ value_reply (K.Kind.unpacked row) }
{
    K::unpack(row).ok_or(Refusal::NoValue)
}
