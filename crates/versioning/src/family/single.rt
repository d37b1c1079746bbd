ghost use Rattle.std.proofs.Common.{rules};

use super::Family;
use catalogue::kind::Kind;
use catalogue::row::Row;

// Every kind is a family of one.
impl<T: Kind> Family for T {
    type Which = ();

    ghost sound = { T.Kind.sound };

    ghost own = { λ v. tt };

    ghost packed = { T.Kind.packed };

    ghost unpacked = { λ k r. T.Kind.unpacked r };

    ghost unpacks = { Prim.search rules };

    ghost packs = { Prim.search rules };

    fn pack(self) -> Row {
        Kind::pack(self)
    }

    fn unpack(_kind: (), row: Row) -> Option<T> {
        <T as Kind>::unpack(row)
    }
}
