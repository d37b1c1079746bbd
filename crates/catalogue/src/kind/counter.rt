ghost use Rattle.std.specs.Prelude.{◌^◌, ◌<◌};
ghost use Rattle.catalogue.specs.Kinds.{counter_packed, counter_unpacked};
ghost use Rattle.std.proofs.Common.{rules};

use crate::kind::Kind;
use crate::row::Row;

// A count, as of prints.
#[derive(Clone, Copy, PartialEq, Eq, Debug)]
pub struct Counter(pub u64);

impl Kind for Counter {
    ghost sound = { λ n. n.0 < 2 ^ 64 };

    ghost packed = { counter_packed };

    ghost unpacked = { counter_unpacked };

    ghost unpacks = { Prim.search rules };

    ghost packs = { Prim.search rules };

    fn pack(self) -> Row {
        Row {
            high: 0,
            low: self.0,
        }
    }

    fn unpack(row: Row) -> Option<Counter> {
        (row.high == 0).then_some(Counter(row.low))
    }
}
