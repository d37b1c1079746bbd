ghost use Rattle.housekeeping.specs.Verdicts.{verdict_packed, verdict_unpacked};
ghost use Rattle.std.proofs.Common.{rules};

use catalogue::kind::Kind;
use catalogue::row::Row;
use std::fmt;

// What is known of a copy: a kind of row of this program's own.
#[derive(Clone, Copy)]
pub enum Verdict {
    Unchecked = 0,
    Failed = 1,
    Passed = 2,
}

impl Kind for Verdict {
    ghost sound = { λ _. Unit {0} };

    ghost packed = { verdict_packed };

    ghost unpacked = { verdict_unpacked };

    ghost unpacks = { Prim.search rules };

    ghost packs = { Prim.search rules };

    fn pack(self) -> Row {
        Row {
            high: self as u64,
            low: 0,
        }
    }

    fn unpack(row: Row) -> Option<Verdict> {
        match (row.high, row.low) {
            (0, 0) => Some(Verdict::Unchecked),
            (1, 0) => Some(Verdict::Failed),
            (2, 0) => Some(Verdict::Passed),
            _ => None,
        }
    }
}

impl fmt::Display for Verdict {
    fn fmt<W: fmt::Write>(&self, f: &mut fmt::Formatter<W>) -> fmt::Result {
        match *self {
            Verdict::Unchecked => write!(f, "not checked"),
            Verdict::Failed => write!(f, "checksum failed"),
            Verdict::Passed => write!(f, "checksum passed"),
        }
    }
}
