ghost use Rattle.catalogue.specs.Kinds.{FitsTape, tape_packed, tape_unpacked};
ghost use Rattle.std.proofs.Common.{rules};

use crate::kind::Kind;
use crate::row::Row;

// What a tape may be used for.
#[derive(Clone, Copy, PartialEq, Eq, Debug)]
pub enum Tape {
    Blank,
    Holding { job: u32, since: u32 },
    Reusable { from: u32 },
}

// The job stands above the day in the low number of a row.
const JOB: u64 = 0x1_0000_0000;

impl Kind for Tape {
    ghost sound = { FitsTape };

    ghost packed = { tape_packed };

    ghost unpacked = { tape_unpacked };

    ghost unpacks = { Prim.search rules };

    ghost packs = { Prim.search rules };

    fn pack(self) -> Row {
        match self {
            Tape::Blank => Row { high: 0, low: 0 },
            Tape::Holding { job, since } => Row {
                high: 1,
                low: u64::from(job) * JOB + u64::from(since),
            },
            Tape::Reusable { from } => Row {
                high: 2,
                low: u64::from(from),
            },
        }
    }

    fn unpack(row: Row) -> Option<Tape> {
        match (row.high, row.low) {
            (0, 0) => Some(Tape::Blank),
            (1, low) => Some(Tape::Holding {
                job: (low / JOB) as u32,
                since: (low % JOB) as u32,
            }),
            // By the bound that the day of a holding has too, and not by `try_from`.
            (2, from) if from < JOB => Some(Tape::Reusable { from: from as u32 }),
            _ => None,
        }
    }
}
