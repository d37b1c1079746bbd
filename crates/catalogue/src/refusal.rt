ghost use Rattle.std.specs.Prelude.{◌≡◌};
ghost use Rattle.catalogue.specs.Refusals.{number as number_of};

// Why a call was refused. Each has one number, from 1; docs/REFUSALS.md gives the condition of each.
#[derive(Clone, Copy, PartialEq, Eq, Debug)]
pub enum Refusal {
    TableOutOfRange = 1,
    TableRepeated = 2,
    NothingDeclared = 3,
    TooManyUnfinished = 4,
    TooManyBegun = 5,
    UnknownTransaction = 6,
    NotOpen = 7,
    RowOutOfRange = 8,
    ClassOutOfRange = 9,
    NotDeclared = 10,
    AlreadyReleased = 11,
    TooManyWrites = 12,
    NoReplicaQualifies = 13,
    PastRecall = 14,
    UnknownReplica = 15,
    NothingWaits = 16,
    HeldBack = 17,
    NoValue = 18,
    NotAPermutation = 19,
    MemoryTooShort = 20,
    BadNames = 21,
    BadLine = 22,
    UnknownCall = 23,
    BadField = 24,
    SheetTooLong = 25,
}

impl Refusal {
    pub fn number(self) -> u8
        ensures { result ≡ number_of self }
    {
        self as u8
    }
}
