ghost use Rattle.std.specs.Prelude.{ℕ, ◌≤◌, slice_index_or};

pub mod methods;

// The numbers that a table gives to its next reader and to its next writer.
#[derive(Clone, Copy, PartialEq, Eq, Debug)]
pub struct Next {
    pub read: u32,
    pub write: u32,
}

// What a transaction is assigned at a table, by the mode in which it declares it: its cases are the modes', so it is no Option either.
#[derive(Clone, Copy, PartialEq, Eq, Debug)]
pub enum Assigned {
    None,
    Read(u32),
    Write(u32),
}

// A transaction as the sequencer lets it begin: its number, and what it is assigned at each table.
#[derive(Clone, Copy, Debug)]
pub struct Begun {
    pub number: u32,
    pub assigned: [Assigned; 8],
}

// The counters of the eight tables, and how many transactions have begun.
#[derive(Clone, Copy)]
pub struct Sequencer {
    begun: u32,
    next: [Next; 8],
    // No counter passes the number of transactions begun, so none overflows.
    ghost few: { begun ≤ 1000000 },
    ghost counted: { (t : ℕ) → (slice_index_or next t (record { read = 0; write = 0 })).write ≤ begun },
}
