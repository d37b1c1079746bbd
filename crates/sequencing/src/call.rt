use crate::mode::Mode;
use catalogue::row::Row;

// What a client may ask of the catalogue. Transactions, tables, rows, classes and replicas are told by numbers, taken as they come.
#[derive(Clone, Copy)]
pub enum Call {
    Begin {
        modes: [Mode; 8],
    },
    Write {
        number: u32,
        table: u32,
        row: u32,
        value: Row,
        class: u32,
    },
    Read {
        number: u32,
        table: u32,
        row: u32,
    },
    Release {
        number: u32,
        table: u32,
    },
    Commit {
        number: u32,
    },
    Abort {
        number: u32,
    },
    Step {
        number: u32,
        replica: u32,
    },
}
