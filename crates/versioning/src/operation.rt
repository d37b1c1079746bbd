use catalogue::row::Row;

// What a transaction asked, and each replica executes in the order asked. A vector of a fixed capacity wants a default for its free places.
#[derive(Clone, Copy, Default)]
pub enum Operation {
    #[default]
    Commit,
    Abort,
    Release {
        table: u32,
    },
    Write {
        table: u32,
        row: u32,
        value: Row,
        class: u32,
    },
}
