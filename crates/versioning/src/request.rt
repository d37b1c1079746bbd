use catalogue::row::Row;
use sequencing::call::Call;

// A call, or one of the two that speak of values: `V` are the values, `K` tells of which kind one is wanted.
#[derive(Clone, Copy)]
pub enum Request<V, K> {
    Call(Call),
    WriteAs {
        number: u32,
        table: u32,
        row: u32,
        value: V,
        class: u32,
    },
    ReadAs {
        number: u32,
        table: u32,
        row: u32,
        kind: K,
    },
}

// What an accepted request answers.
#[derive(Clone, Copy)]
pub enum Outcome<V> {
    Accepted,
    Begun { number: u32 },
    Found { row: Row, replica: u32 },
    Value { value: V, replica: u32 },
}
