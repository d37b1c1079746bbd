ghost use Rattle.std.specs.Prelude.{◌≤◌, vec_len};

use catalogue::row::Row;

pub mod access;

// What is lent to a store: at least 512 rows.
#[derive(Drop)]
pub struct Memory {
    rows: Vec<Row>,
    ghost long: { 512 ≤ vec_len rows },
}
