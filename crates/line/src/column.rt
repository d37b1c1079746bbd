ghost use Rattle.std.specs.Prelude.{◌≡◌};
ghost use Rattle.line.specs.Columns.{columns_from};

// The columns of a line, numbered from its first field.
#[derive(Clone, Copy)]
pub enum Column {
    Call = 1,
    Number = 2,
    Place = 3,
    Row = 4,
    High = 5,
    Low = 6,
    Class = 7,
}

const COLUMNS: [Column; 7] = [
    Column::Call,
    Column::Number,
    Column::Place,
    Column::Row,
    Column::High,
    Column::Low,
    Column::Class,
];

impl Column {
    // The column and those behind it.
    pub(crate) fn and_behind(self) -> &'static [Column]
        ensures { result.now ≡ columns_from self }
    {
        &COLUMNS[self as usize - 1..]
    }
}
