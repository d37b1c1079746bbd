ghost use Rattle.std.specs.Prelude.{◌≡◌, Some, None};
ghost use Rattle.line.specs.Refusals.{field_of};

use crate::column::Column;
use catalogue::refusal::Refusal;

// A refusal met while a sheet is read, with its line, counted from 1, and its column, where it is not of the whole line.
#[derive(Clone, Copy)]
pub struct SheetRefusal {
    pub refusal: Refusal,
    pub line: u32,
    pub column: Option<Column>,
}

impl SheetRefusal {
    // The refusal of a whole line.
    pub fn of_line(refusal: Refusal, line: u32) -> SheetRefusal
        ensures { result ≡ record { refusal = refusal; line = line; column = None } }
    {
        SheetRefusal {
            refusal,
            line,
            column: None,
        }
    }

    // The refusal of a line's field.
    pub fn of_field(refusal: Refusal, line: u32, column: Column) -> SheetRefusal
        ensures { result ≡ record { refusal = refusal; line = line; column = Some column } }
    {
        SheetRefusal {
            refusal,
            line,
            column: Some(column),
        }
    }

    // The field as it is printed, counted from 1; 0 is the whole line.
    pub fn field(self) -> u32
        ensures { result ≡ field_of self.column }
    {
        self.column.map_or(0, |column| column as u32)
    }
}
