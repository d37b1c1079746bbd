ghost use Rattle.std.specs.Prelude.{◌≡◌, ◌==◌, false, length, Some, None, Ok, Err};
ghost use Rattle.field.specs.Fields.{shown};
ghost use Rattle.line.specs.declared.column.Column.{Column};
ghost use Rattle.line.specs.Columns.{column_number, columns_from};
ghost use Rattle.line.specs.Refusals.{told};
ghost use Rattle.line.specs.Calls.{begin_form, write_form, read_form, release_form, commit_form, abort_form, step_form, form_reply, call_reply};
ghost use Rattle.line.specs.Lines.{in_column, behind, all_shown, lowest_used, bad_field, contents_of, told_fields, cut_reply};

pub use crate::column::Column;
use crate::refusal::SheetRefusal;
use catalogue::refusal::Refusal;
use catalogue::row::Row;
use field::field::{Field, FromField};
use field::pieces::split_at_mark;
use sequencing::call::Call;

// The seven fields of a line, and the line's number.
#[derive(Clone, Copy)]
pub struct Fields<'a> {
    pub line: u32,
    pub fields: [Field<'a>; 7],
}

impl<'a> Fields<'a> {
    // The fields between the text's commas; nothing where there are not seven.
    fn seven(line: u32, text: &'a [u8]) -> Option<Fields<'a>>
        ensures { elim result [ Some f ↦ (f.line ≡ line) × (all_shown f ≡ contents_of text.now) | None ↦ (length (contents_of text.now) == 7) ≡ false ] }
    {
        let (call, text) = split_at_mark(b',', text)?;
        let (number, text) = split_at_mark(b',', text)?;
        let (place, text) = split_at_mark(b',', text)?;
        let (row, text) = split_at_mark(b',', text)?;
        let (high, text) = split_at_mark(b',', text)?;
        let (low, class) = split_at_mark(b',', text)?;
        match split_at_mark(b',', class) {
            Some(_) => None,
            None => Some(Fields {
                line,
                // One by one: by the array's own `map` a line takes half as long again.
                fields: [
                    Field::from(call),
                    Field::from(number),
                    Field::from(place),
                    Field::from(row),
                    Field::from(high),
                    Field::from(low),
                    Field::from(class),
                ],
            }),
        }
    }

    // Cuts the line's text, which is without its line feed, into its fields.
    pub fn cut(line: u32, text: &'a [u8]) -> Result<Fields<'a>, SheetRefusal>
        ensures { told_fields result ≡ cut_reply line text.now }
    {
        Fields::seven(line, text).ok_or(SheetRefusal::of_line(Refusal::BadLine, line))
    }

    fn at(&self, column: Column) -> Field<'a>
        ensures { shown result ≡ in_column self.now column }
    {
        self.fields[column as usize - 1]
    }

    // What the column's field says; a refusal where it does not say it.
    fn get<T: FromField>(&self, column: Column) -> Result<T, SheetRefusal>
        ensures { elim result [ Ok x ↦ T.read (in_column self.now column) ≡ Some x | Err e ↦ (T.read (in_column self.now column) ≡ None) × (e ≡ bad_field self.now.line column) ] }
    {
        T::from_field(self.at(column)).ok_or(SheetRefusal::of_field(
            Refusal::BadField,
            self.line,
            column,
        ))
    }

    // A call uses no field from the column on.
    fn unused_from(&self, column: Column) -> Result<(), SheetRefusal>
        ensures { elim result [ Ok x ↦ lowest_used self.now (columns_from column) ≡ 0 | Err e ↦ (c : Column) × (e ≡ bad_field self.now.line c) × (lowest_used self.now (columns_from column) ≡ column_number c) ] }
    {
        for unused in column.and_behind() {
            self.get::<()>(*unused)?;
        }
        Ok(())
    }

    fn begin(&self) -> Result<Call, SheetRefusal>
        ensures { told result ≡ form_reply begin_form self.now.line (behind self.now) }
    {
        self.get::<()>(Column::Number)?;
        let modes = self.get(Column::Place)?;
        self.unused_from(Column::Row)?;
        Ok(Call::Begin { modes })
    }

    fn write(&self) -> Result<Call, SheetRefusal>
        ensures { told result ≡ form_reply write_form self.now.line (behind self.now) }
    {
        let number = self.get(Column::Number)?;
        let table = self.get(Column::Place)?;
        let row = self.get(Column::Row)?;
        let high = self.get(Column::High)?;
        let low = self.get(Column::Low)?;
        let class = self.get(Column::Class)?;
        Ok(Call::Write {
            number,
            table,
            row,
            value: Row { high, low },
            class,
        })
    }

    fn read(&self) -> Result<Call, SheetRefusal>
        ensures { told result ≡ form_reply read_form self.now.line (behind self.now) }
    {
        let number = self.get(Column::Number)?;
        let table = self.get(Column::Place)?;
        let row = self.get(Column::Row)?;
        self.unused_from(Column::High)?;
        Ok(Call::Read { number, table, row })
    }

    // Release and step, and commit and abort, differ in the call alone, as their forms do, by which each is promised: what two of them share
    // would answer numbers that no form tells.
    fn release(&self) -> Result<Call, SheetRefusal>
        ensures { told result ≡ form_reply release_form self.now.line (behind self.now) }
    {
        let number = self.get(Column::Number)?;
        let table = self.get(Column::Place)?;
        self.unused_from(Column::Row)?;
        Ok(Call::Release { number, table })
    }

    fn commit(&self) -> Result<Call, SheetRefusal>
        ensures { told result ≡ form_reply commit_form self.now.line (behind self.now) }
    {
        let number = self.get(Column::Number)?;
        self.unused_from(Column::Place)?;
        Ok(Call::Commit { number })
    }

    fn abort(&self) -> Result<Call, SheetRefusal>
        ensures { told result ≡ form_reply abort_form self.now.line (behind self.now) }
    {
        let number = self.get(Column::Number)?;
        self.unused_from(Column::Place)?;
        Ok(Call::Abort { number })
    }

    fn step(&self) -> Result<Call, SheetRefusal>
        ensures { told result ≡ form_reply step_form self.now.line (behind self.now) }
    {
        let number = self.get(Column::Number)?;
        let replica = self.get(Column::Place)?;
        self.unused_from(Column::Row)?;
        Ok(Call::Step { number, replica })
    }

    // The call that the line makes, by its word.
    pub fn read_call(&self) -> Result<Call, SheetRefusal>
        ensures { told result ≡ call_reply self.now.line (in_column self.now Column.Call) (behind self.now) }
    {
        let word = self.at(Column::Call);
        // No match on byte strings: the proof of its last arm has 35 cases, one for each place at which two words part.
        if word.is(b"begin") {
            self.begin()
        } else if word.is(b"write") {
            self.write()
        } else if word.is(b"read") {
            self.read()
        } else if word.is(b"release") {
            self.release()
        } else if word.is(b"commit") {
            self.commit()
        } else if word.is(b"abort") {
            self.abort()
        } else if word.is(b"step") {
            self.step()
        } else {
            Err(SheetRefusal::of_field(Refusal::UnknownCall, self.line, Column::Call))
        }
    }
}
