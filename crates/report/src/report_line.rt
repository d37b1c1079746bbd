ghost use Rattle.std.specs.Prelude.{◌≡◌, [], ◌∷◌, ◌++◌, OnOk};
ghost use Rattle.catalogue.specs.Refusals.{told, number as number_of};
ghost use Rattle.report.specs.Lines.{named as named_by, stepped as stepped_by, blank as blank_line, answered as answered_line, unread as unread_line, fields_of, behind_the_line, line_text, cell_text};

use catalogue::refusal::Refusal;
use itoa::Buffer;
use sequencing::call::Call;
use std::alloc::AllocError;
use versioning::request::Outcome;

// One line of a report. What is none is an empty field, but for the refusal, which is printed as 0.
#[derive(Clone, Copy)]
pub struct ReportLine {
    line: u32,
    refusal: Option<Refusal>,
    number: Option<u32>,
    replica: Option<u32>,
    high: Option<u64>,
    low: Option<u64>,
}

// The transaction that a call names; a begin names none.
fn named(call: Call) -> Option<u32>
    ensures { result ≡ named_by call }
{
    match call {
        Call::Begin { .. } => None,
        Call::Write { number, .. }
        | Call::Read { number, .. }
        | Call::Release { number, .. }
        | Call::Commit { number }
        | Call::Abort { number }
        | Call::Step { number, .. } => Some(number),
    }
}

// The replica at which a call is a step.
fn stepped(call: Call) -> Option<u32>
    ensures { result ≡ stepped_by call }
{
    match call {
        Call::Step { replica, .. } => Some(replica),
        Call::Begin { .. }
        | Call::Write { .. }
        | Call::Read { .. }
        | Call::Release { .. }
        | Call::Commit { .. }
        | Call::Abort { .. } => None,
    }
}

// Appends a field's number, or nothing where it is empty. Inlined, since a call for each field costs a run some hundredths more.
#[inline(always)]
fn append_cell(text: &mut Vec<u8>, cell: Option<u64>) -> Result<(), AllocError>
    ensures { OnOk result (text.new.items ≡ text.old.items ++ cell_text cell) }
{
    if let Some(n) = cell {
        text.extend_from_slice(Buffer::new().format(n).as_bytes())?;
    }
    Ok(())
}

impl ReportLine {
    // An accepted call's line, with every other field empty.
    fn blank(line: u32) -> ReportLine
        ensures { fields_of result ≡ blank_line line }
    {
        ReportLine {
            line,
            refusal: None,
            number: None,
            replica: None,
            high: None,
            low: None,
        }
    }

    // A line that was refused as it was read: its field stands under low.
    pub fn unread(refusal: Refusal, line: u32, field: u32) -> ReportLine
        ensures { fields_of result ≡ unread_line (number_of refusal) line field }
    {
        ReportLine {
            refusal: Some(refusal),
            low: Some(u64::from(field)),
            ..ReportLine::blank(line)
        }
    }

    // A line whose call was answered. No call of a sheet has a typed outcome; it would have the replica alone.
    pub fn answered<V: Copy>(
        line: u32,
        call: Call,
        answer: Result<Outcome<V>, Refusal>,
    ) -> ReportLine
        ensures { fields_of result ≡ answered_line line call (told answer) }
    {
        let named = ReportLine {
            number: named(call),
            ..ReportLine::blank(line)
        };
        match answer {
            Ok(Outcome::Accepted) => ReportLine {
                replica: stepped(call),
                ..named
            },
            Ok(Outcome::Begun { number }) => ReportLine {
                number: Some(number),
                ..named
            },
            Ok(Outcome::Found { row, replica }) => ReportLine {
                replica: Some(replica),
                high: Some(row.high),
                low: Some(row.low),
                ..named
            },
            Ok(Outcome::Value { replica, .. }) => ReportLine {
                replica: Some(replica),
                ..named
            },
            Err(refusal) => ReportLine {
                refusal: Some(refusal),
                ..named
            },
        }
    }

    // The fields behind the line's number, in their order.
    fn cells(&self) -> [Option<u64>; 5]
        ensures { result ≡ behind_the_line (fields_of self.now) }
    {
        [
            Some(u64::from(self.refusal.map_or(0, Refusal::number))),
            self.number.map(u64::from),
            self.replica.map(u64::from),
            self.high,
            self.low,
        ]
    }

    // Appends the line and a line feed to the text. Not by `Display`: the formatter took two thirds of a run's instructions.
    pub(crate) fn append_to(&self, text: &mut Vec<u8>) -> Result<(), AllocError>
        ensures { OnOk result (text.new.items ≡ text.old.items ++ (line_text (fields_of self.now) ++ (10 ∷ []))) }
    {
        append_cell(text, Some(u64::from(self.line)))?;
        // Lent, since a walk over an array by value moves each element twice.
        for cell in &self.cells() {
            text.push(b',')?;
            append_cell(text, *cell)?;
        }
        text.push(b'\n')?;
        Ok(())
    }
}
