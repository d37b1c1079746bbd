ghost use Rattle.std.specs.Prelude.{◌≡◌, ◌<◌, ◌≤◌, true, false, ◌∷◌, length, drop, Some, None};
ghost use Rattle.std.specs.Option.{option_map};
ghost use Rattle.line.specs.Refusals.{told};
ghost use Rattle.sheet.specs.Sheets.{KeptIfRefused, Line, lines, first_reply, standing, told_next, next_reply, next_after, skip_after, entry_reply, open_reply, told_reader};

use crate::rewind::Rewind;
use catalogue::refusal::Refusal;
use field::pieces::split_at_mark;
use line::fields::Fields;
use line::refusal::SheetRefusal;
use sequencing::call::Call;

const MOST_BYTES: usize = 65_536;

const NAMES: &[u8] = b"call,number,place,row,high,low,class";

// Reads a lent sheet line by line: where the next line begins, and its number, counted from 1. A place, and not the text that is left, since a
// guard puts the place back.
#[derive(Drop)]
pub struct Reader<'a> {
    sheet: &'a [u8],
    at: usize,
    line: u32,
}

// The text of the line at the cursor, which goes past it; nothing where no line feed ends the line, and the cursor goes to the end.
fn take_line<'a>(sheet: &'a [u8], cursor: &mut usize) -> Option<&'a [u8]>
    requires { cursor.old < length sheet.now }
    ensures line { lines (drop cursor.old sheet.now) ≡ elim result [ Some p ↦ record { text = p.now; ended = true } | None ↦ record { text = drop cursor.old sheet.now; ended = false } ] ∷ lines (drop cursor.new sheet.now) }
    ensures further { cursor.old < cursor.new }
    ensures within { cursor.new ≤ length sheet.now }
{
    let from = *cursor;
    match split_at_mark(b'\n', &sheet[from..]) {
        Some((text, _)) => {
            *cursor = from + text.len() + 1;
            Some(text)
        }
        None => {
            *cursor = sheet.len();
            None
        }
    }
}

// The call of the line at the cursor, which goes past the line.
fn read_line(sheet: &[u8], cursor: &mut usize, line: u32) -> Result<Call, SheetRefusal>
    requires { cursor.old < length sheet.now }
    ensures answer { told result ≡ first_reply line (lines (drop cursor.old sheet.now)) }
    ensures left { (l : Line) × (lines (drop cursor.old sheet.now) ≡ l ∷ lines (drop cursor.new sheet.now)) }
{
    let text = take_line(sheet, cursor).ok_or(SheetRefusal::of_line(Refusal::BadLine, line))?;
    Fields::cut(line, text)?.read_call()
}

impl<'a> Reader<'a> {
    // A reader of the sheet, which stands behind the line of names.
    pub fn new(sheet: &'a [u8]) -> Result<Reader<'a>, SheetRefusal>
        ensures { told_reader result ≡ open_reply sheet.now }
    {
        if sheet.len() > MOST_BYTES {
            return Err(SheetRefusal::of_line(Refusal::SheetTooLong, 1));
        }
        match split_at_mark(b'\n', sheet) {
            Some((names, _)) if names == NAMES => Ok(Reader {
                sheet,
                at: names.len() + 1,
                line: 2,
            }),
            _ => Err(SheetRefusal::of_line(Refusal::BadNames, 1)),
        }
    }

    // The next line's call, and nothing at the end of the sheet; a refused line is still the next one.
    pub fn next_line(&mut self) -> Result<Option<Call>, SheetRefusal>
        ensures answer { told_next result ≡ next_reply (standing self.old) }
        ensures after { standing self.new ≡ next_after (standing self.old) }
        ensures kept { KeptIfRefused result self.old self.new }
    {
        let sheet = self.sheet;
        let line = self.line;
        if self.at >= sheet.len() {
            return Ok(None);
        }
        let guard = Rewind::new(&mut self.at);
        let call = read_line(sheet, guard.cursor, line)?;
        guard.accept();
        self.line = line.saturating_add(1);
        Ok(Some(call))
    }

    // Passes over the next line.
    pub fn skip(&mut self)
        ensures { standing self.new ≡ skip_after (standing self.old) }
    {
        let sheet = self.sheet;
        if self.at < sheet.len() {
            let _ = take_line(sheet, &mut self.at);
            self.line = self.line.saturating_add(1);
        }
    }

    // The next line's call or refusal, and past the line; nothing at the end of the sheet.
    pub fn next_entry(&mut self) -> Option<Result<Call, SheetRefusal>>
        ensures answer { option_map told result ≡ entry_reply (standing self.old) }
        ensures after { standing self.new ≡ skip_after (standing self.old) }
    {
        match self.next_line() {
            Ok(call) => call.map(Ok),
            Err(refusal) => {
                self.skip();
                Some(Err(refusal))
            }
        }
    }
}
