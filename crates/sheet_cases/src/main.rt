// Reads sheets from standard input, parted by the byte 30, and two long ones that it makes; prints what each line of each tells.
#![tactic(auto)]

use catalogue::row::Row;
use sequencing::call::Call;
use sequencing::mode::Mode;
use sheet::listing::entries;
use sheet::refusal::SheetRefusal;
use std::alloc::{AllocError, Global};
use std::fmt;
use std::fmt::Display;
use std::io::Read;

const SHEET_END: u8 = 30;

const NAMES: &[u8] = b"call,number,place,row,high,low,class\n";

// A mode as its letter.
#[derive(Clone, Copy)]
struct Letter(Mode);

// A call as a line of words.
#[derive(Clone, Copy)]
struct ShownCall(Call);

// A refusal with its number, line and field.
#[derive(Clone, Copy)]
struct ShownRefusal(SheetRefusal);

impl fmt::Display for Letter {
    fn fmt<W: fmt::Write>(&self, f: &mut fmt::Formatter<W>) -> fmt::Result {
        let letter = match self.0 {
            Mode::None => 'n',
            Mode::Read => 'r',
            Mode::Write => 'w',
        };
        write!(f, "{letter}")
    }
}

impl fmt::Display for ShownCall {
    fn fmt<W: fmt::Write>(&self, f: &mut fmt::Formatter<W>) -> fmt::Result {
        match self.0 {
            Call::Begin { modes } => {
                write!(f, "begin ")?;
                for mode in modes {
                    Letter(mode).fmt(f)?;
                }
                Ok(())
            }
            Call::Write {
                number,
                table,
                row,
                value: Row { high, low },
                class,
            } => write!(f, "write {number} {table} {row} {high} {low} {class}"),
            Call::Read { number, table, row } => write!(f, "read {number} {table} {row}"),
            Call::Release { number, table } => write!(f, "release {number} {table}"),
            Call::Commit { number } => write!(f, "commit {number}"),
            Call::Abort { number } => write!(f, "abort {number}"),
            Call::Step { number, replica } => write!(f, "step {number} {replica}"),
        }
    }
}

impl fmt::Display for ShownRefusal {
    fn fmt<W: fmt::Write>(&self, f: &mut fmt::Formatter<W>) -> fmt::Result {
        let number = self.0.refusal.number();
        let line = self.0.line;
        let field = self.0.field();
        write!(f, "refused {number} line {line} field {field}")
    }
}

fn print_sheet(rt: &HostRuntime, sheet: &[u8]) -> anyhow::Result<()> {
    let length = sheet.len();
    println!(rt; "sheet of {length} bytes")?;
    let entries = entries(rt.alloc(), sheet)?;
    for entry in entries.iter() {
        match *entry {
            Ok(call) => rt.println(ShownCall(call))?,
            Err(refusal) => rt.println(ShownRefusal(refusal))?,
        }
    }
    Ok(())
}

// The names, and then one line without a line feed, up to the length.
fn long_sheet(heap: Global, length: usize) -> Result<Vec<u8>, AllocError> {
    let mut sheet = Vec::from_slice(heap, NAMES)?;
    sheet.resize(length, b',')?;
    Ok(sheet)
}

fn run(rt: &HostRuntime) -> anyhow::Result<()> {
    let mut input = Vec::new(rt.alloc());
    rt.stdin().read_to_end(&mut input)?;
    for sheet in input.split(|byte| *byte == SHEET_END) {
        print_sheet(rt, sheet)?;
    }
    print_sheet(rt, long_sheet(rt.alloc(), 65_536)?.as_slice())?;
    print_sheet(rt, long_sheet(rt.alloc(), 65_537)?.as_slice())
}

fn main(rt: HostRuntime) -> anyhow::Result<()> {
    run(&rt)
}
