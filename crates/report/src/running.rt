ghost use Rattle.std.specs.Prelude.{◌≡◌, IfOk};
ghost use Rattle.report.specs.Reports.{heading, report};

use crate::answering::answers;
use crate::requesting::requests;
use crate::writing::write_lines;
use sheet::listing::entries;
use std::alloc::{AllocError, Global};

// A report that has its line of names alone.
fn headed(heap: Global) -> Result<Vec<u8>, AllocError>
    ensures { IfOk result (λ text. text.items ≡ heading) }
{
    Vec::from_slice(heap, b"line,refusal,number,replica,high,low\n")
}

// Runs the sheet on a new cluster over three replicas of zero rows; the text says what became of each line.
pub fn run_sheet(heap: Global, sheet: &[u8]) -> Result<Vec<u8>, AllocError>
    ensures { IfOk result (λ text. text.items ≡ report sheet.now) }
{
    let entries = entries(heap, sheet)?;
    let requests = requests(heap, entries.as_slice())?;
    let answers = answers(heap, requests.as_slice())?;
    let mut text = headed(heap)?;
    write_lines(&mut text, entries.as_slice(), answers.as_slice())?;
    Ok(text)
}
