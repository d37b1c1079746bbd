ghost use Rattle.std.specs.Prelude.{◌≡◌, ◌^◌, ◌<◌, length, IfOk, Ok};
ghost use Rattle.report.specs.Reports.{report};
ghost use Rattle.kaqsherim.specs.Answers.{Answered, after, fitting};

use crate::unwritten::Unwritten;
use report::running::run_sheet;
use std::alloc::Global;

// How many bytes the report of the sheet has.
pub fn report_length(heap: Global, sheet: &[u8]) -> Result<usize, Unwritten>
    ensures answer { Answered (Ok (length (report sheet.now))) result }
    ensures small { IfOk result (λ n. n < 2 ^ 63) }
{
    Ok(run_sheet(heap, sheet)?.len())
}

// Runs the sheet and writes its report to the front of the buffer, or nothing where it does not fit; answers the report's length.
pub fn write_report(heap: Global, sheet: &[u8], buffer: &mut [u8]) -> Result<usize, Unwritten>
    ensures answer { Answered (fitting (report sheet.now) (length buffer.old)) result }
    ensures buffer { buffer.new ≡ after (report sheet.now) buffer.old result }
    ensures small { IfOk result (λ n. n < 2 ^ 63) }
{
    let text = run_sheet(heap, sheet)?;
    let length = text.len();
    // `get_mut(..length)` promises nothing of the buffer once its part is given back.
    if buffer.len() < length {
        return Err(Unwritten::BufferTooShort);
    }
    buffer[..length].copy_from_slice(text.as_slice());
    Ok(length)
}
