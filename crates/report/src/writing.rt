ghost use Rattle.std.specs.Prelude.{◌≡◌, ◌++◌, map, length, OnOk};
ghost use Rattle.catalogue.specs.Refusals.{told};
ghost use Rattle.line.specs.Refusals.{told as told_line};
ghost use Rattle.report.specs.Writing.{requests_in, written_from};

use crate::report_line::ReportLine;
use catalogue::kind::counter::Counter;
use catalogue::refusal::Refusal;
use sequencing::call::Call;
use sheet::refusal::SheetRefusal;
use std::alloc::AllocError;
use versioning::request::Outcome;

// Writes a line of the report for each line of the sheet; there is an answer for each call.
pub(crate) fn write_lines(
    out: &mut Vec<u8>,
    entries: &[Result<Call, SheetRefusal>],
    answers: &[Result<Outcome<Counter>, Refusal>],
) -> Result<(), AllocError>
    requires { length answers.now ≡ length (requests_in (map told_line entries.now)) }
    ensures { OnOk result (out.new.items ≡ out.old.items ++ written_from 2 (map told_line entries.now) (map told answers.now)) }
{
    let mut answers = answers.iter();
    // By hand, since the count stops at 2^32 - 1, as the reader's does: `(2..).zip(entries)` would run past it.
    let mut line = 2u32;
    for reading in entries {
        let next = match *reading {
            Ok(call) => ReportLine::answered(line, call, *answers.next().unwrap()),
            Err(refused) => ReportLine::unread(refused.refusal, refused.line, refused.field()),
        };
        next.append_to(out)?;
        line = line.saturating_add(1);
    }
    Ok(())
}
