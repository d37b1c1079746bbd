// What the static library kaqsherim_c exports to C under these names: numbers and bytes alone. They stand here and there, since a crate is a library or a static library.
ghost use Rattle.std.specs.Prelude.{◌≡◌};
ghost use Rattle.kaqsherim.specs.Answers.{Measured, Ran, library_version};

use crate::unwritten::number;
use crate::writing::{report_length, write_report};
use std::alloc::Global;

const VERSION: u32 = 1;

pub fn kaqsherim_version() -> u32
    ensures { result ≡ library_version }
{
    VERSION
}

pub fn kaqsherim_report_length(heap: Global, sheet: &[u8]) -> i64
    ensures { Measured sheet.now result }
{
    number(report_length(heap, sheet))
}

pub fn kaqsherim_run_sheet(heap: Global, sheet: &[u8], buffer: &mut [u8]) -> i64
    ensures { Ran sheet.now buffer.old result buffer.new }
{
    number(write_report(heap, sheet, buffer))
}
