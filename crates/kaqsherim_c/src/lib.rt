// The library for C: each export is the function of that name of `kaqsherim`, again, since a crate is a library or a static library. A `Global` has no bytes, so that C passes nothing for it; a slice is a pointer and a length.
#![tactic(auto)]

ghost use Rattle.std.specs.Prelude.{◌≡◌};
ghost use Rattle.kaqsherim.specs.Answers.{Measured, Ran, library_version};

use kaqsherim::exports;
use std::alloc::Global;

#[unsafe(no_mangle)]
pub extern "C" fn kaqsherim_version() -> u32
    ensures { result ≡ library_version }
{
    exports::kaqsherim_version()
}

#[unsafe(no_mangle)]
pub extern "C" fn kaqsherim_report_length(heap: Global, sheet: &[u8]) -> i64
    ensures { Measured sheet.now result }
{
    exports::kaqsherim_report_length(heap, sheet)
}

#[unsafe(no_mangle)]
pub extern "C" fn kaqsherim_run_sheet(heap: Global, sheet: &[u8], buffer: &mut [u8]) -> i64
    ensures { Ran sheet.now buffer.old result buffer.new }
{
    exports::kaqsherim_run_sheet(heap, sheet, buffer)
}

// The contracts leave open that memory is always wanting: here it is not.
#[cfg(test)]
mod tests {
    use super::*;
    use std::test::Fail;

    #[test]
    fn a_sheet_is_measured_and_run(rt: HostRuntime) -> Result<(), Fail> {
        let sheet = b"call,number,place,row,high,low,class\nbegin,,nnwnnnnn,,,,\n";
        let report = b"line,refusal,number,replica,high,low\n2,0,0,,,\n";
        let mut buffer = [0; 46];
        assert_eq!(rt; kaqsherim_version(), 1);
        assert_eq!(rt; kaqsherim_report_length(rt.alloc(), sheet), 46);
        assert_eq!(rt; kaqsherim_run_sheet(rt.alloc(), sheet, &mut buffer), 46);
        assert!(rt; buffer[..] == report[..]);
        Ok(())
    }
}
