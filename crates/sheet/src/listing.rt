ghost use Rattle.std.specs.Prelude.{◌≡◌, map, IfOk};
ghost use Rattle.line.specs.Refusals.{told};
ghost use Rattle.sheet.specs.Sheets.{sheet_entries};

use crate::reader::Reader;
use line::refusal::SheetRefusal;
use sequencing::call::Call;
use std::alloc::{AllocError, Global};

// Every line's call or refusal, in order; of a sheet that is refused as a whole, that refusal alone.
pub fn entries(heap: Global, sheet: &[u8]) -> Result<Vec<Result<Call, SheetRefusal>>, AllocError>
    ensures { IfOk result (λ v. map told v.items ≡ sheet_entries sheet.now) }
{
    let mut entries = Vec::new(heap);
    match Reader::new(sheet) {
        Ok(mut reader) => {
            while let Some(entry) = reader.next_entry() {
                entries.push(entry)?;
            }
        }
        Err(refusal) => entries.push(Err(refusal))?,
    }
    Ok(entries)
}
