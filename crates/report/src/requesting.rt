ghost use Rattle.std.specs.Prelude.{◌≡◌, map, IfOk};
ghost use Rattle.line.specs.Refusals.{told};
ghost use Rattle.report.specs.Writing.{requests_in};

use catalogue::kind::counter::Counter;
use sequencing::call::Call;
use sheet::refusal::SheetRefusal;
use std::alloc::{AllocError, Global};
use versioning::request::Request;

// The requests that the lines of a sheet make.
pub(crate) fn requests(
    heap: Global,
    entries: &[Result<Call, SheetRefusal>],
) -> Result<Vec<Request<Counter, ()>>, AllocError>
    ensures { IfOk result (λ v. v.items ≡ requests_in (map told entries.now)) }
{
    // Not by `collect`, which asks a second time for memory that it was refused, so that a want of memory would not always be told.
    let mut requests = Vec::new(heap);
    for reading in entries {
        if let Ok(call) = *reading {
            requests.push(Request::Call(call))?;
        }
    }
    Ok(requests)
}
