ghost use Rattle.std.specs.Prelude.{◌≡◌, ◌^◌, ◌<◌, IfOk};
ghost use Rattle.kaqsherim.specs.Answers.{number_of};
ghost use Rattle.kaqsherim.specs.declared.unwritten.Unwritten.TheVariants.{NoMemory};

use std::alloc::AllocError;

// Why no report was written.
#[derive(Clone, Copy, Debug)]
pub enum Unwritten {
    BufferTooShort,
    NoMemory,
}

impl From<AllocError> for Unwritten {
    ghost from_gives = { λ _ why. why ≡ NoMemory };

    fn from(_error: AllocError) -> Unwritten {
        Unwritten::NoMemory
    }
}

// The number that a caller outside Rattle is answered: the report's length, or a refusal's, which is below zero.
// C is answered numbers alone, so it stays one, and that a length fits is promised and asked as a bound.
pub(crate) fn number(answer: Result<usize, Unwritten>) -> i64
    requires { IfOk answer (λ n. n < 2 ^ 63) }
    ensures { result ≡ number_of answer }
{
    match answer {
        Ok(length) => length as i64,
        Err(Unwritten::BufferTooShort) => -1,
        Err(Unwritten::NoMemory) => -2,
    }
}
