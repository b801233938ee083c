//! Why a call was not done.

ghost use Rattle.std.specs.Prelude.{◌≡◌};
ghost use Rattle.c_handle.specs.Errors.{result_code};

use crate::code::{DONE, HALTED, refusal_code};
use fpage::FpageError;
use mapdb::Refusal;

/// Why a call was not done.
#[derive(Clone, Copy, Debug, PartialEq, Eq)]
pub enum CallError {
    /// It is refused for what it asks.
    Refused(Refusal),
    /// The database was halted before, or the call ran out of memory in the middle.
    Halted,
}

impl From<FpageError> for CallError {
    ghost use Rattle.c_handle.specs.Errors.{HasCodeOf};

    ghost from_gives = { HasCodeOf };

    fn from(error: FpageError) -> Self {
        CallError::Refused(Refusal::from(error))
    }
}

/// The code of a call: `DONE`, or that of its error.
pub fn result_code(outcome: Result<(), CallError>) -> u32
    ensures { result ≡ result_code outcome }
{
    match outcome {
        Ok(()) => DONE,
        Err(CallError::Refused(refusal)) => refusal_code(refusal),
        Err(CallError::Halted) => HALTED,
    }
}
