//! What a record is read as.

use fpage::FpageError;
use mapdb::Refusal;
use std::alloc::{AllocError, AllocFailed};

/// Why a record gives no call.
#[derive(Clone, Copy, Debug)]
pub enum CallError {
    /// The record is refused.
    Refused(Refusal),
    /// Out of memory.
    NoMemory,
}

impl From<Refusal> for CallError {
    ghost use Rattle.std.specs.Prelude.{◌≡◌};
    ghost use Rattle.trace.specs.declared.call.CallError.TheVariants.{Refused};

    ghost from_gives = { λ refusal e. e ≡ Refused refusal };

    fn from(refusal: Refusal) -> Self {
        CallError::Refused(refusal)
    }
}

impl From<FpageError> for CallError {
    ghost use Rattle.trace.specs.Parts.{Refuses};

    ghost from_gives = { Refuses };

    fn from(error: FpageError) -> Self {
        CallError::Refused(Refusal::from(error))
    }
}

impl From<AllocError> for CallError {
    ghost use Rattle.std.specs.Prelude.{◌≡◌};
    ghost use Rattle.trace.specs.declared.call.CallError.TheVariants.{NoMemory};

    ghost from_gives = { λ _ e. e ≡ NoMemory };

    fn from(_: AllocError) -> Self {
        CallError::NoMemory
    }
}

impl<T: Drop> From<AllocFailed<T>> for CallError {
    ghost use Rattle.std.specs.Prelude.{◌≡◌};
    ghost use Rattle.trace.specs.declared.call.CallError.TheVariants.{NoMemory};

    ghost from_gives = { λ _ e. e ≡ NoMemory };

    fn from(_: AllocFailed<T>) -> Self {
        CallError::NoMemory
    }
}
