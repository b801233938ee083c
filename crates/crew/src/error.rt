use space::NoMemory;
use std::alloc::AllocError;
use thiserror::Error;

/// Why the pieces of a phase were not worked.
#[derive(Clone, Copy, Debug, PartialEq, Eq, Error)]
pub enum CrewError {
    /// Memory was refused.
    #[error("NoMemory")]
    NoMemory,
    /// A thread could not be started.
    #[error("NoWorker")]
    NoWorker,
}

impl From<AllocError> for CrewError {
    ghost use Rattle.std.specs.Prelude.{◌≡◌};
    ghost use Rattle.crew.specs.declared.error.CrewError.TheVariants.{NoMemory};

    ghost from_gives = { λ _ e. e ≡ NoMemory };

    fn from(_: AllocError) -> Self {
        CrewError::NoMemory
    }
}

impl From<NoMemory> for CrewError {
    ghost use Rattle.std.specs.Prelude.{◌≡◌};
    ghost use Rattle.crew.specs.declared.error.CrewError.TheVariants.{NoMemory};

    ghost from_gives = { λ _ e. e ≡ NoMemory };

    fn from(_: NoMemory) -> Self {
        CrewError::NoMemory
    }
}
