use crew::CrewError;
use space::NoMemory;
use std::alloc::AllocError;
use thiserror::Error;

/// Why a call of the database was refused.
#[derive(Clone, Copy, Debug, PartialEq, Eq, Error)]
pub enum DbError {
    /// The limits are not served.
    #[error("BadLimits")]
    BadLimits,
    /// A space is named that there is not.
    #[error("NoSuchSpace")]
    NoSuchSpace,
    /// Sender and receiver are one space.
    #[error("SameSpace")]
    SameSpace,
    /// The receiver's window is nil.
    #[error("NoWindow")]
    NoWindow,
    /// The call ran out of memory. A call that changes a database leaves it halted.
    #[error("NoMemory")]
    NoMemory,
    /// A thread could not be started. The database is left halted.
    #[error("NoWorker")]
    NoWorker,
    /// The database was halted by a call before.
    #[error("Halted")]
    Halted,
}

impl From<NoMemory> for DbError {
    ghost use Rattle.std.specs.Prelude.{◌≡◌};
    ghost use Rattle.mapdb.specs.declared.error.DbError.TheVariants.{NoMemory};

    ghost from_gives = { λ _ e. e ≡ NoMemory };

    fn from(_: NoMemory) -> Self {
        DbError::NoMemory
    }
}

impl From<AllocError> for DbError {
    ghost use Rattle.std.specs.Prelude.{◌≡◌};
    ghost use Rattle.mapdb.specs.declared.error.DbError.TheVariants.{NoMemory};

    ghost from_gives = { λ _ e. e ≡ NoMemory };

    fn from(_: AllocError) -> Self {
        DbError::NoMemory
    }
}

impl From<CrewError> for DbError {
    ghost use Rattle.mapdb.specs.Error.{IsOfCrew};

    ghost from_gives = { IsOfCrew };

    fn from(error: CrewError) -> Self {
        match error {
            CrewError::NoMemory => DbError::NoMemory,
            CrewError::NoWorker => DbError::NoWorker,
        }
    }
}
