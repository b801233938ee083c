use mapdb::DbError;
use std::alloc::AllocError;
use thiserror::Error;

/// Why there is no audit.
#[derive(Clone, Copy, Debug, PartialEq, Eq, Error)]
pub enum AuditError {
    /// The database is halted.
    #[error("Halted")]
    Halted,
    /// Out of memory.
    #[error("NoMemory")]
    NoMemory,
}

impl From<AllocError> for AuditError {
    ghost use Rattle.std.specs.Prelude.{◌≡◌};
    ghost use Rattle.audit.specs.declared.error.AuditError.TheVariants.{NoMemory};

    ghost from_gives = { λ _ e. e ≡ NoMemory };

    fn from(_: AllocError) -> Self {
        AuditError::NoMemory
    }
}

impl From<DbError> for AuditError {
    ghost use Rattle.std.specs.Prelude.{◌≡◌, if◌then◌else◌};
    ghost use Rattle.audit.specs.Errors.{is_halted};
    ghost use Rattle.audit.specs.declared.error.AuditError.TheVariants.{Halted, NoMemory};

    ghost from_gives = { λ error e. e ≡ (if is_halted error then Halted else NoMemory) };

    fn from(error: DbError) -> Self {
        match error {
            DbError::Halted => AuditError::Halted,
            _ => AuditError::NoMemory,
        }
    }
}
