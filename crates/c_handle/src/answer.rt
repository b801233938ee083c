//! What comes of a call of the database.

ghost use Rattle.std.specs.Prelude.{◌≡◌};
ghost use Rattle.c_handle.specs.Done.{done_as};

use crate::error::CallError;
use mapdb::{DbError, Reply};

/// The reply to a call that was done; why it was not, where it was refused or halted the database.
pub fn done(answered: Result<Reply, DbError>) -> Result<Reply, CallError>
    ensures { result ≡ done_as answered }
{
    match answered {
        Ok(Reply::Refused(refusal)) => Err(CallError::Refused(refusal)),
        Ok(reply) => Ok(reply),
        Err(_) => Err(CallError::Halted),
    }
}
