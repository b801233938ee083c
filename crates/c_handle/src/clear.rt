//! Spaces that are deleted.

ghost use Rattle.std.specs.Prelude.{◌≡◌, Some};
ghost use Rattle.std.specs.Result.{OnOk};
ghost use Rattle.mapdb.specs.Held.{NotesTell};
ghost use Rattle.c_handle.specs.Asked.{clear_asked};
ghost use Rattle.c_handle.specs.Called.{IsCalled};
ghost use Rattle.c_handle.specs.Errors.{result_code};
ghost use Rattle.c_handle.specs.Replied.{status_told};

use crate::answer::done;
use crate::error::CallError;
use crate::kept::Kept;
use crew::Alone;
use mapdb::Reply;
use std::alloc::Global;

/// Takes all pages from a space, and all that derives from them, and writes their status to `status`.
///
/// Refused as `Database::clear` is. Then `status` is as it was.
pub fn clear_space(
    alloc: Global,
    kept: &mut Kept,
    space: u16,
    status: &mut u32,
) -> Result<(), CallError>
    ensures called { IsCalled status_told (clear_asked space kept.old.database.limits) kept.old.database status.old
        (record { code = result_code result; held = Some kept.new.database; lent = status.new }) }
    ensures told { OnOk result (NotesTell kept.old.database.holdings kept.new.database.holdings kept.old.scratch.notes kept.new.scratch.notes) }
{
    let reply = done(
        kept.database
            .answer_clear(alloc, space, &mut kept.scratch, &Alone, false),
    )?;
    if let Reply::Cleared(cleared) = reply {
        *status = cleared.number();
    }
    Ok(())
}
