//! Accesses to pages.

ghost use Rattle.std.specs.Prelude.{◌≡◌, Some};
ghost use Rattle.std.specs.Result.{OnOk};
ghost use Rattle.mapdb.specs.Held.{NotesTell};
ghost use Rattle.c_handle.specs.Asked.{access_asked, kind_of};
ghost use Rattle.c_handle.specs.Called.{IsCalled};
ghost use Rattle.c_handle.specs.Errors.{result_code};
ghost use Rattle.c_handle.specs.Replied.{made_told};

use crate::answer::done;
use crate::asked::AccessAsked;
use crate::error::CallError;
use crate::kept::Kept;
use crew::Alone;
use fpage::Access;
use mapdb::{Refusal, Reply};
use space::Place;
use std::alloc::Global;

/// The kind of access that a number names: 4 for read, 2 for write, 1 for execute.
fn kind_of(number: u32) -> Option<Access>
    ensures { result ≡ kind_of number }
{
    match number {
        4 => Some(Access::Read),
        2 => Some(Access::Write),
        1 => Some(Access::Execute),
        _ => None,
    }
}

/// Accesses the page of an address, and writes to `made` 1 if the access was made, and 0 if it is a fault.
///
/// Refused, the first that fits: a halted database; `BadRecord`, for the kind; `NoSuchSpace`; `OutOfSpace`; and where memory
/// is. Then `made` is as it was.
pub fn access(
    alloc: Global,
    kept: &mut Kept,
    asked: AccessAsked,
    made: &mut u32,
) -> Result<(), CallError>
    ensures called { IsCalled made_told (access_asked asked.space asked.address asked.kind kept.old.database.limits) kept.old.database made.old
        (record { code = result_code result; held = Some kept.new.database; lent = made.new }) }
    ensures told { OnOk result (NotesTell kept.old.database.holdings kept.new.database.holdings kept.old.scratch.notes kept.new.scratch.notes) }
{
    if kept.database.is_halted() {
        return Err(CallError::Halted);
    }
    let access = kind_of(asked.kind).ok_or(CallError::Refused(Refusal::BadRecord))?;
    let limits = kept.database.limits();
    if u32::from(asked.space) >= limits.spaces {
        return Err(CallError::Refused(Refusal::NoSuchSpace));
    }
    if u64::from(asked.address) >= 1 << limits.bits {
        return Err(CallError::Refused(Refusal::OutOfSpace));
    }
    let place = Place {
        space: asked.space,
        page: asked.address / 4096,
    };
    let reply = done(
        kept.database
            .answer_access(alloc, (place, access), &mut kept.scratch, &Alone),
    )?;
    if let Reply::Accessed(was_made) = reply {
        *made = u32::from(was_made);
    }
    Ok(())
}
