//! The audit of a database, as lines and as text.

ghost use Rattle.std.specs.Prelude.{◌≡◌, ◌↔◌, ◌⊎◌, true, map, IfOk, IfErr, IsErrOf};
ghost use Rattle.model.specs.Definitions.Lawful.{is_lawful};
ghost use Rattle.model.specs.Definitions.Text.{audit_lines};
ghost use Rattle.mapdb.specs.Held.{mapped_of};
ghost use Rattle.audit.specs.declared.error.AuditError.TheVariants.{Halted, NoMemory};

use crate::checker::check;
use crate::error::AuditError;
use crate::line::Line;
use crate::parts::Report;
use mapdb::Database;
use std::alloc::Global;
use std::thread::Threads;

/// Returns every mapping of a database, by rising place.
///
/// The errors are `Halted`, if the database is halted, and `NoMemory`, if memory runs out.
pub fn lines(alloc: Global, database: &Database) -> Result<Vec<Line>, AuditError>
    ensures halted { IsErrOf result Halted ↔ (database.now.is_halted ≡ true) }
    ensures errors { IfErr result (λ e. (e ≡ Halted) ⊎ (e ≡ NoMemory)) }
    ensures lines { IfOk result (λ lines. map mapped_of lines.items ≡ database.now.holdings) }
    ensures lawful { IfOk result (λ lines. is_lawful (map mapped_of lines.items) ≡ true) }
{
    // Its contract says that what is held is lawful.
    let _ = database.limits();
    let lines = database.mappings(alloc)?;
    Ok(lines)
}

/// Returns whether the lines of a database pass `check`. They always do, as the contract says: what a database holds is
/// lawful.
///
/// The errors are those of `lines`.
pub fn check_database(alloc: Global, database: &Database) -> Result<bool, AuditError>
    ensures halted { IsErrOf result Halted ↔ (database.now.is_halted ≡ true) }
    ensures errors { IfErr result (λ e. (e ≡ Halted) ⊎ (e ≡ NoMemory)) }
    ensures passes { IfOk result (λ passes. passes ≡ true) }
{
    let lines = lines(alloc, database)?;
    Ok(check(&lines))
}

/// Returns the text of every mapping of a database, by rising place, a line for each.
///
/// The errors are `Halted`, if the database is halted, and `NoMemory`, if memory runs out.
pub fn report(
    rt: &(impl AllocGlobal + Threads + Sync),
    database: &Database,
) -> Result<Vec<u8>, AuditError>
    ensures halted { IsErrOf result Halted ↔ (database.now.is_halted ≡ true) }
    ensures errors { IfErr result (λ e. (e ≡ Halted) ⊎ (e ≡ NoMemory)) }
    ensures text { IfOk result (λ text. text.items ≡ audit_lines database.now.holdings) }
{
    let alloc = rt.alloc();
    let mut report = Report::new(alloc, database)?;
    let mut text = Vec::new(alloc);
    while report.next(rt) {
        text.extend_from_slice(report.part())?;
    }
    Ok(text)
}
