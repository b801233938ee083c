//! Records, answered.

ghost use Rattle.std.specs.Prelude.{◌≡◌, ◌<◌, ◌≤◌, ◌+◌, ◌-◌, ◌∷◌, ◌++◌, [], true, false, Ok, Some, map, take, length, IfOk, IfSome, MatchOption, OnOk, IsErrOf};
ghost use Rattle.std.specs.List.{All};
ghost use Rattle.model.specs.Definitions.Records.{Version, are_limits};
ghost use Rattle.crew.specs.declared.error.CrewError.TheVariants.{NoWorker};
ghost use Rattle.mapdb.specs.declared.error.DbError.TheVariants.{NoWorker as DbNoWorker};
ghost use Rattle.mapdb.specs.Held.{access_answers, touched_all, limits_of, IsWithin};
ghost use Rattle.mapdb.specs.Answered.{IsAnswered};
ghost use Rattle.mapdb.specs.State.{laid_out, left_with};
ghost use Rattle.trace.specs.Meaning.{call_of, IsWithinLimits};
ghost use Rattle.trace.specs.Unread.{past, first_request, access_in};
ghost use Rattle.replay.specs.Steps.{AreAsked, replies_of, told_of};

use crate::buffers::Buffers;
use crew::{CrewError, Workers};
use fpage::Access;
use mapdb::{Database, DbError, Limits, Reply, Scratch};
use space::{NoMemory, Place};
use std::alloc::Global;
use trace::{Call, TraceReader};

/// How many accesses in a row are one call of the database at most. The lists of a longer call would take more memory and no
/// less time.
const MOST_ACCESSES: usize = 65_536;

/// The replies to the records of one call of the database.
#[derive(Debug, Drop)]
pub enum Replies {
    /// The reply to one record.
    One(Reply),
    /// The replies to accesses in a row: of each whether it was made; otherwise it was a fault.
    Accesses(Vec<bool>),
}

/// Takes the next record, answers it, and leaves what it changed; an unmap and a clear by recursion if `plain`. Where it
/// is an access, the accesses right behind it are taken and answered too, up to 65,536 in all: they are one call of the
/// database.
///
/// Not answered where memory or a worker is refused: `NoMemory`, `NoWorker`.
pub fn answer_first<W: Workers>(
    alloc: Global,
    database: &mut Database,
    trace: &mut TraceReader,
    workers: &W,
    plain: bool,
    buffers: &mut Buffers,
) -> Result<Replies, CrewError>
    requires running { database.old.is_halted ≡ false }
    requires records { 0 < length trace.old.records }
    ensures some { IfOk result (λ replies. 0 < length (replies_of replies)) }
    ensures within { IfOk result (λ replies. length (replies_of replies) ≤ length trace.old.records) }
    ensures taken { IfOk result (λ replies. trace.new ≡ past (length (replies_of replies)) trace.old) }
    ensures told { IfOk result (λ replies.
        told_of trace.old.version database.old.limits (take (length (replies_of replies)) trace.old.records) database.old.holdings
        ≡ record { replies = replies_of replies; last = database.new.holdings }) }
    ensures keeps { OnOk result (
        database.new ≡ laid_out (left_with database.old database.new.holdings) database.new.layout) }
    ensures needs_no_worker { W.starts_none workers.now → IsErrOf result NoWorker → ⊥ }
{
    let limits = database.limits();
    let asked = trace.next_call(&limits)?;
    match asked {
        Err(refusal) => Ok(Replies::One(Reply::Refused(refusal))),
        Ok(Call::Access { place, access }) => {
            let accesses = &mut buffers.accesses;
            read_accesses(&limits, (place, access), trace, accesses)?;
            let answers = access_pages(alloc, database, workers, accesses)?;
            Ok(Replies::Accesses(answers))
        }
        Ok(call) => {
            let scratch = &mut buffers.scratch;
            match database.answer(alloc, &call, scratch, workers, plain) {
                Ok(reply) => {
                    trace.reuse(call);
                    Ok(Replies::One(reply))
                }
                Err(error) => Err(unanswered(error)),
            }
        }
    }
}

/// Takes the accesses that come next, and puts them, behind the first, in place of those that were there.
fn read_accesses(
    limits: &Limits,
    first: (Place, Access),
    trace: &mut TraceReader,
    accesses: &mut Vec<(Place, Access)>,
) -> Result<(), NoMemory>
    requires limits { are_limits (limits_of limits.now) ≡ true }
    requires first { IsWithin (limits_of limits.now) first.0 }
    ensures within { OnOk result (All (λ access. IsWithin (limits_of limits.now) access.0) accesses.new.items) }
    ensures asked { OnOk result (AreAsked trace.old.version (limits_of limits.now) first trace.old.records accesses.new.items) }
    ensures taken { OnOk result (trace.new ≡ past (length accesses.new.items - 1) trace.old) }
{
    accesses.clear();
    put_access(accesses, first)?;
    while let Some(access) = next_of_call(limits, trace, accesses.len())? {
        put_access(accesses, access)?;
    }
    Ok(())
}

/// Takes the next record if it asks for an access, and the call that has so many of them may have one more.
fn next_of_call(
    limits: &Limits,
    trace: &mut TraceReader,
    taken: usize,
) -> Result<Option<(Place, Access)>, NoMemory>
    requires limits { are_limits (limits_of limits.now) ≡ true }
    ensures access { IfOk result (λ access. IfSome access (λ a.
        Some a ≡ access_in (first_request trace.old.version (limits_of limits.now) trace.old.records))) }
    ensures within { IfOk result (λ access. IfSome access (λ a. IsWithin (limits_of limits.now) a.0)) }
    ensures taken { IfOk result (λ access. MatchOption access (trace.new ≡ trace.old) (λ _. trace.new ≡ past 1 trace.old)) }
{
    if taken >= MOST_ACCESSES {
        return Ok(None);
    }
    trace.next_access(limits)
}

/// Puts an access behind the others.
fn put_access(accesses: &mut Vec<(Place, Access)>, access: (Place, Access)) -> Result<(), NoMemory>
    ensures { OnOk result (accesses.new.items ≡ accesses.old.items ++ access ∷ []) }
{
    match accesses.push(access) {
        Ok(()) => Ok(()),
        Err(_) => Err(NoMemory),
    }
}

/// Accesses of pages, one after another; of each whether it was made.
fn access_pages<W: Workers>(
    alloc: Global,
    database: &mut Database,
    workers: &W,
    accesses: &[(Place, Access)],
) -> Result<Vec<bool>, CrewError>
    requires within { All (λ access. IsWithin database.old.limits access.0) accesses.now }
    ensures ok { IfOk result (λ answers. answers.items ≡ access_answers database.old.holdings accesses.now) }
    ensures left { OnOk result (database.new ≡ left_with database.old (touched_all database.old.holdings accesses.now)) }
    ensures needs_no_worker { W.starts_none workers.now → IsErrOf result NoWorker → ⊥ }
{
    match database.access_all(alloc, accesses, workers) {
        Ok(answers) => Ok(answers),
        Err(error) => Err(unanswered(error)),
    }
}

/// Why a call has no answer that was not refused for what it asks.
fn unanswered(error: DbError) -> CrewError
    ensures { result ≡ NoWorker → error ≡ DbNoWorker }
{
    match error {
        DbError::NoWorker => CrewError::NoWorker,
        _ => CrewError::NoMemory,
    }
}
