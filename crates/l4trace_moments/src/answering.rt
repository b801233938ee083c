//! Records, answered one by one on the calling thread.

ghost use Rattle.std.specs.Prelude.{◌≡◌, ◌<◌, ◌≤◌, drop, length, map, option_map, take, true, false, Some, IfOk, IfSome, OnOk};
ghost use Rattle.model.specs.Definitions.Answers.{answer};
ghost use Rattle.model.specs.Definitions.Records.{are_limits, request};
ghost use Rattle.mapdb.specs.Held.{limits_of};
ghost use Rattle.mapdb.specs.State.{laid_out, left_with, new_state};
ghost use Rattle.trace.specs.Meaning.{IsWithinLimits, reply_of, request_of};
ghost use Rattle.l4trace_moments.specs.Moment.{first_reply, left_by};

use crate::error::ShowError;
use crew::Alone;
use mapdb::{Database, DbError, Limits, Refusal, Reply, Scratch};
use replay::Watch;
use std::alloc::Global;
use trace::{Call, TraceReader};

/// A database at the start.
pub fn start(alloc: Global, limits: &Limits) -> Result<Database, ShowError>
    ensures served { OnOk result (are_limits (limits_of limits.now) ≡ true) }
    ensures new { IfOk result (λ database.
        database ≡ laid_out (new_state (limits_of limits.now)) database.layout) }
{
    match Database::new(alloc, limits.spaces, limits.bits, limits.frames) {
        Ok(database) => Ok(database),
        Err(DbError::BadLimits) => Err(ShowError::BadLimits),
        Err(_) => Err(ShowError::NoMemory),
    }
}

/// Answers the records that come next, at most so many. The watch hears of each.
pub fn answer_records<V: Watch>(
    alloc: Global,
    database: &mut Database,
    reader: &mut TraceReader,
    most: u64,
    watch: &mut V,
) -> Result<(), ShowError>
    requires running { database.old.is_halted ≡ false }
    ensures taken { OnOk result (reader.new.records ≡ drop most reader.old.records) }
    ensures version { OnOk result (reader.new.version ≡ reader.old.version) }
    ensures left { OnOk result (database.new ≡ laid_out (left_with database.old
        (left_by reader.old.version database.old.limits (take most reader.old.records) database.old.holdings)) database.new.layout) }
{
    let limits = database.limits();
    for i in 0..most {
        if reader.is_at_end() {
            return Ok(());
        }
        watch.hear(reader.number());
        answer_next(alloc, database, reader, &limits)?;
    }
    Ok(())
}

/// Answers the record that comes next, if there is one and one is asked for, and returns the reply.
pub fn answer_last(
    alloc: Global,
    database: &mut Database,
    reader: &mut TraceReader,
    most: u64,
) -> Result<Option<Reply>, ShowError>
    requires running { database.old.is_halted ≡ false }
    requires one { most ≤ 1 }
    ensures reply { IfOk result (λ reply. option_map reply_of reply
        ≡ first_reply database.old.limits (map (request reader.old.version database.old.limits) (take most reader.old.records)) database.old.holdings) }
    ensures left { OnOk result (database.new ≡ laid_out (left_with database.old
        (left_by reader.old.version database.old.limits (take most reader.old.records) database.old.holdings)) database.new.layout) }
{
    if most == 0 {
        return Ok(None);
    }
    if reader.is_at_end() {
        return Ok(None);
    }
    let limits = database.limits();
    let reply = answer_next(alloc, database, reader, &limits)?;
    Ok(Some(reply))
}

/// Takes the record that comes next, and returns the call that it means, or why it is refused; none at the end.
pub fn next_call(
    database: &Database,
    reader: &mut TraceReader,
) -> Result<Option<Result<Call, Refusal>>, ShowError>
    requires running { database.now.is_halted ≡ false }
    ensures within { IfOk result (λ next. IfSome next (λ asked.
        IfOk asked (IsWithinLimits database.now.limits))) }
{
    if reader.is_at_end() {
        return Ok(None);
    }
    match reader.next_call(&database.limits()) {
        Ok(asked) => Ok(Some(asked)),
        Err(_) => Err(ShowError::NoMemory),
    }
}

/// Answers the record that comes next, and returns the reply.
fn answer_next(
    alloc: Global,
    database: &mut Database,
    reader: &mut TraceReader,
    limits: &Limits,
) -> Result<Reply, ShowError>
    requires running { database.old.is_halted ≡ false }
    requires limits { limits_of limits.now ≡ database.old.limits }
    requires served { are_limits (limits_of limits.now) ≡ true }
    requires some { 0 < length reader.old.records }
    ensures taken { OnOk result (reader.new.records ≡ drop 1 reader.old.records) }
    ensures version { OnOk result (reader.new.version ≡ reader.old.version) }
    ensures reply { IfOk result (λ reply. Some (reply_of reply)
        ≡ first_reply database.old.limits (map (request reader.old.version database.old.limits) (take 1 reader.old.records)) database.old.holdings) }
    ensures left { OnOk result (database.new ≡ laid_out (left_with database.old
        (left_by reader.old.version database.old.limits (take 1 reader.old.records) database.old.holdings)) database.new.layout) }
{
    let Ok(asked) = reader.next_call(limits) else {
        return Err(ShowError::NoMemory);
    };
    let reply = answer_record(alloc, database, &asked)?;
    if let Ok(call) = asked {
        reader.reuse(call);
    }
    Ok(reply)
}

/// Answers a record that was read, and returns the reply.
pub fn answer_record(
    alloc: Global,
    database: &mut Database,
    asked: &Result<Call, Refusal>,
) -> Result<Reply, ShowError>
    requires running { database.old.is_halted ≡ false }
    requires within { IfOk asked.now (IsWithinLimits database.old.limits) }
    ensures reply { IfOk result (λ reply. reply_of reply
        ≡ (answer database.old.limits database.old.holdings (request_of asked.now)).reply) }
    ensures left { OnOk result (database.new ≡ laid_out (left_with database.old
        (answer database.old.limits database.old.holdings (request_of asked.now)).left) database.new.layout) }
{
    match asked {
        Err(refusal) => Ok(Reply::Refused(*refusal)),
        Ok(call) => match database.answer(alloc, call, &mut Scratch::new(alloc), &Alone, false) {
            Ok(reply) => Ok(reply),
            Err(error) => Err(unanswered(error)),
        },
    }
}

/// Why a call has no answer that was not refused for what it asks.
fn unanswered(error: DbError) -> ShowError {
    match error {
        DbError::NoMemory => ShowError::NoMemory,
        _ => ShowError::Ended,
    }
}
