//! What the records of a trace changed of some pages.

ghost use Rattle.std.specs.Prelude.{◌≡◌, IfOk, map, option_map};
ghost use Rattle.model.specs.Definitions.Holdings.{at};
ghost use Rattle.mapdb.specs.Held.{limits_of, IsWithin};
ghost use Rattle.std.specs.List.{All};
ghost use Rattle.l4trace_moments.specs.History.{held_of};

use crate::answering::{answer_record, next_call, start};
use crate::effect::{Effect, effect_of};
use crate::error::ShowError;
use crate::page::{is_within, mapping_of};
use mapdb::{Database, Limits, Mapping};
use replay::Watch;
use space::Place;
use std::alloc::{AllocError, Global};
use trace::{Call, Refusal, TraceReader};

/// What a record changed of a page, but for its status.
#[derive(Clone, Copy, Debug, PartialEq, Eq)]
pub struct Change {
    /// The number of the record, from 1.
    pub record: u64,
    pub place: Place,
    /// What the page held before; none where it held nothing.
    pub before: Option<Mapping>,
    /// What it holds after.
    pub after: Option<Mapping>,
    /// How that came.
    pub effect: Effect,
}

impl Change {
    /// Whether the page was not held before or after, or has its mapping from another one than before.
    pub fn is_link(&self) -> bool {
        !matches!(self.effect, Effect::Withheld | Effect::Changed)
    }
}

/// What some pages hold.
fn mappings_of(
    alloc: Global,
    database: &Database,
    places: &[Place],
) -> Result<Vec<Option<Mapping>>, ShowError>
    requires { All (IsWithin database.now.limits) places.now }
    ensures { IfOk result (λ held. map (option_map held_of) held.items ≡ map (at database.now.holdings) places.now) }
{
    let mut held = Vec::new(alloc);
    for place in places {
        let mapping = mapping_of(database, *place)?;
        held.push(mapping)?;
    }
    Ok(held)
}

/// Some pages of a database whose records are answered one by one.
#[derive(Drop)]
struct Watched {
    reader: TraceReader,
    database: Database,
    places: Vec<Place>,
    /// What each of the pages holds.
    held: Vec<Option<Mapping>>,
}

impl Watched {
    ghost use Rattle.std.specs.Prelude.{IfOk, OnOk};
    ghost use Rattle.trace.specs.Meaning.{IsWithinLimits};
    ghost use Rattle.l4trace_moments.specs.History.{IsRunning};

    /// The pages of these that there are, before the first record of a trace.
    fn new(alloc: Global, bytes: &[u8], places: &[Place]) -> Result<Self, ShowError>
        ensures { IfOk result (λ watched. IsRunning watched.database watched.places.items) }
    {
        let reader = TraceReader::of_slice(alloc, bytes)?;
        let database = start(alloc, &reader.limits())?;
        let places = places_within(alloc, &reader.limits(), places)?;
        let held = mappings_of(alloc, &database, &places)?;
        Ok(Watched {
            reader,
            database,
            places,
            held,
        })
    }

    /// Answers the record that comes next, which has this number, and appends what it changed of the pages.
    fn answer_next(
        &mut self,
        alloc: Global,
        record: u64,
        changes: &mut Vec<Change>,
    ) -> Result<(), ShowError>
        requires { IsRunning self.old.database self.old.places.items }
        ensures { OnOk result (IsRunning self.new.database self.new.places.items) }
    {
        let Some(asked) = next_call(&self.database, &mut self.reader)? else {
            return Ok(());
        };
        self.answer(alloc, record, &asked, changes)?;
        if let Ok(call) = asked {
            self.reader.reuse(call);
        }
        Ok(())
    }

    /// Answers a record with this number, and appends what it changed of the pages.
    fn answer(
        &mut self,
        alloc: Global,
        record: u64,
        asked: &Result<Call, Refusal>,
        changes: &mut Vec<Change>,
    ) -> Result<(), ShowError>
        requires running { IsRunning self.old.database self.old.places.items }
        requires within { IfOk asked.now (IsWithinLimits self.old.database.limits) }
        ensures { OnOk result (IsRunning self.new.database self.new.places.items) }
    {
        let _ = answer_record(alloc, &mut self.database, asked)?;
        let after = mappings_of(alloc, &self.database, &self.places)?;
        self.push_changes(record, asked, &after, changes)?;
        self.held = after;
        Ok(())
    }

    /// Appends what a record with this number, which was answered, changed of the pages: they hold this after it.
    fn push_changes(
        &self,
        record: u64,
        asked: &Result<Call, Refusal>,
        after: &[Option<Mapping>],
        changes: &mut Vec<Change>,
    ) -> Result<(), ShowError> {
        for (i, place) in self.places.iter().enumerate() {
            let before = self.held.get(i).copied().unwrap_or(None);
            let after = after.get(i).copied().unwrap_or(None);
            if !is_same(before, after) {
                changes.push(Change {
                    record,
                    place: *place,
                    before,
                    after,
                    effect: effect_of(&self.database, asked, before, after)?,
                })?;
            }
        }
        Ok(())
    }
}

/// What the first so many records of a trace changed of some pages, record by record. The watch hears of each.
pub fn changes<V: Watch>(
    alloc: Global,
    bytes: &[u8],
    records: u64,
    places: &[Place],
    watch: &mut V,
) -> Result<Vec<Change>, ShowError> {
    let mut watched = Watched::new(alloc, bytes, places)?;
    let mut changes = Vec::new(alloc);
    for i in 0..records {
        watch.hear(i + 1);
        watched.answer_next(alloc, i + 1, &mut changes)?;
    }
    Ok(changes)
}

/// Those of some pages that there are.
fn places_within(alloc: Global, limits: &Limits, places: &[Place]) -> Result<Vec<Place>, AllocError>
    ensures { IfOk result (λ within. All (IsWithin (limits_of limits.now)) within.items) }
{
    let mut within = Vec::new(alloc);
    for place in places {
        if is_within(limits, *place) {
            within.push(*place)?;
        }
    }
    Ok(within)
}

/// Whether what a page holds is the same, but for its status.
fn is_same(before: Option<Mapping>, after: Option<Mapping>) -> bool {
    match (before, after) {
        (None, None) => true,
        (Some(old), Some(new)) => {
            old.frame == new.frame && old.rights == new.rights && old.origin == new.origin
        }
        _ => false,
    }
}
