//! The text of an audit, part by part.

ghost use Rattle.std.specs.Prelude.{◌≡◌, ◌++◌, ◌<◌, ◌≤◌, length, OnOk, IfOk, IfSome, IfNone, flat_map, vec_len, vec_capacity, IsOk};
ghost use Rattle.std.specs.List.{AllZip, All};
ghost use Rattle.model.specs.Definitions.Text.{audit_lines};
ghost use Rattle.mapdb.specs.Held.{held_from};
ghost use Rattle.audit.specs.Sections.{IsTextOf, bytes_in};

use crate::error::AuditError;
use crate::line::{LINE, LONGEST, push_line};
use mapdb::{Database, Mappings};
use rayon::prelude::*;
use space::Place;
use std::alloc::{AllocError, Global};
use std::marker::Model;
use std::thread::Threads;

/// How many lines are too few to pay for a thread.
const FEW: usize = 4_096;

/// How many lines a part has at most, if they are no longer than most.
const PART: usize = 65_536;

/// How many spaces have their text made side by side at most.
const AT_ONCE: usize = 16;

/// The text of every mapping of a database, by rising place, a line for each. It is made part by part, so that it takes no
/// more room than the largest part, and once it is there no part wants memory: where that of several spaces is refused, or
/// a thread is, they are told by the calling thread, one line after another. A contract sees the part at hand, and the
/// bytes behind it.
#[derive(Drop)]
pub struct Report<'a> {
    mappings: Mappings<'a>,
    /// The spaces that hold anything, by rising number.
    spaces: Vec<u16>,
    /// How many of them are told.
    told: usize,
    /// The page of the next one from which on it is to be told.
    page: u32,
    /// The part at hand.
    text: Vec<u8>,
}

impl<'a> Model for Report<'a> {
    ghost use Rattle.std.specs.Prelude.{◌≤◌, drop, length, vec_capacity};
    ghost use Rattle.model.specs.Definitions.Text.{audit_lines};
    ghost use Rattle.mapdb.specs.Held.{held_from};
    ghost use Rattle.audit.specs.Parts.{Parts, left_of};

    ghost Value = { Parts };

    ghost view = { λ r. record { part = r.text.items; rest = audit_lines (left_of (held_from r.mappings) (drop r.told r.spaces.items) r.page) } };

    ghost invariant = { λ r. (r.told ≤ length r.spaces.items) × (64 ≤ vec_capacity r.text) };
}

impl<'a> Report<'a> {
    ghost use Rattle.std.specs.Prelude.{◌≡◌, ◌<◌, ◌≤◌, ◌+◌, ◌++◌, ◌↔◌, ◌⊎◌, [], true, length, drop, IfOk, IfErr, IsErrOf, IsTrue, IsFalse};
    ghost use Rattle.model.specs.Definitions.Text.{audit_lines};
    ghost use Rattle.audit.specs.declared.error.AuditError.TheVariants.{Halted, NoMemory};

    /// Starts the text of every mapping of a database; no part is at hand.
    ///
    /// The errors are `Halted`, if the database is halted, and `NoMemory`, if memory runs out.
    pub fn new(alloc: Global, database: &'a Database) -> Result<Self, AuditError>
        ensures halted { IsErrOf result Halted ↔ (database.now.is_halted ≡ true) }
        ensures errors { IfErr result (λ e. (e ≡ Halted) ⊎ (e ≡ NoMemory)) }
        ensures part { IfOk result (λ report. report.part ≡ []) }
        ensures rest { IfOk result (λ report. report.rest ≡ audit_lines database.now.holdings) }
    {
        let mappings = database.by_place(alloc)?;
        let spaces = held_spaces(alloc, &mappings)?;
        let text = Vec::with_capacity(alloc, LONGEST + mappings.len().min(PART) * LINE)?;
        Ok(Report {
            mappings,
            spaces,
            told: 0,
            page: 0,
            text,
        })
    }

    /// The part at hand.
    pub fn part(&self) -> &[u8]
        ensures { result.now ≡ self.now.part }
    {
        &self.text
    }

    /// Makes the next part. Returns false where there is none.
    pub fn next(&mut self, rt: &(impl AllocGlobal + Threads + Sync)) -> bool
        ensures parts { self.old.rest ≡ self.new.part ++ self.new.rest }
        ensures some { IsTrue result → 0 < length self.new.part }
        ensures none { IsFalse result → self.old.rest ≡ [] }
    {
        self.text.clear();
        if self.push_side_by_side(rt) {
            return true;
        }
        self.push_in_turn();
        !self.text.is_empty()
    }

    /// Puts the text of the next spaces, if they are worth threads, behind the empty part. Returns whether it did; else,
    /// as where memory is refused, the part stays empty.
    fn push_side_by_side(&mut self, rt: &(impl AllocGlobal + Threads + Sync)) -> bool
        requires { self.old.part ≡ [] }
        ensures parts { self.old.rest ≡ self.new.part ++ self.new.rest }
        ensures some { IsTrue result → 0 < length self.new.part }
        ensures none { IsFalse result → self.new.part ≡ [] }
    {
        if self.page != 0 || self.mappings.len() < FEW {
            return false;
        }
        let some = at_once(&self.mappings, &self.spaces[self.told..]);
        if some < 2 {
            return false;
        }
        let spaces = &self.spaces[self.told..self.told + some];
        let Ok(texts) = space_texts(rt, rt.alloc(), &self.mappings, spaces) else {
            return false;
        };
        if push_texts(&mut self.text, &texts).is_err() {
            self.text.clear();
            return false;
        }
        self.told += some;
        !self.text.is_empty()
    }

    /// Puts lines behind the part while there is room: all that are left where little is held, else those of one space.
    fn push_in_turn(&mut self)
        ensures parts { self.old.part ++ self.old.rest ≡ self.new.part ++ self.new.rest }
        ensures some { self.new.part ≡ [] → self.new.rest ≡ [] }
    {
        while self.told < self.spaces.len() {
            let next = push_some(
                &mut self.text,
                &self.mappings,
                Place {
                    space: self.spaces[self.told],
                    page: self.page,
                },
            );
            if let Some(page) = next {
                self.page = page;
                return;
            }
            self.told += 1;
            self.page = 0;
            if self.mappings.len() >= FEW && !self.text.is_empty() {
                return;
            }
        }
    }
}

/// How many of the first of these spaces have together no more lines than a part: none where the first has more.
fn at_once(mappings: &Mappings<'_>, spaces: &[u16]) -> usize
    ensures { result ≤ length spaces.now }
{
    let most = spaces.len().min(AT_ONCE);
    let mut lines: usize = 0;
    for k in 0..most {
        lines = lines.saturating_add(mappings.len_of(spaces[k]));
        if lines > PART {
            return k;
        }
    }
    most
}

/// The spaces that hold anything, by rising number.
fn held_spaces(alloc: Global, mappings: &Mappings<'_>) -> Result<Vec<u16>, AllocError>
    ensures { IfOk result (λ spaces. flat_map (λ space. held_from mappings.now space 0) spaces.items ≡ mappings.now.holdings) }
{
    let mut spaces = Vec::new(alloc);
    let limits = mappings.limits();
    for space in 0..limits.spaces as u16 {
        if mappings.next_from(Place { space, page: 0 }).is_some() {
            spaces.push(space)?;
        }
    }
    Ok(spaces)
}

/// Appends the lines of the mappings of a space from a page on, while there is room. Returns the page from which on they are
/// to be told next; none where all are.
fn push_some(text: &mut Vec<u8>, mappings: &Mappings<'_>, from: Place) -> Option<u32>
    requires { 64 ≤ vec_capacity text.old }
    ensures some { IfSome result (λ page. text.old.items ++ audit_lines (held_from mappings.now from.space from.page)
        ≡ text.new.items ++ audit_lines (held_from mappings.now from.space page)) }
    ensures all { IfNone result (text.old.items ++ audit_lines (held_from mappings.now from.space from.page) ≡ text.new.items) }
    ensures room { vec_capacity text.old ≤ vec_capacity text.new }
    ensures full { IfSome result (λ _. 0 < vec_len text.new) }
{
    let mut from = from;
    while text.capacity() - text.len() >= LONGEST {
        let Some(line) = mappings.next_from(from) else {
            return None;
        };
        let pushed = push_line(text, &line);
        prove!(pushed.is_ok());
        from.page = line.place.page + 1;
    }
    Some(from.page)
}

/// The text of the mappings of each space, side by side.
fn space_texts(
    rt: &(impl Threads + Sync),
    alloc: Global,
    mappings: &Mappings<'_>,
    spaces: &[u16],
) -> Result<Vec<Result<Vec<u8>, AllocError>>, AllocError>
    ensures { IfOk result (λ texts. AllZip (λ space text. IsTextOf (held_from mappings.now space 0) text) spaces.now texts.items) }
{
    spaces
        .par_iter()
        .map(
            |space: &u16| -> Result<Vec<u8>, AllocError>
                ensures { IsTextOf (held_from mappings.entry.now space.now 0) result }
            { space_text(alloc, mappings, *space) },
        )
        .with_min_len(1)
        .collect(rt, alloc)
}

/// The text of the mappings of a space.
fn space_text(alloc: Global, mappings: &Mappings<'_>, space: u16) -> Result<Vec<u8>, AllocError>
    ensures { IsTextOf (held_from mappings.now space 0) result }
{
    let room = mappings.len_of(space).saturating_mul(LINE);
    let mut text = Vec::with_capacity(alloc, room)?;
    push_space(&mut text, mappings, space)?;
    Ok(text)
}

/// Appends the text of the mappings of a space.
fn push_space(text: &mut Vec<u8>, mappings: &Mappings<'_>, space: u16) -> Result<(), AllocError>
    ensures { OnOk result (text.new.items ≡ text.old.items ++ audit_lines (held_from mappings.now space 0)) }
{
    let mut from = Place { space, page: 0 };
    while let Some(line) = mappings.next_from(from) {
        push_line(text, &line)?;
        from.page = line.place.page + 1;
    }
    Ok(())
}

/// Appends texts one after another, if memory sufficed for each.
fn push_texts(whole: &mut Vec<u8>, texts: &[Result<Vec<u8>, AllocError>]) -> Result<(), AllocError>
    ensures whole { OnOk result (whole.new.items ≡ whole.old.items ++ flat_map bytes_in texts.now) }
    ensures all { OnOk result (All IsOk texts.now) }
    ensures room { vec_capacity whole.old ≤ vec_capacity whole.new }
{
    for text in texts {
        match text {
            Ok(text) => whole.extend_from_slice(text)?,
            Err(error) => return Err(*error),
        }
    }
    Ok(())
}
