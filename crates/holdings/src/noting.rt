//! What the phases of a call note of the pages that they change.

ghost use Rattle.std.specs.Prelude.{◌≡◌, ◌<◌, ◌≤◌, true, ◌++◌, ◌∷◌, [], length, IsFalse, OnOk};
ghost use Rattle.std.specs.List.{All};
ghost use Rattle.space.specs.Shards.{IsPlace, is_taken};
ghost use Rattle.maptree.specs.Origins.{place_at};
ghost use Rattle.holdings.specs.Inner.Derivation.{stands_in};
ghost use Rattle.holdings.specs.Inner.Notes.{AreLosersNoted, IsLoserNoted, IsNotedIf, IsRunNoted, NotesAdd, loses_in, losing_from};

use crate::holdings::Holdings;
use crate::notes::{Note, Notes};
use crate::transfer::Transfer;
use fpage::{ItemKind, Rights};
use maptree::{Nodes, Tree};
use space::{Place, Shards};
use std::alloc::AllocError;
use std::ops::Range;

impl Holdings {
    ghost use Rattle.std.specs.Prelude.{OnOk};
    ghost use Rattle.std.specs.List.{All};
    ghost use Rattle.model.specs.Definitions.Strip.{strip};
    ghost use Rattle.holdings.specs.Inner.Notes.{AreAdded, AreEndsReady, IsEndReady, NotesAdd, has_ends, is_end, ends_of};
    ghost use Rattle.holdings.specs.Noting.{NotesFollow};
    ghost use Rattle.holdings.specs.Places.{IsWithin, any_of};
    ghost use Rattle.holdings.specs.Sending.{IsTransferWithin};

    /// Notes the pages that a strip of some pages changes: of all that derives from them, and with `flush` of these pages
    /// too, those that hold a revoked right.
    ///
    /// Refused where memory is.
    pub(crate) fn note_strip(
        &self,
        places: &[Place],
        revoked: Rights,
        flush: bool,
        notes: &mut Notes,
    ) -> Result<(), AllocError>
        requires { All (IsWithin self.now.limits) places.now }
        ensures { OnOk result (NotesFollow self.now.holdings (strip self.now.holdings (any_of places.now) revoked flush) notes.old notes.new) }
    {
        if !notes.asked {
            return Ok(());
        }
        for place in places {
            if let Some(entry) = self.shards.get(*place) {
                let tree = &self.trees[entry.frame as usize];
                note_place(&self.shards, tree, *place, revoked, flush, &mut notes.list)?;
            }
        }
        Ok(())
    }

    /// Notes the pages that transfers change whose source is held: their targets, and where they are granted their sources.
    /// A free target of a map is noted without a look at its source.
    ///
    /// Refused where memory is.
    pub(crate) fn note_transfers(
        &self,
        transfers: &[Transfer],
        kind: ItemKind,
        notes: &mut Notes,
    ) -> Result<(), AllocError>
        requires within { All (IsTransferWithin self.now.limits) transfers.now }
        requires ready { AreEndsReady self.now.holdings transfers.now }
        ensures { OnOk result (NotesAdd (AreAdded self.now.holdings (ends_of self.now.holdings kind transfers.now)) notes.old notes.new) }
    {
        if !notes.asked {
            return Ok(());
        }
        notes.make_room(transfers.len())?;
        for transfer in transfers {
            self.note_transfer(transfer, kind, &mut notes.list)?;
        }
        Ok(())
    }

    /// Notes the pages that one transfer changes.
    fn note_transfer(
        &self,
        transfer: &Transfer,
        kind: ItemKind,
        list: &mut Vec<Note>,
    ) -> Result<(), AllocError>
        requires within { IsTransferWithin self.now.limits transfer.now }
        requires ready { IsEndReady self.now.holdings transfer.now }
        ensures { OnOk result (AreAdded self.now.holdings (λ q. is_end self.now.holdings kind q transfer.now) list.old.items list.new.items) }
    {
        if !self.has_ends(transfer, kind) {
            return Ok(());
        }
        add_note(list, transfer.target, transfer.extends)?;
        match kind {
            ItemKind::Map => Ok(()),
            ItemKind::Grant => add_note(list, transfer.source, true),
        }
    }

    /// Whether the pages of a transfer are noted: if its source is held, and a free target of a map always.
    fn has_ends(&self, transfer: &Transfer, kind: ItemKind) -> bool
        requires { IsTransferWithin self.now.limits transfer.now }
        ensures { result ≡ has_ends self.now.holdings kind transfer.now }
    {
        match kind {
            ItemKind::Map if !transfer.extends => true,
            _ => self.entry(transfer.source).is_some(),
        }
    }
}

/// Notes those that hold one of the rights of all that derives from a place of a tree, and with `flush` of the place.
fn note_place(
    shards: &Shards,
    tree: &Tree,
    place: Place,
    revoked: Rights,
    flush: bool,
    list: &mut Vec<Note>,
) -> Result<(), AllocError>
    requires present { IsFalse (is_taken shards.now) }
    requires places { All (λ o. IsPlace shards.now o.0) tree.now.links }
    requires stands { stands_in tree.now.links place ≡ true }
    ensures { OnOk result (IsRunNoted shards.now tree.now.links place revoked flush list.old.items list.new.items) }
{
    let i = tree.find(place).unwrap();
    let run = tree.run_of(i);
    note_run(shards, tree, &losing(&run, flush), revoked, list)
}

/// Of a run, where notes are asked for, notes those places that hold one of the rights; the first one with `flush` alone.
///
/// Refused where memory is.
pub fn note_run_if_asked(
    shards: &Shards,
    tree: &Tree,
    run: &Range<usize>,
    revoked: Rights,
    flush: bool,
    notes: &mut Notes,
) -> Result<(), AllocError>
    requires present { IsFalse (is_taken shards.now) }
    requires places { All (λ o. IsPlace shards.now o.0) tree.now.links }
    requires some { run.now.start < run.now.end }
    requires within { run.now.end ≤ length tree.now.links }
    ensures { OnOk result (NotesAdd (AreLosersNoted shards.now tree.now.links (losing_from flush run.now.start) run.now.end revoked) notes.old notes.new) }
{
    if !notes.asked {
        return Ok(());
    }
    note_run(shards, tree, &losing(run, flush), revoked, &mut notes.list)
}

/// The places of a run that lose rights: all of them, or without `flush` all but the first one.
fn losing(run: &Range<usize>, flush: bool) -> Range<usize>
    requires { run.now.start < run.now.end }
    ensures start { result.start ≡ losing_from flush run.now.start }
    ensures end { result.end ≡ run.now.end }
    ensures some { result.start ≤ result.end }
{
    if flush {
        run.start..run.end
    } else {
        run.start + 1..run.end
    }
}

/// Notes those places of a run that hold one of the rights.
fn note_run(
    shards: &Shards,
    tree: &Tree,
    run: &Range<usize>,
    revoked: Rights,
    list: &mut Vec<Note>,
) -> Result<(), AllocError>
    requires present { IsFalse (is_taken shards.now) }
    requires places { All (λ o. IsPlace shards.now o.0) tree.now.links }
    requires some { run.now.start ≤ run.now.end }
    requires within { run.now.end ≤ length tree.now.links }
    ensures { OnOk result (AreLosersNoted shards.now tree.now.links run.now.start run.now.end revoked list.old.items list.new.items) }
{
    let mut nodes = tree.nodes();
    for at in run.start..run.end {
        note_loser(shards, nodes.at(at).place, revoked, list)?;
    }
    Ok(())
}

/// Notes the place at a position of a tree, where notes are asked for, if it lost a right.
///
/// Refused where memory is.
#[inline]
pub fn note_lost(
    nodes: &mut Nodes<'_>,
    i: usize,
    lost: bool,
    notes: &mut Notes,
) -> Result<(), AllocError>
    requires { i < length nodes.old }
    ensures same { OnOk result (nodes.new ≡ nodes.old) }
    ensures noted { OnOk result ((d : Place) → NotesAdd (IsNotedIf lost (place_at nodes.old i d)) notes.old notes.new) }
{
    if notes.asked && lost {
        add_note(&mut notes.list, nodes.at(i).place, true)?;
    }
    Ok(())
}

/// Notes a page if it holds one of the rights.
fn note_loser(
    shards: &Shards,
    place: Place,
    revoked: Rights,
    list: &mut Vec<Note>,
) -> Result<(), AllocError>
    requires present { IsFalse (is_taken shards.now) }
    requires place { IsPlace shards.now place }
    ensures { OnOk result (IsLoserNoted shards.now place revoked list.old.items list.new.items) }
{
    if loses(shards, place, revoked) {
        add_note(list, place, true)?;
    }
    Ok(())
}

/// Whether a page holds one of the rights.
fn loses(shards: &Shards, place: Place, revoked: Rights) -> bool
    requires present { IsFalse (is_taken shards.now) }
    requires place { IsPlace shards.now place }
    ensures { result ≡ loses_in shards.now revoked place }
{
    match shards.get(place) {
        None => false,
        Some(entry) => !entry.rights.meet(revoked).is_empty(),
    }
}

/// Notes one page.
#[inline(never)]
fn add_note(list: &mut Vec<Note>, place: Place, was_held: bool) -> Result<(), AllocError>
    ensures { OnOk result (list.new.items ≡ list.old.items ++ (record { place = place; was_held = was_held }) ∷ []) }
{
    list.push(Note::of(place, was_held))?;
    Ok(())
}
