//! What is to be done for an item, as things stand at its start.

ghost use Rattle.std.specs.Prelude.{◌≡◌, ◌∷◌, ◌++◌, [], IfOk, MatchOption, ◌≤◌, OnOk};
ghost use Rattle.holdings.specs.Contents.{IsConsistent};
ghost use Rattle.holdings.specs.Sending.{AreItemPages, fate_of_outcome, job_of_pages};
ghost use Rattle.holdings.specs.Places.{any_of};
ghost use Rattle.space.specs.declared.place.Place.{Place};
ghost use Rattle.mapdb.specs.Meaning.{counts_of};
ghost use Rattle.mapdb.specs.Sending.{counts_before_flush, transfer_of, transfers_of, replaced_by, sources_in, AreReplaced, IsDecided};

use crate::reply::SendReply;
use holdings::{Holdings, ItemPages, Outcome, Transfer};
use space::Place;
use std::alloc::{AllocError, Global};
use std::ops::Range;
use std::slice;

/// For how many transfers there is room at once, so that few do not take memory time and again.
const FIRST_TRANSFERS: usize = 64;

/// What is to be done for an item.
#[derive(Drop)]
pub struct Plan {
    /// How many pages neither go nor extend.
    pub decided: SendReply,
    /// The others, in order.
    pub transfers: Vec<Transfer>,
    /// The targets of those that go, where something is held.
    pub replaced: Vec<Place>,
    /// How many shards were looked at in vain. No clause says how many.
    pub in_vain: usize,
}

/// Decides the outcome of every page of an item. Sources whose shards are not there are absent without a look at each.
pub fn plan_item(alloc: Global, held: &Holdings, pages: &ItemPages) -> Result<Plan, AllocError>
    requires { AreItemPages held.now.limits pages.now }
    ensures decided { IfOk result (λ plan. counts_of plan.decided
        ≡ counts_before_flush held.now.holdings (job_of_pages pages.now) (job_of_pages pages.now).pairs) }
    ensures transfers { IfOk result (λ plan. plan.transfers.items
        ≡ transfers_of held.now.holdings (job_of_pages pages.now) (job_of_pages pages.now).pairs) }
    ensures replaced { IfOk result (λ plan. AreReplaced held.now.holdings plan.transfers.items plan.replaced.items) }
    ensures consistent { IsConsistent held.now }
{
    // Its contract says that what is held is consistent.
    let _ = held.limits();
    let mut plan = Plan {
        decided: SendReply::none(),
        transfers: Vec::with_capacity(alloc, FIRST_TRANSFERS.min(pages.count as usize))?,
        replaced: Vec::new(alloc),
        in_vain: 0,
    };
    let mut i = 0;
    while i < pages.count {
        let run = held.next_sources(pages, i);
        plan.decided = plan.decided.plus(SendReply::of_absent(run.pages.start - i));
        plan.in_vain = plan.in_vain.saturating_add(run.in_vain as usize);
        let behind = run.pages.end;
        plan_pages(held, pages, run.pages, &mut plan)?;
        i = behind;
    }
    Ok(plan)
}

/// Decides the outcomes of some pages of an item, when all before them are decided.
fn plan_pages(
    held: &Holdings,
    pages: &ItemPages,
    part: Range<u32>,
    plan: &mut Plan,
) -> Result<(), AllocError>
    requires pages { AreItemPages held.now.limits pages.now }
    requires consistent { IsConsistent held.now }
    requires order { part.start ≤ part.end }
    requires end { part.end ≤ pages.now.count }
    requires before { IsDecided held.now.holdings pages.now part.start plan.old }
    ensures { OnOk result (IsDecided held.now.holdings pages.now part.end plan.new) }
{
    for i in part.start..part.end {
        let (source, target) = pages.pair(i);
        let outcome = held.outcome(pages, source, target);
        plan.decided = plan.decided.plus(SendReply::of_outcome(outcome));
        add_transfer(&mut plan.transfers, outcome, source, target)?;
        add_replaced(&mut plan.replaced, outcome, target)?;
    }
    Ok(())
}

/// Adds a page to transfers, if it goes or extends.
fn add_transfer(
    transfers: &mut Vec<Transfer>,
    outcome: Outcome,
    source: Place,
    target: Place,
) -> Result<(), AllocError>
    ensures { OnOk result (transfers.new.items ≡ transfers.old.items ++ transfer_of (source, target) (fate_of_outcome outcome) []) }
{
    if let Some(transfer) = transfer_of(outcome, source, target) {
        transfers.push(transfer)?;
    }
    Ok(())
}

/// Adds the target of a page to others, if it is replaced.
fn add_replaced(
    replaced: &mut Vec<Place>,
    outcome: Outcome,
    target: Place,
) -> Result<(), AllocError>
    ensures { OnOk result (replaced.new.items ≡ replaced.old.items ++ replaced_by outcome target) }
{
    if outcome == Outcome::Replaces {
        replaced.push(target)?;
    }
    Ok(())
}

/// The transfer of a page that goes or extends.
pub fn transfer_of(outcome: Outcome, source: Place, target: Place) -> Option<Transfer>
    ensures { MatchOption result
        (transfer_of (source, target) (fate_of_outcome outcome) [] ≡ [])
        (λ t. transfer_of (source, target) (fate_of_outcome outcome) [] ≡ t ∷ []) }
{
    let extends = match outcome {
        Outcome::Absent | Outcome::NoRights | Outcome::Origin => return None,
        Outcome::Extends => true,
        Outcome::Replaces | Outcome::Goes => false,
    };
    Some(Transfer {
        source,
        target,
        extends,
    })
}

/// The target of a page with this outcome, if something is held there.
pub fn replaced(outcome: Outcome, target: &Place) -> &[Place]
    ensures { result.now ≡ replaced_by outcome target.now }
{
    match outcome {
        Outcome::Absent | Outcome::NoRights | Outcome::Origin | Outcome::Extends => &[],
        Outcome::Replaces => slice::from_ref(target),
        Outcome::Goes => &[],
    }
}

/// The sources of transfers that go, in order.
pub fn sources(alloc: Global, transfers: &[Transfer]) -> Result<Vec<Place>, AllocError>
    ensures { IfOk result (λ places. (p : Place) → any_of places.items p ≡ sources_in transfers.now p) }
{
    let mut places = Vec::with_capacity(alloc, transfers.len())?;
    for transfer in transfers {
        if !transfer.extends {
            places.push(transfer.source)?;
        }
    }
    Ok(places)
}
