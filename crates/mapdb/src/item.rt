//! An item of a send, worked in phases.

ghost use Rattle.std.specs.Prelude.{◌≡◌, ◌<◌, IfOk, IsErrOf, ◌^◌};
ghost use Rattle.std.specs.List.{All};
ghost use Rattle.fpage.specs.Fpage.{IsFpageOf};
ghost use Rattle.model.specs.Definitions.Answers.{item_answer, send_answer};
ghost use Rattle.crew.specs.declared.error.CrewError.TheVariants.{NoWorker};
ghost use Rattle.holdings.specs.Sending.{job_of_pages, AreItemPages};
ghost use Rattle.mapdb.specs.Sending.{IsSent, counts_before_flush, transfers_of, sources_in, AreReplaced};
ghost use Rattle.holdings.specs.Noting.{NotesFollow};
ghost use Rattle.model.specs.Laws.SendLaws.{total};
ghost use Rattle.mapdb.specs.Meaning.{counts_of};
ghost use Rattle.fpage.specs.declared.item.ItemKind.TheVariants.{Grant};
ghost use Rattle.space.specs.declared.place.Place.{Place};
ghost use Rattle.holdings.specs.Contents.{IsConsistent};
ghost use Rattle.holdings.specs.Places.{any_of};

use crate::call::Sending;
use crate::item_pages::item_pages;
use crate::plan::{plan_item, replaced, sources, transfer_of};
use crate::reply::SendReply;
use crew::{CrewError, Workers};
use fpage::{ItemKind, Rights};
use holdings::{Holdings, ItemPages, Notes, Transfer};
use space::Place;
use std::alloc::Global;

/// Works one item: the outcome of each page from the start, and then the phases. Notes the pages that it changes.
///
/// Refused, where memory or a worker is: `NoMemory`, `NoWorker`.
pub fn work_item<W: Workers>(
    alloc: Global,
    held: Holdings,
    pages: &ItemPages,
    notes: &mut Notes,
    workers: &W,
) -> Result<(Holdings, SendReply), CrewError>
    requires pages { AreItemPages held.limits pages.now }
    ensures sent { IfOk result (IsSent held (item_answer held.holdings (job_of_pages pages.now)).left (item_answer held.holdings (job_of_pages pages.now)).counts) }
    ensures few { IfOk result (λ r. total (counts_of r.1) < 2 ^ 32) }
    ensures noted { IfOk result (λ r. NotesFollow held.holdings r.0.holdings notes.old notes.new) }
    ensures needs_no_worker { W.starts_none workers.now → IsErrOf result NoWorker → ⊥ }
{
    if pages.count == 1 {
        return work_page(alloc, held, pages, notes, workers);
    }
    let plan = plan_item(alloc, &held, pages)?;
    let sources = match pages.kind {
        ItemKind::Map => Vec::new(alloc),
        ItemKind::Grant => sources(alloc, &plan.transfers)?,
    };
    let phases = Phases {
        decided: plan.decided,
        transfers: &plan.transfers,
        replaced: &plan.replaced,
        sources: &sources,
    };
    let (left, counts) = work_phases(alloc, held, pages, &phases, notes, workers)?;
    let first = pages.source.page;
    let sources = first..first.saturating_add(pages.count);
    let found = u128::from(pages.count).saturating_sub(plan.decided.absent) as usize;
    let left = left.swept(pages.source.space, sources, found, plan.in_vain);
    Ok((left, counts))
}

/// The same of an item of one page, without lists.
///
/// Refused, where memory or a worker is: `NoMemory`, `NoWorker`.
fn work_page<W: Workers>(
    alloc: Global,
    held: Holdings,
    pages: &ItemPages,
    notes: &mut Notes,
    workers: &W,
) -> Result<(Holdings, SendReply), CrewError>
    requires pages { AreItemPages held.limits pages.now }
    requires one { pages.now.count ≡ 1 }
    ensures sent { IfOk result (IsSent held (item_answer held.holdings (job_of_pages pages.now)).left (item_answer held.holdings (job_of_pages pages.now)).counts) }
    ensures few { IfOk result (λ r. total (counts_of r.1) < 2 ^ 32) }
    ensures noted { IfOk result (λ r. NotesFollow held.holdings r.0.holdings notes.old notes.new) }
    ensures needs_no_worker { W.starts_none workers.now → IsErrOf result NoWorker → ⊥ }
{
    let outcome = held.outcome(pages, pages.source, pages.target);
    let none = Phases {
        decided: SendReply::of_outcome(outcome),
        transfers: &[],
        replaced: &[],
        sources: &[],
    };
    match transfer_of(outcome, pages.source, pages.target) {
        None => work_phases(alloc, held, pages, &none, notes, workers),
        Some(transfer) if transfer.extends => {
            let transfers = [transfer];
            let phases = Phases {
                transfers: &transfers,
                ..none
            };
            work_phases(alloc, held, pages, &phases, notes, workers)
        }
        Some(transfer) => {
            let (transfers, sources) = ([transfer], [transfer.source]);
            let phases = Phases {
                transfers: &transfers,
                replaced: replaced(outcome, &pages.target),
                sources: &sources,
                ..none
            };
            work_phases(alloc, held, pages, &phases, notes, workers)
        }
    }
}

/// What the phases of an item work, as it was decided from the start.
#[derive(Clone, Copy)]
struct Phases<'a> {
    /// How many pages neither go nor extend.
    decided: SendReply,
    /// The others, in order.
    transfers: &'a [Transfer],
    /// The targets of those that go, where something is held.
    replaced: &'a [Place],
    /// The sources of those that go, where the item is a grant.
    sources: &'a [Place],
}

/// Works the phases of an item: the flush of the targets that are replaced; then those pages whose sources are still held (profile) are
/// mapped, or lose what a grant withholds and move. Each phase notes what it changes.
///
/// Refused, where memory or a worker is: `NoMemory`, `NoWorker`.
fn work_phases<W: Workers>(
    alloc: Global,
    held: Holdings,
    pages: &ItemPages,
    phases: &Phases<'_>,
    notes: &mut Notes,
    workers: &W,
) -> Result<(Holdings, SendReply), CrewError>
    requires pages { AreItemPages held.limits pages.now }
    requires consistent { IsConsistent held }
    requires decided { counts_of phases.now.decided ≡ counts_before_flush held.holdings (job_of_pages pages.now) (job_of_pages pages.now).pairs }
    requires transfers { phases.now.transfers.now ≡ transfers_of held.holdings (job_of_pages pages.now) (job_of_pages pages.now).pairs }
    requires replaced { AreReplaced held.holdings phases.now.transfers.now phases.now.replaced.now }
    requires sources { pages.now.kind ≡ Grant → (p : Place) → any_of phases.now.sources.now p ≡ sources_in phases.now.transfers.now p }
    ensures sent { IfOk result (IsSent held (item_answer held.holdings (job_of_pages pages.now)).left (item_answer held.holdings (job_of_pages pages.now)).counts) }
    ensures few { IfOk result (λ r. total (counts_of r.1) < 2 ^ 32) }
    ensures noted { IfOk result (λ r. NotesFollow held.holdings r.0.holdings notes.old notes.new) }
    ensures needs_no_worker { W.starts_none workers.now → IsErrOf result NoWorker → ⊥ }
{
    let (held, _) = held.strip(alloc, phases.replaced, Rights::all(), true, notes, workers)?;
    let (held, worked) = match pages.kind {
        ItemKind::Map => held.map(alloc, phases.transfers, pages.rights, notes, workers)?,
        ItemKind::Grant => {
            let withheld = Rights::all().without(pages.rights);
            let (held, _) = held.strip(alloc, phases.sources, withheld, true, notes, workers)?;
            held.rename(alloc, phases.transfers, notes, workers)?
        }
    };
    let worked = SendReply::of_transfers(worked);
    Ok((held, phases.decided.plus(worked)))
}
