//! Pages that are mapped or moved to targets, and the new mappings in the trees.

ghost use Rattle.std.specs.Prelude.{◌≡◌, ◌∷◌, [], length, IfOk, OnOk, IsFalse};
ghost use Rattle.std.specs.Option.{option_to_list};
ghost use Rattle.std.specs.List.{All};
ghost use Rattle.space.specs.Shards.{IsPlace, is_taken};
ghost use Rattle.holdings.specs.Inner.Links.{links_of, links_between, AreLinkable, AreLinked, ArePut, CanBePut};
ghost use Rattle.holdings.specs.Inner.Planning.{counts_in};
ghost use Rattle.holdings.specs.Meaning.{counts_of};

use crate::transfer::Transfer;
use crate::transfer_counts::TransferCounts;
use crate::tree::derive;
use crate::tree_cuts::cuts_for;
use crew::{Changed, Workers};
use maptree::Tree;
use space::{NoMemory, Place, Shards};
use std::alloc::{AllocError, Global};

/// A held page and the target to which it is mapped or moved, with the frame of both.
#[derive(Clone, Copy, Debug, PartialEq, Eq)]
pub struct Link {
    pub frame: u32,
    pub source: Place,
    pub target: Place,
}

/// Puts the new mappings of transfers that go, and whose source is held, into the trees, each into the tree of its frame.
/// Counts what becomes of the transfers.
///
/// Refused, where memory is: `NoMemory`.
pub fn link_all(
    shards: &Shards,
    trees: &mut [Tree],
    transfers: &[Transfer],
) -> Result<TransferCounts, NoMemory>
    requires present { IsFalse (is_taken shards.now) }
    requires places { All (λ t. IsPlace shards.now t.source) transfers.now }
    requires linkable { AreLinkable trees.old (links_of shards.now transfers.now) }
    ensures linked { OnOk result (AreLinked (links_of shards.now transfers.now) trees.old trees.new) }
    ensures counts { IfOk result (λ counts. counts_of counts ≡ counts_in shards.now transfers.now) }
{
    link_part(shards, 0, trees, transfers)?;
    Ok(TransferCounts::of_all(shards, transfers))
}

/// The same as `link_all`. Where the transfers are many, the workers put the new mappings into parts of the trees side by
/// side.
///
/// Refused, where memory is: `NoMemory`.
pub fn link_together<W: Workers>(
    alloc: Global,
    shards: &Shards,
    trees: &mut [Tree],
    transfers: &[Transfer],
    workers: &W,
) -> Result<TransferCounts, NoMemory>
    requires present { IsFalse (is_taken shards.now) }
    requires places { All (λ t. IsPlace shards.now t.source) transfers.now }
    requires linkable { AreLinkable trees.old (links_of shards.now transfers.now) }
    ensures linked { OnOk result (AreLinked (links_of shards.now transfers.now) trees.old trees.new) }
    ensures counts { IfOk result (λ counts. counts_of counts ≡ counts_in shards.now transfers.now) }
{
    let cuts = cuts_for(alloc, shards, transfers, workers)?;
    let put = move |start: usize, part: &mut [Tree]| -> Changed
        requires { CanBePut shards.now transfers.now start part.now }
        ensures { OnOk result (ArePut shards.entry.now transfers.entry.now start part.entry.now part.exit.now) }
    { link_part(shards, start, part, transfers) };
    workers.change(trees, &cuts, &put)?;
    Ok(TransferCounts::of_all(shards, transfers))
}

/// Puts new mappings into a part of all trees, which begins at the tree of this number: those whose frame has its tree there.
///
/// Refused, where memory is: `NoMemory`.
fn link_part(
    shards: &Shards,
    start: usize,
    part: &mut [Tree],
    transfers: &[Transfer],
) -> Result<(), NoMemory>
    requires present { IsFalse (is_taken shards.now) }
    requires places { All (λ t. IsPlace shards.now t.source) transfers.now }
    requires linkable { AreLinkable part.old (links_between start (length part.old) (links_of shards.now transfers.now)) }
    ensures { OnOk result (AreLinked (links_between start (length part.old) (links_of shards.now transfers.now)) part.old part.new) }
{
    for transfer in transfers {
        if let Some(link) = new_link(shards, *transfer) {
            let frame = link.frame as usize;
            if frame >= start && frame - start < part.len() {
                derive(&mut part[frame - start], link.source, link.target)?;
            }
        }
    }
    Ok(())
}

/// The link of a transfer, if it goes and its source is held, as the words stand.
pub fn new_link(shards: &Shards, transfer: Transfer) -> Option<Link>
    requires present { IsFalse (is_taken shards.now) }
    requires source { IsPlace shards.now transfer.source }
    ensures { option_to_list result ≡ links_of shards.now (transfer ∷ []) }
{
    if transfer.extends {
        return None;
    }
    let Transfer { source, target, .. } = transfer;
    let entry = shards.get(source)?;
    let frame = entry.frame;
    Some(Link {
        frame,
        source,
        target,
    })
}

/// The links of transfers that go and whose source is held, as the words stand, and what becomes of the transfers.
pub fn new_links(
    alloc: Global,
    shards: &Shards,
    transfers: &[Transfer],
) -> Result<(Vec<Link>, TransferCounts), AllocError>
    requires present { IsFalse (is_taken shards.now) }
    requires places { All (λ t. IsPlace shards.now t.source) transfers.now }
    ensures links { IfOk result (λ r. r.0.items ≡ links_of shards.now transfers.now) }
    ensures counts { IfOk result (λ r. counts_of r.1 ≡ counts_in shards.now transfers.now) }
{
    let mut links = Vec::with_capacity(alloc, transfers.len())?;
    let mut counts = TransferCounts::none();
    for transfer in transfers {
        let one = TransferCounts::of_one(shards, *transfer);
        counts = counts.plus(one);
        if let Some(link) = new_link(shards, *transfer) {
            links.push(link)?;
        }
    }
    Ok((links, counts))
}
