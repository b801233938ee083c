//! Where the trees are cut that workers change side by side: so that each part has about as many changes, wherever the frames
//! of a call lie among all. No answer rests on it.

ghost use Rattle.std.specs.Prelude.{◌≤◌, IsFalse};
ghost use Rattle.std.specs.List.{All};
ghost use Rattle.space.specs.Shards.{IsPlace, is_taken};

use crate::batches::planners_for;
use crate::link::{Link, new_link};
use crate::transfer::Transfer;
use crew::Workers;
use space::Shards;
use std::alloc::{AllocError, Global};

/// How many transfers of all are looked at, at equal distances, to learn where their frames lie.
const SAMPLE: usize = 256;

/// How many threads at most put new mappings into trees. Each passes over all transfers, which is most of what it does: more
/// would gain little, and lose much where they are more than the processors.
const MOST_LINKERS: usize = 4;

/// The trees at which all are cut, as many as pay, to put the new mappings of transfers into them.
pub fn cuts_for<W: Workers>(
    alloc: Global,
    shards: &Shards,
    transfers: &[Transfer],
    workers: &W,
) -> Result<Vec<usize>, AllocError>
    requires present { IsFalse (is_taken shards.now) }
    requires places { All (λ t. IsPlace shards.now t.source) transfers.now }
{
    let parts = planners_for(transfers.len() / workers.piece_length(), workers).min(MOST_LINKERS);
    if parts < 2 {
        return Ok(Vec::new(alloc));
    }
    let mut links = some_links(alloc, shards, transfers)?;
    links.sort_unstable_by_key(|link| link.frame);
    cuts_between(alloc, &links, parts)
}

/// The links of some of the transfers.
fn some_links(
    alloc: Global,
    shards: &Shards,
    transfers: &[Transfer],
) -> Result<Vec<Link>, AllocError>
    requires present { IsFalse (is_taken shards.now) }
    requires places { All (λ t. IsPlace shards.now t.source) transfers.now }
{
    let step = transfers.len().div_ceil(SAMPLE);
    let mut links = Vec::with_capacity(alloc, SAMPLE)?;
    for i in 0..SAMPLE {
        if let Some(transfer) = transfers.get(step.saturating_mul(i)) {
            if let Some(link) = new_link(shards, *transfer) {
                links.push(link)?;
            }
        }
    }
    Ok(links)
}

/// The trees at which all are cut into so many parts, each with about as many of these links, which are sorted by frame.
pub fn cuts_between(alloc: Global, links: &[Link], parts: usize) -> Result<Vec<usize>, AllocError>
    requires { 1 ≤ parts }
{
    let size = links.len() / parts;
    let mut cuts = Vec::with_capacity(alloc, parts)?;
    for part in 1..parts {
        if let Some(link) = links.get(size.saturating_mul(part)) {
            cuts.push(link.frame as usize)?;
        }
    }
    Ok(cuts)
}
