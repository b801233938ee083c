//! Accesses of pages, one phase for all of them.

ghost use Rattle.std.specs.Prelude.{◌≡◌, false, filter, get_or, length, map, IfOk};
ghost use Rattle.std.specs.List.{All};
ghost use Rattle.space.specs.Shards.{IsPlace};
ghost use Rattle.holdings.specs.Inner.Faults.{is_there, with_faults, word_accesses};

use crate::access_batches::access_pieces;
use crate::holdings::Holdings;
use crate::phase::{is_small, work_phase};
use crew::{CrewError, Workers};
use fpage::Access;
use pieces::WordAccess;
use space::{Place, Shards};
use std::alloc::{AllocError, Global};

impl Holdings {
    ghost use Rattle.std.specs.Prelude.{IfOk, IsErrOf};
    ghost use Rattle.std.specs.List.{All};
    ghost use Rattle.crew.specs.declared.error.CrewError.TheVariants.{NoWorker};
    ghost use Rattle.holdings.specs.Contents.{AreAccessed};
    ghost use Rattle.holdings.specs.Places.{IsWithin};

    /// Makes accesses one after another, and says of each whether it was made; otherwise it was a fault.
    ///
    /// Refused, where memory or a worker is: `NoMemory`, `NoWorker`.
    pub fn access_all<W: Workers>(
        self,
        alloc: Global,
        accesses: &[(Place, Access)],
        workers: &W,
    ) -> Result<(Self, Vec<bool>), CrewError>
        requires within { All (λ access. IsWithin self.limits access.0) accesses.now }
        ensures accessed { IfOk result (AreAccessed self accesses.now) }
        ensures needs_no_worker { W.starts_none workers.now → IsErrOf result NoWorker → ⊥ }
    {
        if is_small(accesses.len(), workers) {
            let made = self.access_alone(alloc, accesses)?;
            return Ok(made);
        }
        let Holdings { mut shards, trees } = self;
        let pieces = access_pieces(alloc, &shards, accesses, workers)?;
        if pieces.is_empty() {
            let answers = with_faults(alloc, &shards, accesses, Vec::new(alloc))?;
            return Ok((Holdings { shards, trees }, answers));
        }
        let found = work_phase(alloc, &mut shards, pieces, workers)?;
        let answers = with_faults(alloc, &shards, accesses, found.answers)?;
        Ok((Holdings { shards, trees }, answers))
    }

    /// The same, without pieces.
    fn access_alone(
        self,
        alloc: Global,
        accesses: &[(Place, Access)],
    ) -> Result<(Self, Vec<bool>), AllocError>
        requires within { All (λ access. IsWithin self.limits access.0) accesses.now }
        ensures { IfOk result (AreAccessed self accesses.now) }
    {
        let mut held = self;
        let mut answers = Vec::with_capacity(alloc, accesses.len())?;
        for (place, access) in accesses {
            answers.push(held.touch(*place, *access))?;
        }
        Ok((held, answers))
    }
}

/// Accesses by the words of their pages, of those pages whose shards are there.
pub fn word_accesses(
    alloc: Global,
    shards: &Shards,
    accesses: &[(Place, Access)],
) -> Result<Vec<WordAccess>, AllocError>
    requires { All (λ access. IsPlace shards.now access.0) accesses.now }
    ensures { IfOk result (λ list. list.items ≡ word_accesses shards.now accesses.now) }
{
    let mut list = Vec::with_capacity(alloc, accesses.len())?;
    for (place, access) in accesses {
        if shards.has(*place) {
            list.push(WordAccess {
                index: shards.index(*place),
                access: *access,
            })?;
        }
    }
    Ok(list)
}

/// Puts the answers of the accesses of pages whose shards are there among those of all accesses: the others are faults.
fn with_faults(
    alloc: Global,
    shards: &Shards,
    accesses: &[(Place, Access)],
    made: Vec<bool>,
) -> Result<Vec<bool>, AllocError>
    requires places { All (λ access. IsPlace shards.now access.0) accesses.now }
    requires each { length made.items ≡ length (filter (is_there shards.now) accesses.now) }
    ensures { IfOk result (λ answers. answers.items ≡ with_faults (map (is_there shards.now) accesses.now) made.items) }
{
    if made.len() == accesses.len() {
        // No shard is wanting.
        return Ok(made);
    }
    let mut answers = Vec::with_capacity(alloc, accesses.len())?;
    let mut next = 0;
    for (place, _) in accesses {
        if shards.has(*place) {
            answers.push(answer_at(&made, next))?;
            next += 1;
        } else {
            answers.push(false)?;
        }
    }
    Ok(answers)
}

/// An answer; past the last one, a fault.
fn answer_at(answers: &[bool], i: usize) -> bool
    ensures { result ≡ get_or answers.now i false }
{
    i < answers.len() && answers[i]
}
