//! One phase of a call: its pieces are worked on the entry words, and what they find out is gathered.

ghost use Rattle.std.specs.Prelude.{◌≡◌, ◌<◌, None, length, IfOk, OnOk, IsErrOf, IsFalse};
ghost use Rattle.space.specs.Shards.{is_taken};
ghost use Rattle.pieces.specs.Gathering.{all_found, fault_in, IsGathered};
ghost use Rattle.crew.specs.Worked.{IsWorked};
ghost use Rattle.crew.specs.declared.error.CrewError.TheVariants.{NoWorker};
ghost use Rattle.holdings.specs.Inner.Words.{AreWordsOf, CanBeWorkedIn, IsPhaseWorked};

use crew::{CrewError, Workers};
use pieces::{Done, Gathered, Piece, gather};
use space::Shards;
use std::alloc::Global;

/// How many times as many pieces as full ones a phase may have that workers share.
const MOST_SHORT_PIECES: usize = 4;

/// Whether a phase of so many nodes, stores, pairs or accesses fills too few pieces for the workers to share it.
pub fn is_small<W: Workers>(parts: usize, workers: &W) -> bool {
    parts.div_ceil(workers.piece_length()) < workers.shared_from()
}

/// Whether the calling thread works a phase alone: it is small, or it would have so many short pieces that sharing them
/// costs more than working them. Workers who share the smallest phase share those too.
pub fn is_worked_alone<W: Workers>(parts: usize, pieces: usize, workers: &W) -> bool {
    is_small(parts, workers) || (workers.shared_from() > 0 && pieces > most_pieces(parts, workers))
}

/// How many pieces of so many parts may pay for being shared.
pub fn most_pieces<W: Workers>(parts: usize, workers: &W) -> usize {
    let full = parts.div_ceil(workers.piece_length());
    full.saturating_mul(MOST_SHORT_PIECES)
}

/// Works the pieces of a phase on the words of the shards. Without memory or a worker the words are gone.
pub fn work_phase<W: Workers>(
    alloc: Global,
    shards: &mut Shards,
    pieces: Vec<Piece>,
    workers: &W,
) -> Result<Gathered, CrewError>
    requires some { 0 < length pieces.items }
    requires present { IsFalse (is_taken shards.old) }
    requires can { CanBeWorkedIn shards.old pieces.items }
    ensures worked { IfOk result (IsPhaseWorked shards.old shards.new pieces.items) }
    ensures needs_no_worker { W.starts_none workers.now → IsErrOf result NoWorker → ⊥ }
{
    work_phase_by(alloc, shards, pieces, |words, pieces| {
        workers.work(alloc, words, pieces)
    })
}

/// The same by a function that is given the words and the pieces.
pub fn work_phase_by<F>(
    alloc: Global,
    shards: &mut Shards,
    pieces: Vec<Piece>,
    work: F,
) -> Result<Gathered, CrewError>
where
    F: FnOnce(Vec<u64>, Vec<Piece>) -> Result<(Vec<u64>, Vec<Done>), CrewError>,
    requires present { IsFalse (is_taken shards.old) }
    requires may { (words : _) → AreWordsOf shards.old words.items → F.pre work words pieces }
    requires does { (words r : _) → AreWordsOf shards.old words.items → F.post work words pieces r
        → IfOk r (λ w. IsWorked words.items pieces.items w.0.items w.1.items) }
    ensures worked { IfOk result (IsPhaseWorked shards.old shards.new pieces.items) }
    ensures needs_no_worker { ((words r : _) → F.post work words pieces r → IsErrOf r NoWorker → ⊥) → IsErrOf result NoWorker → ⊥ }
{
    let count = pieces.len();
    let words = shards.take_words();
    let (words, dones) = work(words, pieces)?;
    shards.put_words(words);
    gathered(alloc, dones, count)
}

/// What so many pieces found out, gathered.
fn gathered(alloc: Global, dones: Vec<Done>, pieces: usize) -> Result<Gathered, CrewError>
    requires { fault_in pieces dones.items ≡ None }
    ensures gathered { IfOk result (IsGathered (all_found pieces dones.items)) }
    ensures needs_no_worker { IsErrOf result NoWorker → ⊥ }
{
    // Each piece has one result, so only memory can be refused.
    match gather(alloc, dones, pieces) {
        Ok(gathered) => Ok(gathered),
        Err(_) => Err(CrewError::NoMemory),
    }
}
