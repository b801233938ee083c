//! A phase of a call that only writes: its pieces find nothing out, so nothing is gathered.

ghost use Rattle.std.specs.Prelude.{◌≡◌, OnOk, IsErrOf, IsFalse};
ghost use Rattle.space.specs.Shards.{is_taken};
ghost use Rattle.crew.specs.declared.error.CrewError.TheVariants.{NoWorker};
ghost use Rattle.holdings.specs.Inner.Words.{CanBeWorkedIn, IsWritten};

use crew::{CrewError, Workers};
use pieces::Piece;
use space::Shards;
use std::alloc::Global;

/// Works the pieces of a phase on the words of the shards, if there are any. Without memory or a worker the words are gone.
pub fn write_phase<W: Workers>(
    alloc: Global,
    shards: &mut Shards,
    pieces: Vec<Piece>,
    workers: &W,
) -> Result<(), CrewError>
    requires present { IsFalse (is_taken shards.old) }
    requires can { CanBeWorkedIn shards.old pieces.items }
    ensures written { OnOk result (IsWritten shards.old shards.new pieces.items) }
    ensures needs_no_worker { W.starts_none workers.now → IsErrOf result NoWorker → ⊥ }
{
    if pieces.is_empty() {
        return Ok(());
    }
    let words = shards.take_words();
    let (words, _) = workers.work(alloc, words, pieces)?;
    shards.put_words(words);
    Ok(())
}
