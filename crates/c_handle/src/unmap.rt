//! Unmaps and flushes.

ghost use Rattle.std.specs.Prelude.{Some};
ghost use Rattle.std.specs.Result.{OnOk};
ghost use Rattle.mapdb.specs.Held.{NotesTell};
ghost use Rattle.c_handle.specs.Asked.{unmap_asked};
ghost use Rattle.c_handle.specs.Called.{IsCalled};
ghost use Rattle.c_handle.specs.Errors.{result_code};
ghost use Rattle.c_handle.specs.Replied.{words_told};

use crate::answer::done;
use crate::asked::UnmapAsked;
use crate::error::CallError;
use crate::kept::Kept;
use crew::Alone;
use fields::read_fpages;
use fpage::{Control, Fpage};
use mapdb::{Reply, Unmap};
use std::alloc::Global;

/// How many words an unmap has at most.
const MOST_WORDS: usize = 64;

/// Takes rights from the pages that words name, and from all that derives from them. Each word comes back with the status
/// found in place of its rights. The words take no memory.
///
/// Refused, the first that fits: a halted database; what `Control::read` refuses; what `Fpage::read` refuses of each word in
/// order; and what `Database::unmap` refuses. Then the words are as they were.
pub fn unmap(
    alloc: Global,
    kept: &mut Kept,
    asked: UnmapAsked,
    words: &mut [u32],
) -> Result<(), CallError>
    ensures called { IsCalled words_told (unmap_asked asked.space asked.control words.old kept.old.database.limits) kept.old.database words.old
        (record { code = result_code result; held = Some kept.new.database; lent = words.new }) }
    ensures told { OnOk result (NotesTell kept.old.database.holdings kept.new.database.holdings kept.old.scratch.notes kept.new.scratch.notes) }
{
    if kept.database.is_halted() {
        return Err(CallError::Halted);
    }
    let bits = kept.database.limits().bits;
    let control = Control::read(asked.control, words.len())?;
    // The control word names as many words as there are, so there is a first.
    let first = Fpage::read(words[0], bits)?;
    let mut fpages = [first; MOST_WORDS];
    read_fpages(words, bits, &mut fpages)?;
    let fpages = &fpages[..words.len()];
    let unmap = Unmap {
        space: asked.space,
        control,
        fpages,
    };
    let reply = done(
        kept.database
            .answer_words(alloc, &unmap, &*words, &mut kept.scratch, &Alone, false),
    )?;
    if let Reply::Unmapped(told) = reply {
        words.copy_from_slice(&told);
    }
    Ok(())
}
