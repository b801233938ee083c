//! A space, cleared of all that it holds.

ghost use Rattle.std.specs.Prelude.{◌≡◌, ◌<◌, true, IfOk, IsErrOf};
ghost use Rattle.fpage.specs.Fpage.{IsSpaceBits, pages_of_space};
ghost use Rattle.fpage.specs.Rights.{all_rights};
ghost use Rattle.model.specs.Definitions.Answers.{in_space};
ghost use Rattle.crew.specs.declared.error.CrewError.TheVariants.{NoWorker};
ghost use Rattle.holdings.specs.Contents.{IsStripped};
ghost use Rattle.holdings.specs.Noting.{NotesFollow};

use crate::call::UnmapWord;
use crate::unmap::unmap_word;
use crew::{CrewError, Workers};
use fpage::{Fpage, Rights};
use holdings::{Holdings, Notes};
use std::alloc::Global;

/// The word of the complete space, with all rights.
const COMPLETE_SPACE: u32 = 0x17;

/// Takes all rights from the pages of a space, and from all that derives from them. Returns their status. Notes the pages
/// that this changes.
///
/// With `plain` by recursion, on the calling thread.
///
/// Refused, where memory or a worker is: `NoMemory`, `NoWorker`.
pub fn clear_space<W: Workers>(
    alloc: Global,
    held: Holdings,
    space: u16,
    notes: &mut Notes,
    workers: &W,
    plain: bool,
) -> Result<(Holdings, Rights), CrewError>
    requires { space < held.limits.spaces }
    ensures stripped { IfOk result (IsStripped held (in_space space) all_rights true) }
    ensures noted { IfOk result (λ r. NotesFollow held.holdings r.0.holdings notes.old notes.new) }
    ensures needs_no_worker { W.starts_none workers.now → IsErrOf result NoWorker → ⊥ }
    ensures plain { plain ≡ true → IsErrOf result NoWorker → ⊥ }
{
    let word = UnmapWord {
        space,
        flush: true,
        fpage: complete_space(held.limits().bits),
    };
    unmap_word(alloc, held, &word, notes, workers, plain)
}

/// The fpage of all pages of a space of `2^bits` bytes, with all rights.
fn complete_space(bits: u32) -> Fpage
    requires { IsSpaceBits bits }
    ensures { result ≡ record { first = 0; count = pages_of_space bits; rights = all_rights } }
{
    match Fpage::read(COMPLETE_SPACE, bits) {
        Ok(complete) => complete,
        Err(_) => unreachable!(),
    }
}
