//! The pages of a space, as a table.

use crate::gone::{gone_count, push_gone};
use crate::lines::push_more;
use crate::mark::{Mark, mark_of, push_origin, push_status, push_was};
use crate::moment::Moment;
use crate::view::View;
use l4trace_texts::push_rights;
use mapdb::Mapping;
use std::alloc::AllocError;
use std::fmt::Write;

/// Appends the pages that a space holds, one a line, of these mappings of it before and after, and then those that it holds
/// no longer. Pages that differ are marked.
pub fn push_table(
    text: &mut String,
    moment: &Moment,
    space: u32,
    before: &[Mapping],
    after: &[Mapping],
    view: &View,
) -> Result<(), AllocError> {
    let pages = 1u32 << (moment.limits.bits.clamp(18, 32) - 12);
    let held = after.len();
    write!(text, "space {space}: {held} of {pages} pages held\n")?;
    text.push_str("     page      base    frame  rights  status  origin\n")?;
    for (i, mapping) in after.iter().enumerate() {
        if i as u64 >= view.most {
            let gone = gone_count(before, &moment.after);
            return push_more(text, (held - i).saturating_add(gone), "mapping");
        }
        push_page(text, mapping, mark_of(mapping, &moment.before))?;
    }
    let room = view.most.saturating_sub(held as u64);
    push_gone(text, before, &moment.after, room)
}

/// Appends the line of a page.
fn push_page(text: &mut String, mapping: &Mapping, mark: Mark) -> Result<(), AllocError> {
    text.push_str(match mark {
        Mark::Same => "  ",
        Mark::Alone => "+ ",
        Mark::Changed(_) => "* ",
    })?;
    let page = mapping.place.page;
    let base = u64::from(page) * 4096;
    let frame = mapping.frame;
    write!(text, "{page:>7}  {base:>8x}  {frame:>7}  ")?;
    push_rights(text, mapping.rights)?;
    text.push_str("     ")?;
    push_status(text, mapping.status)?;
    text.push_str("     ")?;
    push_origin(text, mapping.origin)?;
    if let Mark::Changed(was) = mark {
        push_was(text, mapping, &was)?;
    }
    text.push_str("\n")
}
