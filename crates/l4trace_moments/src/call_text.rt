//! Calls, in sentences.

use fpage::{Access, Fpage, Item, ItemKind, Pairing, Rights, pair};
use l4trace_texts::push_rights;
use mapdb::Call;
use space::Place;
use std::alloc::AllocError;
use std::fmt::Write;

/// Appends what a call asks for.
pub fn push_call(text: &mut String, call: &Call) -> Result<(), AllocError> {
    match call {
        Call::Send {
            from,
            to,
            window,
            items,
        } => {
            write!(text, "space {from} sends to space {to}: it ")?;
            push_items(text, window, items)
        }
        Call::Access { place, access } => push_access(text, *place, *access),
        Call::Unmap {
            space,
            control,
            words: _,
            fpages,
        } => {
            write!(text, "space {space} takes from ")?;
            text.push_str(if control.is_flush() {
                "its pages and from all that derives from them: "
            } else {
                "all that derives from its pages: "
            })?;
            push_revoked(text, fpages)
        }
        Call::Clear { space } => {
            write!(
                text,
                "space {space} is deleted: it loses all pages, and so does all that derives from them"
            )
        }
    }
}

/// Appends what each of some items sends into a window.
fn push_items(text: &mut String, window: &Fpage, items: &[Item]) -> Result<(), AllocError> {
    for (i, item) in items.iter().enumerate() {
        text.push_str(if i > 0 { "; it " } else { "" })?;
        text.push_str(match item.kind {
            ItemKind::Map => "maps ",
            ItemKind::Grant => "grants ",
        })?;
        if window.is_nil() || item.sent.is_nil() {
            text.push_str("nothing")?;
            continue;
        }
        let Pairing {
            source,
            target,
            count,
        } = pair(item, window);
        push_pages(text, source, count)?;
        text.push_str(" to ")?;
        push_pages(text, target, count)?;
        text.push_str(" with ")?;
        push_rights(text, item.sent.rights())?;
    }
    Ok(())
}

/// Appends which page is accessed, and how.
fn push_access(text: &mut String, place: Place, access: Access) -> Result<(), AllocError> {
    let Place { space, page } = place;
    let verb = match access {
        Access::Read => "reads",
        Access::Write => "writes",
        Access::Execute => "executes",
    };
    write!(text, "space {space} {verb} page {page}")
}

/// Appends which rights are revoked of which pages.
fn push_revoked(text: &mut String, fpages: &[Fpage]) -> Result<(), AllocError> {
    for (i, fpage) in fpages.iter().enumerate() {
        text.push_str(if i > 0 { "; " } else { "" })?;
        if fpage.rights().is_empty() {
            text.push_str("nothing")?;
        } else {
            push_rights(text, fpage.rights())?;
        }
        text.push_str(" of ")?;
        push_fpage(text, *fpage)?;
    }
    Ok(())
}

/// Appends the pages of an fpage.
pub fn push_fpage(text: &mut String, fpage: Fpage) -> Result<(), AllocError> {
    let pages = fpage.pages();
    push_pages(text, pages.start, pages.end.saturating_sub(pages.start))
}

/// Appends so many pages from one on.
fn push_pages(text: &mut String, first: u32, count: u32) -> Result<(), AllocError> {
    match count {
        0 => text.push_str("no page"),
        1 => write!(text, "page {first}"),
        _ => {
            let last = first.saturating_add(count.saturating_sub(1));
            write!(text, "pages {first} to {last}")
        }
    }
}
