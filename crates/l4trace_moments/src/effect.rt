//! What a record did to a page.

use crate::error::ShowError;
use crate::page::held_at;
use fpage::{Fpage, Item, ItemKind, Pairing, Rights, pair};
use mapdb::{Database, Mapping};
use space::Place;
use trace::{Call, Refusal};

/// What a record did to a page.
#[derive(Clone, Copy, Debug, PartialEq, Eq)]
pub enum Effect {
    /// It gave the page a mapping.
    Given,
    /// It took the page's mapping.
    Taken,
    /// A grant moved the page's mapping to this page.
    Granted(Place),
    /// It put another mapping in place of the page's.
    Replaced,
    /// A grant moved the page's origin, and may have withheld rights.
    Moved,
    /// A grant of a page above it in its tree withheld rights.
    Withheld,
    /// It gave or took rights otherwise.
    Changed,
}

/// A send, as a record asks for it.
#[derive(Clone, Copy)]
struct Sent<'a> {
    from: u16,
    to: u16,
    window: &'a Fpage,
    items: &'a [Item],
}

/// What a record did to a page, which holds something else than before, in a database that has answered the record.
pub fn effect_of(
    database: &Database,
    asked: &Result<Call, Refusal>,
    before: Option<Mapping>,
    after: Option<Mapping>,
) -> Result<Effect, ShowError> {
    match (before, after) {
        (None, _) => Ok(Effect::Given),
        (Some(old), None) => effect_on_gone(database, asked, &old),
        (Some(old), Some(new)) => effect_on_held(database, asked, &old, &new),
    }
}

/// The send that a record asks for, if it is one.
fn sent_by(asked: &Result<Call, Refusal>) -> Option<Sent<'_>> {
    match asked {
        Ok(
            Call::Send {
                from,
                to,
                window,
                items,
            },
        ) => {
            Some(Sent {
                from: *from,
                to: *to,
                window,
                items,
            })
        }
        _ => None,
    }
}

/// What a record did to a page that held this and holds nothing now.
fn effect_on_gone(
    database: &Database,
    asked: &Result<Call, Refusal>,
    old: &Mapping,
) -> Result<Effect, ShowError> {
    let Some(sent) = sent_by(asked) else {
        return Ok(Effect::Taken);
    };
    for item in sent.items {
        if item.kind != ItemKind::Grant {
            continue;
        }
        let Some(target) = sent.target(item, old.place) else {
            continue;
        };
        let held = held_at(database, target)?;
        if held.is_some_and(|new| sent.has_moved(old, &new)) {
            return Ok(Effect::Granted(target));
        }
    }
    Ok(Effect::Taken)
}

/// What a record did to a page that held one mapping and holds another now.
fn effect_on_held(
    database: &Database,
    asked: &Result<Call, Refusal>,
    old: &Mapping,
    new: &Mapping,
) -> Result<Effect, ShowError> {
    let Some(sent) = sent_by(asked) else {
        return Ok(Effect::Changed);
    };
    if old.frame != new.frame {
        return Ok(Effect::Replaced);
    }
    if old.origin == new.origin {
        return Ok(sent.effect_on_rights(old.rights, new.rights));
    }
    let (Some(origin), true) = (old.origin, sent.moves(old.origin, new.origin)) else {
        return Ok(Effect::Replaced);
    };
    // A page that was granted holds nothing then.
    match held_at(database, origin)? {
        Some(_) => Ok(Effect::Replaced),
        None => Ok(Effect::Moved),
    }
}

impl<'a> Sent<'a> {
    /// The receiver's page that an item pairs with a page, if it is one of the sender's that are sent.
    fn target(&self, item: &Item, source: Place) -> Option<Place> {
        if source.space != self.from || self.window.is_nil() {
            return None;
        }
        let Pairing {
            source: first,
            target,
            count,
        } = pair(item, self.window);
        let index = source.page.checked_sub(first)?;
        if index >= count {
            return None;
        }
        Some(Place {
            space: self.to,
            page: target.checked_add(index)?,
        })
    }

    /// Whether a grant of it pairs one page with another.
    fn moves(&self, source: Option<Place>, target: Option<Place>) -> bool {
        let Some(source) = source else {
            return false;
        };
        target.is_some()
            && self.items.iter().any(|item| {
                item.kind == ItemKind::Grant && self.target(item, source) == target
            })
    }

    /// Whether a mapping may be another one that a grant of it moved.
    fn has_moved(&self, old: &Mapping, new: &Mapping) -> bool {
        old.frame == new.frame && (old.origin == new.origin || self.moves(old.origin, new.origin))
    }

    /// The rights that its grants withhold.
    fn withheld(&self) -> Rights {
        let mut withheld = Rights::none();
        for item in self.items {
            if item.kind == ItemKind::Grant {
                withheld = withheld.join(Rights::all().without(item.sent.rights()));
            }
        }
        withheld
    }

    /// What it did to a page that has its frame from the same page as before.
    fn effect_on_rights(&self, old: Rights, new: Rights) -> Effect {
        let lost = old.without(new);
        if lost.is_empty() {
            Effect::Changed
        } else if lost.without(self.withheld()).is_empty() {
            Effect::Withheld
        } else {
            // Without a grant a send takes rights from a page alone by another mapping.
            Effect::Replaced
        }
    }
}
