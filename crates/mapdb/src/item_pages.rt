//! The pages of an item.

ghost use Rattle.std.specs.Prelude.{◌≡◌, ℕ, ◌<◌};
ghost use Rattle.fpage.specs.Fpage.{IsFpageOf};
ghost use Rattle.model.specs.Definitions.Items.{job_of};
ghost use Rattle.holdings.specs.Sending.{job_of_pages};
ghost use Rattle.mapdb.specs.Sending.{FitsIn};

use crate::call::Sending;
use fpage::{Item, pair};
use holdings::ItemPages;
use space::Place;

/// The pages of an item of a send. The rights of the window are ignored (profile).
pub fn item_pages(send: &Sending<'_>, item: &Item) -> ItemPages
    requires window { 0 < send.now.window.count }
    ensures job { job_of_pages result ≡ job_of send.now.from send.now.to send.now.window item.now }
    ensures source { result.source.space ≡ send.now.from }
    ensures target { result.target.space ≡ send.now.to }
    ensures within { (bits : ℕ) → IsFpageOf bits send.now.window → IsFpageOf bits item.now.sent → FitsIn bits result }
{
    let pages = pair(item, &send.window);
    ItemPages {
        kind: item.kind,
        rights: item.sent.rights(),
        source: Place {
            space: send.from,
            page: pages.source,
        },
        target: Place {
            space: send.to,
            page: pages.target,
        },
        count: pages.count,
    }
}
