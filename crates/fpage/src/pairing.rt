ghost use Rattle.std.specs.Prelude.{◌≡◌, ℕ, ◌<◌};
ghost use Rattle.fpage.specs.Item.{is_pair, is_pair_of, pairs_of, run_start};

use crate::item::Item;
use crate::word::Fpage;

/// Which page goes to which: page `source + i` to page `target + i`, for each `i` below `count`.
#[derive(Clone, Copy, Debug, PartialEq, Eq)]
pub struct Pairing {
    pub source: u32,
    pub target: u32,
    pub count: u32,
}

/// The pages of an item, and those of the window that they go to (L4 X.2, MapItem, GrantItem).
///
/// The smaller of the two has all its pages paired, and the send base picks the part of the larger that they pair with.
/// A nilpage has no pairs.
pub fn pair(item: &Item, window: &Fpage) -> Pairing
    requires window { 0 < window.now.count }
    ensures runs { result ≡ pairs_of item.now window.now }
    ensures pairs { (p q : ℕ) → is_pair_of result p q ≡ is_pair item.now window.now p q }
{
    let sources = item.sent.pages();
    let targets = window.pages();
    let count = (sources.end - sources.start).min(targets.end - targets.start);
    Pairing {
        source: run_start(item.base, item.sent, count),
        target: run_start(item.base, *window, count),
        count,
    }
}

/// The first page of the run of `count` pages that the send base picks of an fpage (L4 X.2, MapItem).
///
/// In a larger fpage this is the send base modulo its size, rounded down to a multiple of `count`.
fn run_start(base: u32, fpage: Fpage, count: u32) -> u32
    ensures { result ≡ run_start base fpage count }
{
    let pages = fpage.pages();
    let size = pages.end - pages.start;
    if count == 0 || size <= count {
        return pages.start;
    }
    pages.start + base % size / count * count
}
