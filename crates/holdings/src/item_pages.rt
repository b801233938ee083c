ghost use Rattle.std.specs.Prelude.{◌≡◌, ◌+◌, ◌<◌, ◌^◌};
ghost use Rattle.holdings.specs.Sending.{page_on};

use fpage::{ItemKind, Rights};
use space::Place;

/// The pages of an item between two spaces: so many pages from a source on, each with its target, and the rights that the
/// item lets through.
#[derive(Clone, Copy, Debug, PartialEq, Eq)]
pub struct ItemPages {
    pub kind: ItemKind,
    pub rights: Rights,
    /// The first source.
    pub source: Place,
    /// The target of the first source.
    pub target: Place,
    /// How many pages there are.
    pub count: u32,
}

impl ItemPages {
    ghost use Rattle.std.specs.Prelude.{◌≡◌, ◌+◌, ◌<◌, ◌^◌};
    ghost use Rattle.holdings.specs.Sending.{page_on};

    /// The page so far behind the first source, and its target.
    pub fn pair(&self, i: u32) -> (Place, Place)
        requires source { self.now.source.page + i < 2 ^ 32 }
        requires target { self.now.target.page + i < 2 ^ 32 }
        ensures { result ≡ (page_on self.now.source i, page_on self.now.target i) }
    {
        (page_on(self.source, i), page_on(self.target, i))
    }
}

/// The page so far behind a first page.
fn page_on(first: Place, i: u32) -> Place
    requires { first.page + i < 2 ^ 32 }
    ensures { result ≡ page_on first i }
{
    Place {
        page: first.page + i,
        ..first
    }
}
