//! The derivation tree of a frame.

ghost use Rattle.std.specs.Prelude.{◌≡◌, true, false, OnOk, OnErr};
ghost use Rattle.maptree.specs.Origins.{origin_in, renamed};
ghost use Rattle.holdings.specs.Inner.Derivation.{stands_in, IsDerived};

use maptree::Tree;
use space::{NoMemory, Place};
use std::alloc::Global;

/// The place from which a place of the tree derives; none for a root, and for a place that is not in the tree.
pub fn origin(tree: &Tree, place: Place) -> Option<Place>
    ensures { result ≡ origin_in tree.now.links place }
{
    let i = tree.find(place)?;
    tree.place_of_origin(i)
}

/// Puts a place into the tree that derives from another.
///
/// Refused where memory is, `NoMemory`: then the tree is as it was.
pub fn derive(tree: &mut Tree, origin: Place, place: Place) -> Result<(), NoMemory>
    requires origin { stands_in tree.old.links origin ≡ true }
    requires new { stands_in tree.old.links place ≡ false }
    ensures ok { OnOk result (IsDerived tree.old.links tree.new.links origin place) }
    ensures err { OnErr result (tree.new ≡ tree.old) }
{
    tree.reserve(1)?;
    let i = tree.find(origin).unwrap();
    tree.insert_below(i, place);
    Ok(())
}

/// Replaces a place of the tree by another, as a place and as an origin.
pub fn replace(tree: &mut Tree, source: Place, target: Place)
    requires source { stands_in tree.old.links source ≡ true }
    requires target { stands_in tree.old.links target ≡ false }
    ensures { tree.new.links ≡ renamed source target tree.old.links }
{
    let i = tree.find(source).unwrap();
    tree.rename(i, target);
}
