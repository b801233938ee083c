//! A list of nodes of which many get another place in one pass.

ghost use Rattle.std.specs.Prelude.{◌≡◌};
ghost use Rattle.maptree.specs.PlaceMaps.{place_for};
ghost use Rattle.maptree.specs.Renamings.{nodes_renamed};

use crate::place_map::PlaceMap;
use space::Node;

/// Each node whose place has one in the map gets that.
pub fn replace_places(nodes: &mut [Node], new: &PlaceMap)
    ensures { nodes.new ≡ nodes_renamed (place_for new.now) nodes.old }
{
    for node in nodes.iter_mut() {
        if let Some(place) = new.get(node.place) {
            node.place = place;
        }
    }
}
