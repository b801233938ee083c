//! The laws of whole phases: words worked in pieces, in whatever order and by whatever, are what the definitions make of the
//! holdings. The function does nothing: its contract is the laws.

ghost use Rattle.holdings.specs.Inner.Phases.{TouchesAreAccesses, PlannedStripsAreStrips, StoresAreMapped, PairsAreMoved};

/// The pieces of each phase can be worked beside one another; and what they make of the words, with what they find out, is
/// the access, strip, map or grant of the definitions, whatever the length of the pieces.
pub fn phases_in_pieces()
    ensures touches_are_accesses { TouchesAreAccesses }
    ensures planned_strips_are_strips { PlannedStripsAreStrips }
    ensures stores_are_mapped { StoresAreMapped }
    ensures pairs_are_moved { PairsAreMoved }
{}
