//! The laws of pieces. A function here does nothing: its contract is the laws.

ghost use Rattle.pieces.specs.Laws.{WordsAreAsMany, EachWordAfter, NothingDone, WorkedIsAllSteps, FullCountsAreWorked, OneWriterDecides, NoWriterAdds, StepsWriteWhatChanges, StepsAreApart, StepsOneAfterAnother, WorkedArePacks, HeldAreSpared, WorkedOneAfterAnother, OthersCanBeWorked, OthersFindTheSame, AccessesInListOrder, TouchesInPieces, LinksInPieces, MovesInPieces, LinksInPiecesChange, MovesInPiecesChange, StripsJoin, StripsInPieces, GatheredAreValues};

/// Words after steps, in whatever order these were done.
pub fn words_after_steps()
    ensures words_are_as_many { WordsAreAsMany }
    ensures each_word_after { EachWordAfter }
    ensures nothing_done { NothingDone }
    ensures worked_is_all_steps { WorkedIsAllSteps }
    ensures full_counts_are_worked { FullCountsAreWorked }
{}

/// Steps that write, and steps that add bits.
pub fn steps_apart()
    ensures one_writer_decides { OneWriterDecides }
    ensures no_writer_adds { NoWriterAdds }
    ensures steps_write_what_changes { StepsWriteWhatChanges }
    ensures steps_are_apart { StepsAreApart }
{}

/// Pieces one after another.
pub fn pieces_in_turn()
    ensures steps_one_after_another { StepsOneAfterAnother }
    ensures worked_are_packs { WorkedArePacks }
    ensures held_are_spared { HeldAreSpared }
    ensures worked_one_after_another { WorkedOneAfterAnother }
    ensures others_can_be_worked { OthersCanBeWorked }
    ensures others_find_the_same { OthersFindTheSame }
{}

/// Work in pieces of any length is the work of the whole.
pub fn work_in_pieces()
    ensures accesses_in_list_order { AccessesInListOrder }
    ensures touches_in_pieces { TouchesInPieces }
    ensures links_in_pieces { LinksInPieces }
    ensures moves_in_pieces { MovesInPieces }
    ensures links_in_pieces_change { LinksInPiecesChange }
    ensures moves_in_pieces_change { MovesInPiecesChange }
    ensures strips_join { StripsJoin }
    ensures strips_in_pieces { StripsInPieces }
{}

/// What is gathered.
pub fn gathered_values()
    ensures { GatheredAreValues }
{}
