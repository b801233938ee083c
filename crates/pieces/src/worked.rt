//! The worked rows: what pieces are, step by step, worked out by hand. The function does nothing: its contract is the rows.

ghost use Rattle.pieces.specs.Rows.{StepsOfTwoStrips, StripsByStep, StripsWorked, ValuesOfTwoStrips, BeforeAndAfterTwoStrips, UnmapOfARoot, UnmapOfANestedPage, NodesLeftWithoutRights, FoldOfNoStatus, TouchByStep, TouchesAddUp, MoveByStep, MovesClearStatus, LinkWidens, LinksReadWordsAtOpening, LinksOneAfterAnother, NothingMadeOfNothing, MasksOfARun, IndexesOfPieces, ResultsInOrder, DistinctNumbers};

/// Pieces by their steps, the words after each, what each finds out, and what is gathered.
pub fn rows_of_pieces()
    ensures steps_of_two_strips { StepsOfTwoStrips }
    ensures strips_by_step { StripsByStep }
    ensures strips_worked { StripsWorked }
    ensures values_of_two_strips { ValuesOfTwoStrips }
    ensures before_and_after_two_strips { BeforeAndAfterTwoStrips }
    ensures unmap_of_a_root { UnmapOfARoot }
    ensures unmap_of_a_nested_page { UnmapOfANestedPage }
    ensures nodes_left_without_rights { NodesLeftWithoutRights }
    ensures fold_of_no_status { FoldOfNoStatus }
    ensures touch_by_step { TouchByStep }
    ensures touches_add_up { TouchesAddUp }
    ensures move_by_step { MoveByStep }
    ensures moves_clear_status { MovesClearStatus }
    ensures link_widens { LinkWidens }
    ensures links_read_words_at_opening { LinksReadWordsAtOpening }
    ensures links_one_after_another { LinksOneAfterAnother }
    ensures nothing_made_of_nothing { NothingMadeOfNothing }
    ensures masks_of_a_run { MasksOfARun }
    ensures indexes_of_pieces { IndexesOfPieces }
    ensures results_in_order { ResultsInOrder }
    ensures distinct_numbers { DistinctNumbers }
{}
