//! The worked rows: what short traces write, and what the definitions of words and holdings give, each worked out by
//! hand. Each function does nothing: its contract is a table of rows.

ghost use Rattle.model.specs.Rows.RowsOfWords.{SmallestFpageIntoCompleteWindow, SendBasePicksPageOfWindow, WindowCutsLargerFpage, HalfOfPagesHeld, CompleteSpaceSent, NilpageSent, SizesOfWords, IgnoredBits, FirstWordsOfItems, BlocksOfLargerSide, PairsByRuns, SpaceOfOddBits, EachBitOfSendBase, SendBasePicksSources, SizeSpellsNoOtherPages, SizesBelowAPage, BasesWithoutSize, SizesFromAPage, SizesPastTheSpace, BasesPastTheSpace, BasesBetweenPages, LastPagesOfSpaces, PagesPastSpaces, CompleteSpaces, Nilpages, PagesOfWords, PagesOfFpages, SetsByNumber, BitsOfRights, SetsMet, SetsJoined, SetsWithout, SetsWithin, ItemsOfWords, LastDigitsOfItems, ControlWordsTaken, NumbersOfControlWords, BitsOfControlWords, ControlWordsTold, StatusInPlaceOfRights, PairsOfBlocks};
ghost use Rattle.model.specs.Rows.RowsOfRecords.{RefusalsByName, AccessFields, SendRefusalsInOrder, UnmapRefusalsInOrder, NumbersOfWords, QuotedFields, DigitsOfAddresses, BytesThatAreNoDigits, KindsOfAccess, NamesOfRecords, SpacesOfRecords, LengthsOfWords, FieldsMissing, RefusalsOfOneRecord};
ghost use Rattle.model.specs.Rows.RowsOfHeaders.{HeadersOfRightForm, HeadersOfWrongForm, LimitsPassed, BitsOfHeaders, FramesPastSpaces, FieldsOfHeaders};
ghost use Rattle.model.specs.Rows.RowsOfText.{WholeRun, RunOfLargestSpaces, RunOfHeaderAlone, RunCutOff, RefusalsAreCounted, NumbersOfTwelveSpaces, LongRun, HexadecimalDigits, EachSetOfRights, FrameOfThreeDigits, CountsOfManyPairs, SixteenPairsAreLost, StatusAsItIsWritten};
ghost use Rattle.model.specs.Rows.RowsOfAccess.{AccessAnswers, AccessesAddUp, EachRightAlone, EachTwoKinds, OnePageAlone};
ghost use Rattle.model.specs.Rows.RowsOfUnmaps.{UnmapNarrowsDerivedAlone, StatusGoesToOutsideOrigin, NestedMappingInOwnSpace, BranchesAddToOneOrigin, UnmapOfNilpage, CompleteUnmapRemovesAll, FlushByTwoWords, TwoWordsInOrder, StatusOfRootEnds, StatusAlone, SiblingKeepsItsStatus, FlushNarrowsCaller, UnmapOfNothingHeld, StatusGoesOneOriginUp, WordsOfSeveralPages, EachRightRevoked, MappingsLeftWithoutRights, BranchBesideStays, DeepChainIsNarrowed, RemovedPagesPassStatusOn, UnmapOfTwoOrigins};
ghost use Rattle.model.specs.Rows.RowsOfClears.{ClearTakesWhatDerives, NoClearInVersion1, RunWithClears, ClearSparesGranted, ClearOfEmptySpace, ClearTakesNestedMapping, ClearPassesStatusToEachOrigin, AccessesRoundClear, ClearLeavesOtherSpaces, ClearOfFirstSpace, FormsOfClears};
ghost use Rattle.model.specs.Rows.RowsOfOutcomes.{EachOutcome, WithheldRightsAreNoRights, NoRightsComesFirst, OriginIsNotReplaced, DistantOriginIsNotReplaced, DistantDerivedIsReplaced, FlushedSourceIsLost, ExtendingPairIsLost, TargetOfLostPairIsGone, TwoItemsInOrder, SecondItemSeesFirst, AbsentComesFirst, OriginAtEachDistance, OriginOfEightMappings, NoRightsOfFlushedSource, OriginOfFlushedSource, SecondItemTellsOrigin, CountsOfItemsAddUp};
ghost use Rattle.model.specs.Rows.RowsOfMaps.{SecondMapExtends, ReplacedTargetTakesItsDerived, ExtendKeepsStatusAndDerived, FlushPassesStatusOn, ExtensionBesideFlush, ReplacedTargetPassesAllStatus, SourceGainsByFlush, ExtensionGainsWhatSourceHas, ExtensionGainsWhatFpageNames, ReplacedTargetLeavesNoRight, SourceKeepsStatus, RootIsReplaced};
ghost use Rattle.model.specs.Rows.RowsOfGrants.{GrantMovesAndNarrows, GrantRenamesAllAtOnce, RootIsGranted, GrantReplacesTarget, GrantOntoOwnDerived, GrantOfFlushedSourceIsLost, GrantRemovesWhatIsWithheld, GrantPassesStatusOn, SendBasesOfGrants, GrantPassesStatusOfTarget, GrantOntoOwnDerivedPassesStatus, GrantLeavesOtherStatus, GrantRenamesEachOrigin, GrantOfSeveralPages};
ghost use Rattle.model.specs.Rows.RowsOfHoldings.{LawfulHoldings, UnlawfulHoldings, PlacesUnderSets, LongestLawfulChain, UnlawfulAmongOthers, OrderOfPlaces, SamePlaces};
ghost use Rattle.model.specs.Rows.RowsOfRecursion.{NestedMappingByRecursion, NestedMappingOfHigherPage, StatusByRecursion, NestedStatusOfLowerPage, NestedStatusOfHigherPage, FlushByRecursion, FlushOfNestedByRecursion, FlushOfNestedHigherPage, BranchesByRecursion, DeepChainByRecursion, OriginGainsByRecursion};
ghost use Rattle.model.specs.Rows.RowsOfChanges.{MapSetsTarget, GrantRemovesSource, UnmapChangesWhatDerives, FlushRemovesChain, ExtensionSetsTarget, StatusChangesNothing, ReplacedTargetRemovesItsDerived, OriginChangesNothing, ChangesOfHoldings, ChangesInOrder, TablesAfterCalls};

/// Words: which pages fpages and items name, and what is refused of them.
pub fn rows_of_words()
    ensures smallest_fpage_into_complete_window { SmallestFpageIntoCompleteWindow }
    ensures send_base_picks_page_of_window { SendBasePicksPageOfWindow }
    ensures window_cuts_larger_fpage { WindowCutsLargerFpage }
    ensures half_of_pages_held { HalfOfPagesHeld }
    ensures complete_space_sent { CompleteSpaceSent }
    ensures nilpage_sent { NilpageSent }
    ensures sizes_of_words { SizesOfWords }
    ensures ignored_bits { IgnoredBits }
    ensures first_words_of_items { FirstWordsOfItems }
    ensures blocks_of_larger_side { BlocksOfLargerSide }
    ensures pairs_by_runs { PairsByRuns }
    ensures space_of_odd_bits { SpaceOfOddBits }
    ensures each_bit_of_send_base { EachBitOfSendBase }
    ensures send_base_picks_sources { SendBasePicksSources }
    ensures size_spells_no_other_pages { SizeSpellsNoOtherPages }
    ensures sizes_below_a_page { SizesBelowAPage }
    ensures bases_without_size { BasesWithoutSize }
    ensures sizes_from_a_page { SizesFromAPage }
    ensures sizes_past_the_space { SizesPastTheSpace }
    ensures bases_past_the_space { BasesPastTheSpace }
    ensures bases_between_pages { BasesBetweenPages }
    ensures last_pages_of_spaces { LastPagesOfSpaces }
    ensures pages_past_spaces { PagesPastSpaces }
    ensures complete_spaces { CompleteSpaces }
    ensures nilpages { Nilpages }
    ensures pages_of_words { PagesOfWords }
    ensures pages_of_fpages { PagesOfFpages }
    ensures sets_by_number { SetsByNumber }
    ensures bits_of_rights { BitsOfRights }
    ensures sets_met { SetsMet }
    ensures sets_joined { SetsJoined }
    ensures sets_without { SetsWithout }
    ensures sets_within { SetsWithin }
    ensures items_of_words { ItemsOfWords }
    ensures last_digits_of_items { LastDigitsOfItems }
    ensures control_words_taken { ControlWordsTaken }
    ensures numbers_of_control_words { NumbersOfControlWords }
    ensures bits_of_control_words { BitsOfControlWords }
    ensures control_words_told { ControlWordsTold }
    ensures status_in_place_of_rights { StatusInPlaceOfRights }
    ensures pairs_of_blocks { PairsOfBlocks }
{}

/// Records: the forms of fields, and which refusal comes first.
pub fn rows_of_records()
    ensures refusals_by_name { RefusalsByName }
    ensures access_fields { AccessFields }
    ensures send_refusals_in_order { SendRefusalsInOrder }
    ensures unmap_refusals_in_order { UnmapRefusalsInOrder }
    ensures numbers_of_words { NumbersOfWords }
    ensures quoted_fields { QuotedFields }
    ensures digits_of_addresses { DigitsOfAddresses }
    ensures bytes_that_are_no_digits { BytesThatAreNoDigits }
    ensures kinds_of_access { KindsOfAccess }
    ensures names_of_records { NamesOfRecords }
    ensures spaces_of_records { SpacesOfRecords }
    ensures lengths_of_words { LengthsOfWords }
    ensures fields_missing { FieldsMissing }
    ensures refusals_of_one_record { RefusalsOfOneRecord }
{}

/// Headers: their form and their limits.
pub fn rows_of_headers()
    ensures headers_of_right_form { HeadersOfRightForm }
    ensures headers_of_wrong_form { HeadersOfWrongForm }
    ensures limits_passed { LimitsPassed }
    ensures bits_of_headers { BitsOfHeaders }
    ensures frames_past_spaces { FramesPastSpaces }
    ensures fields_of_headers { FieldsOfHeaders }
{}

/// Whole runs: all that is written.
pub fn rows_of_text()
    ensures whole_run { WholeRun }
    ensures run_of_largest_spaces { RunOfLargestSpaces }
    ensures run_of_header_alone { RunOfHeaderAlone }
    ensures run_cut_off { RunCutOff }
    ensures refusals_are_counted { RefusalsAreCounted }
    ensures numbers_of_twelve_spaces { NumbersOfTwelveSpaces }
    ensures long_run { LongRun }
    ensures hexadecimal_digits { HexadecimalDigits }
    ensures each_set_of_rights { EachSetOfRights }
    ensures frame_of_three_digits { FrameOfThreeDigits }
    ensures counts_of_many_pairs { CountsOfManyPairs }
    ensures sixteen_pairs_are_lost { SixteenPairsAreLost }
    ensures status_as_it_is_written { StatusAsItIsWritten }
{}

/// Accesses: which right each needs, and which status it leaves.
pub fn rows_of_access()
    ensures access_answers { AccessAnswers }
    ensures accesses_add_up { AccessesAddUp }
    ensures each_right_alone { EachRightAlone }
    ensures each_two_kinds { EachTwoKinds }
    ensures one_page_alone { OnePageAlone }
{}

/// Unmaps: which rights are lost, and where status goes.
pub fn rows_of_unmaps()
    ensures unmap_narrows_derived_alone { UnmapNarrowsDerivedAlone }
    ensures status_goes_to_outside_origin { StatusGoesToOutsideOrigin }
    ensures nested_mapping_in_own_space { NestedMappingInOwnSpace }
    ensures branches_add_to_one_origin { BranchesAddToOneOrigin }
    ensures unmap_of_nilpage { UnmapOfNilpage }
    ensures complete_unmap_removes_all { CompleteUnmapRemovesAll }
    ensures flush_by_two_words { FlushByTwoWords }
    ensures two_words_in_order { TwoWordsInOrder }
    ensures status_of_root_ends { StatusOfRootEnds }
    ensures status_alone { StatusAlone }
    ensures sibling_keeps_its_status { SiblingKeepsItsStatus }
    ensures flush_narrows_caller { FlushNarrowsCaller }
    ensures unmap_of_nothing_held { UnmapOfNothingHeld }
    ensures status_goes_one_origin_up { StatusGoesOneOriginUp }
    ensures words_of_several_pages { WordsOfSeveralPages }
    ensures each_right_revoked { EachRightRevoked }
    ensures mappings_left_without_rights { MappingsLeftWithoutRights }
    ensures branch_beside_stays { BranchBesideStays }
    ensures deep_chain_is_narrowed { DeepChainIsNarrowed }
    ensures removed_pages_pass_status_on { RemovedPagesPassStatusOn }
    ensures unmap_of_two_origins { UnmapOfTwoOrigins }
{}

/// Clears: which mappings are gone, and where status goes.
pub fn rows_of_clears()
    ensures clear_takes_what_derives { ClearTakesWhatDerives }
    ensures no_clear_in_version_1 { NoClearInVersion1 }
    ensures run_with_clears { RunWithClears }
    ensures clear_spares_granted { ClearSparesGranted }
    ensures clear_of_empty_space { ClearOfEmptySpace }
    ensures clear_takes_nested_mapping { ClearTakesNestedMapping }
    ensures clear_passes_status_to_each_origin { ClearPassesStatusToEachOrigin }
    ensures accesses_round_clear { AccessesRoundClear }
    ensures clear_leaves_other_spaces { ClearLeavesOtherSpaces }
    ensures clear_of_first_space { ClearOfFirstSpace }
    ensures forms_of_clears { FormsOfClears }
{}

/// Sends: what becomes of each pair, and how it is counted.
pub fn rows_of_outcomes()
    ensures each_outcome { EachOutcome }
    ensures withheld_rights_are_no_rights { WithheldRightsAreNoRights }
    ensures no_rights_comes_first { NoRightsComesFirst }
    ensures origin_is_not_replaced { OriginIsNotReplaced }
    ensures distant_origin_is_not_replaced { DistantOriginIsNotReplaced }
    ensures distant_derived_is_replaced { DistantDerivedIsReplaced }
    ensures flushed_source_is_lost { FlushedSourceIsLost }
    ensures extending_pair_is_lost { ExtendingPairIsLost }
    ensures target_of_lost_pair_is_gone { TargetOfLostPairIsGone }
    ensures two_items_in_order { TwoItemsInOrder }
    ensures second_item_sees_first { SecondItemSeesFirst }
    ensures absent_comes_first { AbsentComesFirst }
    ensures origin_at_each_distance { OriginAtEachDistance }
    ensures origin_of_eight_mappings { OriginOfEightMappings }
    ensures no_rights_of_flushed_source { NoRightsOfFlushedSource }
    ensures origin_of_flushed_source { OriginOfFlushedSource }
    ensures second_item_tells_origin { SecondItemTellsOrigin }
    ensures counts_of_items_add_up { CountsOfItemsAddUp }
{}

/// MapItems: what the receiver holds afterwards.
pub fn rows_of_maps()
    ensures second_map_extends { SecondMapExtends }
    ensures replaced_target_takes_its_derived { ReplacedTargetTakesItsDerived }
    ensures extend_keeps_status_and_derived { ExtendKeepsStatusAndDerived }
    ensures flush_passes_status_on { FlushPassesStatusOn }
    ensures extension_beside_flush { ExtensionBesideFlush }
    ensures replaced_target_passes_all_status { ReplacedTargetPassesAllStatus }
    ensures source_gains_by_flush { SourceGainsByFlush }
    ensures extension_gains_what_source_has { ExtensionGainsWhatSourceHas }
    ensures extension_gains_what_fpage_names { ExtensionGainsWhatFpageNames }
    ensures replaced_target_leaves_no_right { ReplacedTargetLeavesNoRight }
    ensures source_keeps_status { SourceKeepsStatus }
    ensures root_is_replaced { RootIsReplaced }
{}

/// GrantItems: what moves, and what is lost by it.
pub fn rows_of_grants()
    ensures grant_moves_and_narrows { GrantMovesAndNarrows }
    ensures grant_renames_all_at_once { GrantRenamesAllAtOnce }
    ensures root_is_granted { RootIsGranted }
    ensures grant_replaces_target { GrantReplacesTarget }
    ensures grant_onto_own_derived { GrantOntoOwnDerived }
    ensures grant_of_flushed_source_is_lost { GrantOfFlushedSourceIsLost }
    ensures grant_removes_what_is_withheld { GrantRemovesWhatIsWithheld }
    ensures grant_passes_status_on { GrantPassesStatusOn }
    ensures send_bases_of_grants { SendBasesOfGrants }
    ensures grant_passes_status_of_target { GrantPassesStatusOfTarget }
    ensures grant_onto_own_derived_passes_status { GrantOntoOwnDerivedPassesStatus }
    ensures grant_leaves_other_status { GrantLeavesOtherStatus }
    ensures grant_renames_each_origin { GrantRenamesEachOrigin }
    ensures grant_of_several_pages { GrantOfSeveralPages }
{}

/// Holdings: which are lawful, and what derives from what.
pub fn rows_of_holdings()
    ensures lawful_holdings { LawfulHoldings }
    ensures unlawful_holdings { UnlawfulHoldings }
    ensures places_under_sets { PlacesUnderSets }
    ensures longest_lawful_chain { LongestLawfulChain }
    ensures unlawful_among_others { UnlawfulAmongOthers }
    ensures order_of_places { OrderOfPlaces }
    ensures same_places { SamePlaces }
{}

/// The recursion, each row by strip as well.
pub fn rows_of_recursion()
    ensures nested_mapping_by_recursion { NestedMappingByRecursion }
    ensures nested_mapping_of_higher_page { NestedMappingOfHigherPage }
    ensures status_by_recursion { StatusByRecursion }
    ensures nested_status_of_lower_page { NestedStatusOfLowerPage }
    ensures nested_status_of_higher_page { NestedStatusOfHigherPage }
    ensures flush_by_recursion { FlushByRecursion }
    ensures flush_of_nested_by_recursion { FlushOfNestedByRecursion }
    ensures flush_of_nested_higher_page { FlushOfNestedHigherPage }
    ensures branches_by_recursion { BranchesByRecursion }
    ensures deep_chain_by_recursion { DeepChainByRecursion }
    ensures origin_gains_by_recursion { OriginGainsByRecursion }
{}

/// Changes: what a kernel has to change in its page tables.
pub fn rows_of_changes()
    ensures map_sets_target { MapSetsTarget }
    ensures grant_removes_source { GrantRemovesSource }
    ensures unmap_changes_what_derives { UnmapChangesWhatDerives }
    ensures flush_removes_chain { FlushRemovesChain }
    ensures extension_sets_target { ExtensionSetsTarget }
    ensures status_changes_nothing { StatusChangesNothing }
    ensures replaced_target_removes_its_derived { ReplacedTargetRemovesItsDerived }
    ensures origin_changes_nothing { OriginChangesNothing }
    ensures changes_of_holdings { ChangesOfHoldings }
    ensures changes_in_order { ChangesInOrder }
    ensures tables_after_calls { TablesAfterCalls }
{}
