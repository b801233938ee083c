//! The laws of the rule. The function does nothing: its contract is the laws.

ghost use Rattle.turns.specs.Laws.{OpeningMeetsTheRule, StepsKeepTheRule, DealingKeepsTheRule, TakingBackKeepsTheRule, AllCountsTellTheWords, BitsOfSharedWordsAreTold, EnteringKeepsTheRule, LooksKeepTheRule, TellingKeepsTheRule, ChangesAreForGood, EndedPiecesHaveChanged, MomentsGoOn};

/// The rule holds at opening, every step keeps it, and so do the dealing and the taking back of seats. Between any two steps it
/// tells where each bit comes from of a shared word that no step writes.
pub fn the_rule_is_kept()
    ensures opening_meets_the_rule { OpeningMeetsTheRule }
    ensures steps_keep_the_rule { StepsKeepTheRule }
    ensures dealing_keeps_the_rule { DealingKeepsTheRule }
    ensures taking_back_keeps_the_rule { TakingBackKeepsTheRule }
    ensures all_counts_tell_the_words { AllCountsTellTheWords }
    ensures bits_of_shared_words_are_told { BitsOfSharedWordsAreTold }
{}

/// Watchers come, look, and are told that a piece has ended: all of this keeps the rule. Between any two steps an
/// entry is as before all of them, or it is as after them for good. The looks of a watcher are of moments that go on.
pub fn watchers_keep_the_rule()
    ensures entering_keeps_the_rule { EnteringKeepsTheRule }
    ensures looks_keep_the_rule { LooksKeepTheRule }
    ensures telling_keeps_the_rule { TellingKeepsTheRule }
    ensures changes_are_for_good { ChangesAreForGood }
    ensures ended_pieces_have_changed { EndedPiecesHaveChanged }
    ensures moments_go_on { MomentsGoOn }
{}
