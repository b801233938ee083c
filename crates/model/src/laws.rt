//! The laws of the definitions. Each function does nothing: its contract is a law, proved of all lawful holdings.

ghost use Rattle.model.specs.Laws.DerivationLaws.{BelowIsAChain, UnderIsAChain, ChainsEnd, ChainsAreHeld, BelowBothSets, NoneFromItself, NestOrApart};
ghost use Rattle.model.specs.Laws.TouchLaws.{AccessSays};
ghost use Rattle.model.specs.Laws.IsolationLaws.{StripIsolates, DerivedGoesToo};
ghost use Rattle.model.specs.Laws.StatusLaws.{WordIsTheUnion, StatusIsCleared, OutsideGains, NoBitIsLost};
ghost use Rattle.model.specs.Laws.RecursionLaws.{RecursionIsStrip, StripsJoin};
ghost use Rattle.model.specs.Laws.LawfulLaws.{LawfulMeans, DerivedHoldsNoMore, TouchKeepsLawful, StripKeepsLawful, MapKeepsLawful, GrantKeepsLawful, RequestKeepsLawful, StartIsLawful, ReplayIsLawful};
ghost use Rattle.model.specs.Laws.SendLaws.{PairsOfAnItem, MapSays, GrantSays, MapPassesStatus, GrantPassesStatus, GrantMovesAll, CountsAddUp};
ghost use Rattle.model.specs.Laws.TextLaws.{DecimalReadsBack, HexReadsBack, LineIsOfOneMapping, AuditIsOfOneHoldings, LineIsOfOneReply, EndIsOfTwoNumbers, RefusalsAreTold, EndCountsReplies, TextIsOfOneResult};
ghost use Rattle.model.specs.Laws.FateLaws.{FateSays, CountsSay, SendsJoin, RepliesAddUp};
ghost use Rattle.model.specs.Laws.UnmapLaws.{UnmapNamesItsOwn, UnmapSays, UnmapsJoin};
ghost use Rattle.model.specs.Laws.ClearLaws.{ClearSays, ClearIsUnmap};
ghost use Rattle.model.specs.Laws.RefusalLaws.{SendRefusals, UnmapRefusals, ClearRefusals, AccessRefusals};
ghost use Rattle.model.specs.Laws.KeptStatusLaws.{CallKeepsBits, ReplayKeepsBits, BitsComeFromAccesses};
ghost use Rattle.model.specs.Laws.ChangeLaws.{ChangesSay, ChangesTellEachOnce, ChangesMissNoPage, ChangesAreEnough, AccessChangesNoTable, TablesFollow, TablesFollowFromStart, RevokedIsInNoTable};
ghost use Rattle.model.specs.Laws.ReplayLaws.{RefusedChangesNothing, FaultChangesNothing, NoPageNamed, NilpageSends, NothingAsked, StartSays, ReplaysJoin};

/// What derived means.
pub fn derivation()
    ensures below_is_a_chain { BelowIsAChain }
    ensures under_is_a_chain { UnderIsAChain }
    ensures chains_end { ChainsEnd }
    ensures chains_are_held { ChainsAreHeld }
    ensures below_both_sets { BelowBothSets }
    ensures none_from_itself { NoneFromItself }
    ensures nest_or_apart { NestOrApart }
{}

/// What an access does to each page.
pub fn accesses()
    ensures access_says { AccessSays }
{}

/// What strip does to each page.
pub fn isolation()
    ensures strip_isolates { StripIsolates }
    ensures derived_goes_too { DerivedGoesToo }
{}

/// Where status goes: it is lost nowhere.
pub fn status()
    ensures word_is_the_union { WordIsTheUnion }
    ensures status_is_cleared { StatusIsCleared }
    ensures outside_gains { OutsideGains }
    ensures no_bit_is_lost { NoBitIsLost }
{}

/// The recursion is the set definition.
pub fn recursion()
    ensures recursion_is_strip { RecursionIsStrip }
    ensures strips_join { StripsJoin }
{}

/// Holdings stay lawful, whatever is done.
pub fn lawful()
    ensures lawful_means { LawfulMeans }
    ensures derived_holds_no_more { DerivedHoldsNoMore }
    ensures touch_keeps_lawful { TouchKeepsLawful }
    ensures strip_keeps_lawful { StripKeepsLawful }
    ensures map_keeps_lawful { MapKeepsLawful }
    ensures grant_keeps_lawful { GrantKeepsLawful }
    ensures request_keeps_lawful { RequestKeepsLawful }
    ensures start_is_lawful { StartIsLawful }
    ensures replay_is_lawful { ReplayIsLawful }
{}

/// What becomes of each pair of an item, and where it is counted.
pub fn outcomes()
    ensures fate_says { FateSays }
    ensures counts_say { CountsSay }
    ensures sends_join { SendsJoin }
    ensures replies_add_up { RepliesAddUp }
{}

/// What becomes of each page by an item of a send.
pub fn sends()
    ensures pairs_of_an_item { PairsOfAnItem }
    ensures map_says { MapSays }
    ensures grant_says { GrantSays }
    ensures map_passes_status { MapPassesStatus }
    ensures grant_passes_status { GrantPassesStatus }
    ensures grant_moves_all { GrantMovesAll }
    ensures counts_add_up { CountsAddUp }
{}

/// What an unmap takes and answers.
pub fn unmaps()
    ensures unmap_names_its_own { UnmapNamesItsOwn }
    ensures unmap_says { UnmapSays }
    ensures unmaps_join { UnmapsJoin }
{}

/// What a clear takes and answers.
pub fn clears()
    ensures clear_says { ClearSays }
    ensures clear_is_unmap { ClearIsUnmap }
{}

/// No status bit is lost, over whole calls and whole replays.
pub fn kept_status()
    ensures call_keeps_bits { CallKeepsBits }
    ensures replay_keeps_bits { ReplayKeepsBits }
    ensures bits_come_from_accesses { BitsComeFromAccesses }
{}

/// Why a call is refused.
pub fn refusals()
    ensures send_refusals { SendRefusals }
    ensures unmap_refusals { UnmapRefusals }
    ensures clear_refusals { ClearRefusals }
    ensures access_refusals { AccessRefusals }
{}

/// What changes nothing, and what a replay of two traces is.
pub fn replays()
    ensures refused_changes_nothing { RefusedChangesNothing }
    ensures fault_changes_nothing { FaultChangesNothing }
    ensures no_page_named { NoPageNamed }
    ensures nilpage_sends { NilpageSends }
    ensures nothing_asked { NothingAsked }
    ensures start_says { StartSays }
    ensures replays_join { ReplaysJoin }
{}

/// What a kernel has to change in its page tables.
pub fn changes()
    ensures changes_say { ChangesSay }
    ensures changes_tell_each_once { ChangesTellEachOnce }
    ensures changes_miss_no_page { ChangesMissNoPage }
    ensures changes_are_enough { ChangesAreEnough }
    ensures access_changes_no_table { AccessChangesNoTable }
    ensures tables_follow { TablesFollow }
    ensures tables_follow_from_start { TablesFollowFromStart }
    ensures revoked_is_in_no_table { RevokedIsInNoTable }
{}

/// What is written reads back.
pub fn texts()
    ensures decimal_reads_back { DecimalReadsBack }
    ensures hex_reads_back { HexReadsBack }
    ensures line_is_of_one_mapping { LineIsOfOneMapping }
    ensures audit_is_of_one_holdings { AuditIsOfOneHoldings }
    ensures line_is_of_one_reply { LineIsOfOneReply }
    ensures end_is_of_two_numbers { EndIsOfTwoNumbers }
    ensures refusals_are_told { RefusalsAreTold }
    ensures end_counts_replies { EndCountsReplies }
    ensures text_is_of_one_result { TextIsOfOneResult }
{}
