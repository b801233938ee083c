//! The laws of the entry word and of shards. A function here does nothing: its contract is the laws.

ghost use Rattle.space.specs.EntryLaws.{UnpackGivesBack, PackGivesBack, WordsAreDistinct, AbsentIsZero, WordFits, FieldsOfWord, OrAddsStatus, PackGainsStatus};
ghost use Rattle.space.specs.ShardLaws.{HeldHaveWords, WordsAreTheirOwn, EntriesFit, ShardsHaveWords, WordsHaveShards};

/// What the word of an entry keeps, and what "or" adds to it.
pub fn entry_words()
    ensures unpack_gives_back { UnpackGivesBack }
    ensures pack_gives_back { PackGivesBack }
    ensures words_are_distinct { WordsAreDistinct }
    ensures absent_is_zero { AbsentIsZero }
    ensures word_fits { WordFits }
    ensures fields_of_word { FieldsOfWord }
    ensures or_adds_status { OrAddsStatus }
    ensures pack_gains_status { PackGainsStatus }
{}

/// Each place has a word of its own, whatever the shards hold, and what they hold is what their words say.
pub fn shard_words()
    ensures held_have_words { HeldHaveWords }
    ensures words_are_their_own { WordsAreTheirOwn }
    ensures entries_fit { EntriesFit }
    ensures shards_have_words { ShardsHaveWords }
    ensures words_have_shards { WordsHaveShards }
{}
