/// How many pages, of one space, have their words in one shard.
pub const SHARD_PAGES: u32 = 64;
