ghost use Rattle.std.specs.Prelude.{◌≡◌, ℕ, ◌*◌, ◌+◌, ◌/◌, ◌^◌, ◌<◌, ◌≤◌, ◌++◌, true, length, replicate, slice_index, vec_capacity};
ghost use Rattle.std.specs.Option.{ForSome};
ghost use Rattle.std.specs.Int.{div_ceil};
ghost use Rattle.space.specs.Directory.{AreLimits, AreLive, AreWords, offset_of, shards_of};
ghost use Rattle.space.specs.Positions.{most_of, count_of, AreRunsOf};

use crate::directory::{BRANCH_SHARDS, LEAF_SHARDS};
use crate::error::NoMemory;
use crate::finder::Finder;
use crate::place::{Entry, Place};
use crate::runs::{LEAVES, has_life, revive_runs, with_life, without_life};
use crate::status::Status;
use crate::word::{has_any, mapped_word, narrowed_word, pack, unpack, word_bits};
use fpage::Rights;
use std::alloc::{AllocError, Global};
use std::ops::Range;

/// The bytes of the pages of one shard, as a power of two.
const SHARD_BITS: u32 = 18;

/// How many pages, of one space, have their words in one shard.
const SHARD_PAGES: usize = 64;

/// How many words stand in a line of a cache.
const LINE_WORDS: usize = 8;

/// What became of a page from which rights were withheld.
#[derive(Clone, Copy)]
pub struct Narrowed {
    /// The status that it had.
    pub status: Status,
    /// Whether it had one of these rights.
    pub lost: bool,
    /// Whether it still holds anything.
    pub held: bool,
}

/// Held pages, side by side in one shard, as a search finds them.
#[derive(Drop)]
pub struct Run {
    pub pages: Range<u32>,
    /// How many shards were looked at in vain before them. No clause says how many.
    pub in_vain: u32,
}

/// A held page, as a search finds it.
#[derive(Clone, Copy)]
struct Search {
    page: u32,
    /// How many shards were looked at in vain before it.
    in_vain: u32,
}

impl Narrowed {
    ghost use Rattle.std.specs.Prelude.{◌≡◌, false};
    ghost use Rattle.fpage.specs.Rights.{no_rights};

    /// What becomes of a page that holds nothing.
    fn absent() -> Narrowed
        ensures status { result.status ≡ no_rights }
        ensures lost { result.lost ≡ false }
        ensures held { result.held ≡ false }
    {
        Narrowed {
            status: Status::none(),
            lost: false,
            held: false,
        }
    }
}

/// A map from places to entries, kept as entry words (profile).
///
/// The words lie in shards of 64 pages of one space, one shard behind another, in the order in which they were made. A
/// directory tells where those of a place stand, if its shard is there; all other pages are absent. A shard that is known
/// to hold nothing is dead, and searches pass over it. Only `new`, `make`, `make_one` and `reserve` take memory.
#[derive(Drop)]
pub struct Shards {
    spaces: u32,
    bits: u32,
    /// Boxed, so that to hand a database on copies little.
    directory: Box<Finder>,
    /// None while the words are taken.
    words: Option<Vec<u64>>,
    /// For each shard that is there, 0 if it is dead, and else 1.
    live: Vec<u8>,
    /// For each run of 256 shards a number with two bits for each of its runs of 16. Bit `j`, below 16, is 1 if the run
    /// `j` of 16 may have a live shard. Bit `16 + j` is 1 if it has a shard.
    runs: Vec<u32>,
    ghost limits: { AreLimits spaces bits },
    ghost most: { most_of directory.value ≡ spaces * shards_of bits },
    ghost packed: { ForSome words (AreWords (count_of directory.value)) },
    ghost counted: { length live.items ≡ count_of directory.value },
    ghost dead: { ForSome words (AreLive live.items) },
    ghost each_run: { length runs.items ≡ div_ceil (most_of directory.value) 256 },
    ghost dead_runs: { AreRunsOf directory.value live.items runs.items },
}

impl Shards {
    ghost use Rattle.std.specs.Prelude.{◌≡◌, ℕ, ◌↔◌, ◌+◌, ◌*◌, ◌/◌, ◌<◌, ◌≤◌, IsTrue, IsFalse, IfOk, OnOk, IfSome, IfNone, None, Some, length, option_map, is_some, slice_index};
    ghost use Rattle.std.specs.List.{All, AllPass, list_any};
    ghost use Rattle.std.specs.Option.{option_and_then};
    ghost use Rattle.space.specs.declared.place.Place.{Place};
    ghost use Rattle.space.specs.Word.{word_of, entry_of, is_pack, FrameFits};
    ghost use Rattle.space.specs.Directory.{AreLimits, offset_of, pages_of, shard_of};
    ghost use Rattle.space.specs.Entries.{has_any, mapped, narrowed, status_of, with_status, extended};
    ghost use Rattle.space.specs.Positions.{most_of};
    ghost use Rattle.space.specs.Shards.{spaces_of, bits_of, IsPlace, HasWord, word_count, index_of, is_taken, words_of, entry_at, IsLaidOutAs, IsMade, AreOnlyMade, IsSetAt, are_beside};

    /// Spaces of `2^bits` bytes in which every page is absent. No shard is there.
    ///
    /// Refused, where memory is: `NoMemory`.
    pub fn new(alloc: Global, spaces: u32, bits: u32) -> Result<Self, NoMemory>
        requires { AreLimits spaces bits }
        ensures spaces { IfOk result (λ s. spaces_of s ≡ spaces) }
        ensures bits { IfOk result (λ s. bits_of s ≡ bits) }
        ensures empty { IfOk result (λ s. word_count s ≡ 0) }
        ensures absent { IfOk result (λ s. (p : Place) → IsPlace s p → entry_at s p ≡ None) }
        ensures present { IfOk result (λ s. IsFalse (is_taken s)) }
    {
        let shards = spaces << (bits - SHARD_BITS);
        let directory = Finder::new(alloc, shards)?;
        let directory = match Box::new(alloc, directory) {
            Ok(directory) => directory,
            Err(error) => return Err(AllocError::from(error).into()),
        };
        let runs = vec![in alloc; 0; directory.most().div_ceil(BRANCH_SHARDS)]?;
        Ok(Shards {
            spaces,
            bits,
            directory,
            words: Some(Vec::new(alloc)),
            live: Vec::new(alloc),
            runs,
        })
    }

    /// How many spaces there are.
    pub fn spaces(&self) -> u32
        ensures { result ≡ spaces_of self.now }
    {
        self.spaces
    }

    /// A space has `2^bits` bytes.
    pub fn bits(&self) -> u32
        ensures { result ≡ bits_of self.now }
    {
        self.bits
    }

    /// Which word is a place's.
    pub fn index(&self, place: Place) -> usize
        requires place { IsPlace self.now place }
        requires has { HasWord self.now place }
        ensures index { result ≡ index_of self.now place }
        ensures in_range { result < word_count self.now }
        ensures distinct { (q : Place) → IsPlace self.now q → index_of self.now q ≡ result → q ≡ place }
    {
        self.find(place)
    }

    /// The same; behind all words where the shard of the place is not there.
    #[inline]
    fn find(&self, place: Place) -> usize
        requires { IsPlace self.now place }
        ensures { result ≡ index_of self.now place }
    {
        let position = self.directory.position(self.shard(place));
        position as usize * SHARD_PAGES + offset(place)
    }

    /// Which shard has the word of a place.
    fn shard(&self, place: Place) -> usize
        requires { IsPlace self.now place }
        ensures shard { result ≡ shard_of (bits_of self.now) place }
        ensures in_range { result < most_of self.now.directory.value }
    {
        self.shards_before(place.space) + place.page as usize / SHARD_PAGES
    }

    /// How many shards all spaces before one can have.
    fn shards_before(&self, space: u16) -> usize
        ensures { result ≡ space * shards_of (bits_of self.now) }
    {
        usize::from(space) << (self.bits - SHARD_BITS)
    }

    /// How many shards a space can have.
    fn shards_in_space(&self) -> usize
        ensures { result ≡ shards_of (bits_of self.now) }
    {
        1 << (self.bits - SHARD_BITS)
    }

    /// Has the shards of some places there. What stands at each place stays, and each shard that is there is where it
    /// was.
    ///
    /// Refused, where memory is: `NoMemory`; then the same is so, and some of the shards may be there.
    pub fn make(&mut self, places: &[Place]) -> Result<(), NoMemory>
        requires places { All (IsPlace self.old) places.now }
        requires present { IsFalse (is_taken self.old) }
        ensures made { IsMade self.old self.new }
        ensures there { OnOk result (All (HasWord self.new) places.now) }
        ensures only { AreOnlyMade self.old self.new (λ p. list_any (λ place. are_beside place p) places.now) }
        ensures present { IsFalse (is_taken self.new) }
    {
        for place in places {
            self.make_one(*place)?;
        }
        Ok(())
    }

    /// The same of one place.
    pub fn make_one(&mut self, place: Place) -> Result<(), NoMemory>
        requires place { IsPlace self.old place }
        requires present { IsFalse (is_taken self.old) }
        ensures made { IsMade self.old self.new }
        ensures there { OnOk result (HasWord self.new place) }
        ensures only { AreOnlyMade self.old self.new (are_beside place) }
        ensures present { IsFalse (is_taken self.new) }
    {
        if self.has(place) {
            return Ok(());
        }
        self.add(place)
    }

    /// Adds the shard of a place, which is not there.
    fn add(&mut self, place: Place) -> Result<(), NoMemory>
        requires place { IsPlace self.old place }
        requires present { IsFalse (is_taken self.old) }
        requires absent { HasWord self.old place → ⊥ }
        ensures made { IsMade self.old self.new }
        ensures there { OnOk result (HasWord self.new place) }
        ensures only { AreOnlyMade self.old self.new (are_beside place) }
        ensures present { IsFalse (is_taken self.new) }
    {
        let shard = self.shard(place);
        let words = self.words.as_mut().unwrap();
        words.reserve(SHARD_PAGES)?;
        self.live.reserve(1)?;
        self.directory.add(shard)?;
        add_absent(words);
        self.live.push_reserved(1);
        let run = shard / BRANCH_SHARDS;
        self.runs[run] = with_life(self.runs[run], shard / LEAF_SHARDS % LEAVES);
        Ok(())
    }

    /// Takes memory for the words of so many shards more, or of all that there can be: they are not copied then as these
    /// are made. What stands at each place stays.
    ///
    /// Refused, where memory is: `NoMemory`; then the same is so.
    pub fn reserve(&mut self, shards: usize) -> Result<(), NoMemory>
        requires present { IsFalse (is_taken self.old) }
        ensures made { IsMade self.old self.new }
        ensures layout { IsLaidOutAs self.old self.new }
        ensures present { IsFalse (is_taken self.new) }
    {
        let left = self.directory.most() - self.directory.count() as usize;
        let words = self.words.as_mut().unwrap();
        words.reserve(shards.min(left) * SHARD_PAGES)?;
        Ok(())
    }

    /// Whether the shard of a place is there, that is the words of the 64 pages of its space among which it is. Where it
    /// is not, each of these pages is absent.
    pub fn has(&self, place: Place) -> bool
        requires place { IsPlace self.now place }
        ensures there { IsTrue result ↔ HasWord self.now place }
        ensures absent { IsFalse result → (p : Place) → p.space ≡ place.space → p.page / 64 ≡ place.page / 64 → entry_at self.now p ≡ None }
    {
        self.directory.position(self.shard(place)) < self.directory.count()
    }

    /// The first page of a space, from a page on and before an end, whose shard is there and not dead; the end where there
    /// is none. No page before it is held. Runs of 1,024 pages that have no live shard are passed over.
    pub fn first_from(&self, place: Place, end: u32) -> u32
        requires place { IsPlace self.now place }
        requires from { place.page ≤ end }
        requires end { end ≤ pages_of (bits_of self.now) }
        ensures from { place.page ≤ result }
        ensures end { result ≤ end }
        ensures there { result < end → HasWord self.now (record { space = place.space; page = result }) }
        ensures absent { (p : Place) → p.space ≡ place.space → place.page ≤ p.page → p.page < result → entry_at self.now p ≡ None }
    {
        let from = self.shard(place);
        let before = self.shards_before(place.space);
        let behind = before + (end as usize).div_ceil(SHARD_PAGES);
        let found = self.directory.next(from, behind, &self.live, &self.runs);
        if found == from {
            return place.page;
        }
        let page = ((found - before) * SHARD_PAGES) as u32;
        page.min(end)
    }

    /// The first page of a space, from a page on and before an end, that is held; the end where there is none. What is
    /// not there is passed over in the same way, and the words of what is there are looked at one behind another.
    pub fn first_held(&self, place: Place, end: u32) -> u32
        requires place { IsPlace self.now place }
        requires from { place.page ≤ end }
        requires end { end ≤ pages_of (bits_of self.now) }
        requires present { IsFalse (is_taken self.now) }
        ensures from { place.page ≤ result }
        ensures end { result ≤ end }
        ensures held { result < end → IsTrue (is_some (entry_at self.now (record { space = place.space; page = result }))) }
        ensures absent { (p : Place) → p.space ≡ place.space → place.page ≤ p.page → p.page < result → entry_at self.now p ≡ None }
    {
        self.search(place, end).page
    }

    /// The same, and how many shards were looked at in vain.
    fn search(&self, place: Place, end: u32) -> Search
        requires place { IsPlace self.now place }
        requires from { place.page ≤ end }
        requires end { end ≤ pages_of (bits_of self.now) }
        requires present { IsFalse (is_taken self.now) }
        ensures from { place.page ≤ result.page }
        ensures end { result.page ≤ end }
        ensures held { result.page < end → IsTrue (is_some (entry_at self.now (record { space = place.space; page = result.page }))) }
        ensures absent { (p : Place) → p.space ≡ place.space → place.page ≤ p.page → p.page < result.page → entry_at self.now p ≡ None }
    {
        let space = place.space;
        let mut page = place.page;
        let mut in_vain: u32 = 0;
        while page < end {
            let first = self.first_from(Place { space, page }, end);
            if first == end {
                break;
            }
            let behind = page_behind_shard(first).min(end);
            let place = Place { space, page: first };
            let start = self.start_of_shard(place);
            let found = self.first_held_of_shard(start, place, first, behind);
            if found < behind {
                return Search {
                    page: found,
                    in_vain,
                };
            }
            in_vain = in_vain.saturating_add(1);
            page = behind;
        }
        Search { page: end, in_vain }
    }

    /// Has each shard of these pages that holds nothing dead: searches pass over it until something is put there.
    pub fn sweep(&mut self, place: Place, end: u32)
        requires place { IsPlace self.old place }
        requires from { place.page ≤ end }
        requires end { end ≤ pages_of (bits_of self.old) }
        requires present { IsFalse (is_taken self.old) }
        ensures made { IsMade self.old self.new }
        ensures layout { IsLaidOutAs self.old self.new }
        ensures present { IsFalse (is_taken self.new) }
    {
        let space = place.space;
        let mut page = place.page;
        while page < end {
            let first = self.first_from(Place { space, page }, end);
            if first == end {
                break;
            }
            self.look_over(Place { space, page: first });
            page = page_behind_shard(first).min(end);
        }
        let before = self.shards_before(space);
        let first = (before + place.page as usize / SHARD_PAGES) / LEAF_SHARDS;
        let behind = (before + (end as usize).div_ceil(SHARD_PAGES)).div_ceil(LEAF_SHARDS);
        for run in first..behind {
            self.look_over_run(run);
        }
    }

    /// Has a run of 16 shards dead, if all its shards are.
    fn look_over_run(&mut self, run: usize)
        requires present { IsFalse (is_taken self.old) }
        ensures made { IsMade self.old self.new }
        ensures layout { IsLaidOutAs self.old self.new }
        ensures present { IsFalse (is_taken self.new) }
    {
        let from = run.saturating_mul(LEAF_SHARDS);
        let end = from.saturating_add(LEAF_SHARDS).min(self.directory.most());
        if from >= end {
            return;
        }
        let number = self.runs[run / LEAVES];
        let leaf = run % LEAVES;
        if has_life(number, leaf) && self.directory.next_in_leaf(from, end, &self.live) == end {
            self.runs[run / LEAVES] = without_life(number, leaf);
        }
    }

    /// Has the shard of a page dead, if it holds nothing.
    fn look_over(&mut self, place: Place)
        requires place { IsPlace self.old place }
        requires has { HasWord self.old place }
        requires present { IsFalse (is_taken self.old) }
        ensures made { IsMade self.old self.new }
        ensures layout { IsLaidOutAs self.old self.new }
        ensures present { IsFalse (is_taken self.new) }
    {
        let start = self.start_of_shard(place);
        let words = self.words.as_ref().unwrap();
        if holds_nothing(words, start) {
            self.live[start / SHARD_PAGES] = 0;
        }
    }

    /// Where the words of the shard of a page begin.
    pub fn start_of_shard(&self, place: Place) -> usize
        requires { IsPlace self.now place }
        ensures { result + offset_of place ≡ index_of self.now place }
    {
        self.find(place) - offset(place)
    }

    /// The first page that is held of one shard that is there, that of a page, from another page of it on. Its words begin
    /// at `start`.
    pub fn first_held_of_shard(&self, start: usize, place: Place, from: u32, end: u32) -> u32
        requires place { IsPlace self.now place }
        requires start { start + offset_of place ≡ index_of self.now place }
        requires on { place.page ≤ from }
        requires from { from ≤ end }
        requires end { end ≤ (place.page / 64 + 1) * 64 }
        requires within { end ≤ pages_of (bits_of self.now) }
        requires present { IsFalse (is_taken self.now) }
        requires has { HasWord self.now place }
        ensures from { from ≤ result }
        ensures end { result ≤ end }
        ensures held { result < end → IsTrue (is_some (entry_at self.now (record { space = place.space; page = result }))) }
        ensures absent { (p : Place) → p.space ≡ place.space → from ≤ p.page → p.page < result → entry_at self.now p ≡ None }
    {
        let words = self.words.as_ref().unwrap();
        let space = place.space;
        let mut page = from;
        while page < end {
            let at = start + offset(Place { space, page });
            if words[at] != 0 {
                return page;
            }
            let to = (start + SHARD_PAGES).min(at + (end - page) as usize);
            let absent = zeros(words, at, to);
            page += absent as u32;
            if at + absent < to {
                return page;
            }
        }
        end
    }

    /// The first page behind a held one and before an end, in its shard, that is not held; the end where each is.
    fn end_of_held(&self, place: Place, end: u32) -> u32
        requires place { IsPlace self.now place }
        requires from { place.page < end }
        requires end { end ≤ (place.page / 64 + 1) * 64 }
        requires present { IsFalse (is_taken self.now) }
        requires held { IsTrue (is_some (entry_at self.now place)) }
        ensures from { place.page < result }
        ensures end { result ≤ end }
        ensures held { (p : Place) → p.space ≡ place.space → place.page ≤ p.page → p.page < result → IsTrue (is_some (entry_at self.now p)) }
    {
        let words = self.words.as_ref().unwrap();
        let before = self.find(place) - offset(place);
        let space = place.space;
        for page in place.page + 1..end {
            if words[before + offset(Place { space, page })] == 0 {
                return page;
            }
        }
        end
    }

    /// The next pages of a space, from a page on and before an end, that are held: the first, with those behind it,
    /// side by side in its shard. Both ends are the end where there is none.
    pub fn next_run(&self, place: Place, end: u32) -> Run
        requires place { IsPlace self.now place }
        requires from { place.page < end }
        requires end { end ≤ pages_of (bits_of self.now) }
        requires present { IsFalse (is_taken self.now) }
        ensures from { place.page ≤ result.pages.start }
        ensures end { result.pages.end ≤ end }
        ensures order { result.pages.start ≤ result.pages.end }
        ensures further { place.page < result.pages.end }
        ensures none { result.pages.start ≡ result.pages.end → result.pages.start ≡ end }
        ensures absent { (p : Place) → p.space ≡ place.space → place.page ≤ p.page → p.page < result.pages.start → entry_at self.now p ≡ None }
        ensures held { (p : Place) → p.space ≡ place.space → result.pages.start ≤ p.page → p.page < result.pages.end → IsTrue (is_some (entry_at self.now p)) }
        ensures shard { (page : ℕ) → result.pages.start ≤ page → page < result.pages.end → page / 64 ≡ result.pages.start / 64 }
    {
        let Search {
            page: start,
            in_vain,
        } = self.search(place, end);
        if start == end {
            return Run {
                pages: end..end,
                in_vain,
            };
        }
        let first = Place {
            space: place.space,
            page: start,
        };
        let behind = page_behind_shard(start).min(end);
        Run {
            pages: start..self.end_of_held(first, behind),
            in_vain,
        }
    }

    /// How many words there are. Each page that is held has its word among them.
    pub fn words(&self) -> usize
        ensures count { result ≡ word_count self.now }
        ensures held { (p : Place) → IsTrue (is_some (entry_at self.now p)) → index_of self.now p < result }
    {
        self.directory.count() as usize * SHARD_PAGES
    }

    /// What stands at a place.
    pub fn get(&self, place: Place) -> Option<Entry>
        requires place { IsPlace self.now place }
        requires present { IsFalse (is_taken self.now) }
        ensures { result ≡ entry_at self.now place }
    {
        self.read(self.find(place))
    }

    /// What the word at an index says; it says nothing behind the end of the words.
    fn read(&self, index: usize) -> Option<Entry>
        requires { IsFalse (is_taken self.now) }
        ensures entry { result ≡ entry_of (slice_index (words_of self.now) index) }
        ensures within { IfSome result (λ _. index < length (words_of self.now)) }
    {
        let word = self.word(index)?;
        unpack(word)
    }

    /// The word at an index, if the words reach it.
    fn word(&self, index: usize) -> Option<u64>
        requires { IsFalse (is_taken self.now) }
        ensures word { IfSome result (λ word. word ≡ slice_index (words_of self.now) index) }
        ensures pack { IfSome result (λ word. IsTrue (is_pack word)) }
        ensures within { IfSome result (λ _. index < length (words_of self.now)) }
        ensures behind { IfNone result (slice_index (words_of self.now) index ≡ 0) }
    {
        let word = self.words.as_ref().unwrap().get(index)?;
        Some(*word)
    }

    /// Puts an entry at a place, or takes away what stands there.
    pub fn set(&mut self, place: Place, entry: Option<Entry>)
        requires place { IsPlace self.old place }
        requires present { IsFalse (is_taken self.old) }
        requires frame { FrameFits entry }
        requires has { IfSome entry (λ _. HasWord self.old place) }
        ensures set { IsSetAt self.old self.new place entry }
        ensures present { IsFalse (is_taken self.new) }
        ensures layout { IsLaidOutAs self.old self.new }
    {
        let index = self.find(place);
        if index < self.words.as_ref().unwrap().len() {
            self.revive(place, index);
            self.write(index, entry);
        }
    }

    /// Puts an entry at a page of a shard that is there, whose words begin at `start`: so no shard is looked for.
    #[inline]
    pub fn set_in_shard(&mut self, start: usize, place: Place, entry: Entry)
        requires place { IsPlace self.old place }
        requires start { start + offset_of place ≡ index_of self.old place }
        requires present { IsFalse (is_taken self.old) }
        requires frame { FrameFits (Some entry) }
        requires has { HasWord self.old place }
        ensures set { IsSetAt self.old self.new place (Some entry) }
        ensures present { IsFalse (is_taken self.new) }
        ensures layout { IsLaidOutAs self.old self.new }
    {
        let index = start + offset(place);
        self.revive(place, index);
        self.write(index, Some(entry));
    }

    /// Has the shard of a page live, whose word has this index.
    #[inline]
    fn revive(&mut self, place: Place, index: usize)
        requires place { IsPlace self.old place }
        requires has { HasWord self.old place }
        requires index { index ≡ index_of self.old place }
        requires present { IsFalse (is_taken self.old) }
        ensures made { IsMade self.old self.new }
        ensures layout { IsLaidOutAs self.old self.new }
        ensures present { IsFalse (is_taken self.new) }
        ensures words { words_of self.new ≡ words_of self.old }
        ensures live { slice_index self.new.live.items (index_of self.new place / 64) ≡ 0 → ⊥ }
    {
        if self.live[index / SHARD_PAGES] == 0 {
            self.wake(place);
        }
    }

    /// The same of a shard that is dead.
    #[inline(never)]
    fn wake(&mut self, place: Place)
        requires place { IsPlace self.old place }
        requires has { HasWord self.old place }
        requires present { IsFalse (is_taken self.old) }
        ensures made { IsMade self.old self.new }
        ensures layout { IsLaidOutAs self.old self.new }
        ensures present { IsFalse (is_taken self.new) }
        ensures words { words_of self.new ≡ words_of self.old }
        ensures live { slice_index self.new.live.items (index_of self.new place / 64) ≡ 0 → ⊥ }
    {
        let shard = self.shard(place);
        let position = self.directory.position(shard) as usize;
        let run = shard / BRANCH_SHARDS;
        self.runs[run] = with_life(self.runs[run], shard / LEAF_SHARDS % LEAVES);
        self.live[position] = 1;
    }

    /// Writes the word at an index that the words reach, of a live shard.
    fn write(&mut self, index: usize, entry: Option<Entry>)
        requires present { IsFalse (is_taken self.old) }
        requires within { index < length (words_of self.old) }
        requires frame { FrameFits entry }
        requires live { slice_index self.old.live.items (index / 64) ≡ 0 → ⊥ }
        ensures set { (p : Place) → IsPlace self.old p → index_of self.old p ≡ index → IsSetAt self.old self.new p entry }
        ensures present { IsFalse (is_taken self.new) }
        ensures layout { IsLaidOutAs self.old self.new }
    {
        self.put(index, pack(entry));
    }

    /// The same of a word, which is 0 if the shard is dead.
    fn put(&mut self, index: usize, word: u64)
        requires present { IsFalse (is_taken self.old) }
        requires within { index < length (words_of self.old) }
        requires pack { IsTrue (is_pack word) }
        requires live { slice_index self.old.live.items (index / 64) ≡ 0 → word ≡ 0 }
        ensures set { (p : Place) → IsPlace self.old p → index_of self.old p ≡ index → IsSetAt self.old self.new p (entry_of word) }
        ensures present { IsFalse (is_taken self.new) }
        ensures layout { IsLaidOutAs self.old self.new }
    {
        let words = self.words.as_mut().unwrap();
        words[index] = word;
    }

    /// Puts at a place what another place holds, with those of its rights that are let through, and no status. Returns
    /// whether that one holds anything; else nothing is put.
    #[inline(always)]
    pub fn put_mapped(&mut self, source: Place, target: Place, through: Rights) -> bool
        requires source { IsPlace self.old source }
        requires target { IsPlace self.old target }
        requires has { HasWord self.old target }
        requires present { IsFalse (is_taken self.old) }
        ensures held { result ≡ is_some (entry_at self.old source) }
        ensures none { IsFalse result → self.new ≡ self.old }
        ensures set { IsTrue result → IsSetAt self.old self.new target (option_map (mapped through) (entry_at self.old source)) }
        ensures present { IsFalse (is_taken self.new) }
        ensures layout { IsLaidOutAs self.old self.new }
    {
        let Some(word) = self.word(self.find(source)) else {
            return false;
        };
        if word == 0 {
            return false;
        }
        let index = self.find(target);
        self.revive(target, index);
        self.put(index, mapped_word(word, through));
        true
    }

    /// Withholds rights from what a page holds, if `flush` says so, and clears its status. With no right left the page goes.
    #[inline]
    pub fn narrow(&mut self, place: Place, revoked: Rights, flush: bool) -> Narrowed
        requires place { IsPlace self.old place }
        requires present { IsFalse (is_taken self.old) }
        ensures status { result.status ≡ status_of (entry_at self.old place) }
        ensures lost { result.lost ≡ has_any revoked (entry_at self.old place) }
        ensures held { result.held ≡ is_some (entry_at self.new place) }
        ensures set { IsSetAt self.old self.new place (option_and_then (narrowed flush revoked) (entry_at self.old place)) }
        ensures present { IsFalse (is_taken self.new) }
        ensures layout { IsLaidOutAs self.old self.new }
    {
        self.narrow_at(self.find(place), revoked, flush)
    }

    /// The same of the page whose word has an index. With the indexes of several pages at hand, their words are loaded
    /// side by side.
    pub fn narrow_at(&mut self, index: usize, revoked: Rights, flush: bool) -> Narrowed
        requires present { IsFalse (is_taken self.old) }
        ensures status { (p : Place) → index_of self.old p ≡ index → result.status ≡ status_of (entry_at self.old p) }
        ensures lost { (p : Place) → index_of self.old p ≡ index → result.lost ≡ has_any revoked (entry_at self.old p) }
        ensures held { (p : Place) → IsPlace self.old p → index_of self.old p ≡ index → result.held ≡ is_some (entry_at self.new p) }
        ensures set { (p : Place) → IsPlace self.old p → index_of self.old p ≡ index → IsSetAt self.old self.new p (option_and_then (narrowed flush revoked) (entry_at self.old p)) }
        ensures present { IsFalse (is_taken self.new) }
        ensures layout { IsLaidOutAs self.old self.new }
    {
        let Some(word) = self.word(index) else {
            return Narrowed::absent();
        };
        if word == 0 {
            return Narrowed::absent();
        }
        let left = narrowed_word(word, revoked, flush);
        self.put(index, left);
        Narrowed {
            status: Status::of_word(word),
            lost: has_any(word, revoked),
            held: left != 0,
        }
    }

    /// Adds status to what a page holds.
    pub fn add_status(&mut self, place: Place, status: Rights)
        requires place { IsPlace self.old place }
        requires present { IsFalse (is_taken self.old) }
        ensures set { IsSetAt self.old self.new place (option_map (with_status status) (entry_at self.old place)) }
        ensures present { IsFalse (is_taken self.new) }
        ensures layout { IsLaidOutAs self.old self.new }
    {
        if status.is_empty() {
            return;
        }
        let index = self.find(place);
        let Some(word) = self.word(index) else {
            return;
        };
        if word == 0 {
            return;
        }
        self.put(index, word | word_bits(status));
    }

    /// Adds rights to what a page holds.
    pub fn extend(&mut self, place: Place, rights: Rights)
        requires place { IsPlace self.old place }
        requires present { IsFalse (is_taken self.old) }
        ensures set { IsSetAt self.old self.new place (option_map (extended rights) (entry_at self.old place)) }
        ensures present { IsFalse (is_taken self.new) }
        ensures layout { IsLaidOutAs self.old self.new }
    {
        let index = self.find(place);
        let Some(entry) = self.read(index) else {
            return;
        };
        self.write(index, Some(entry.extended(rights)));
    }

    /// What stands at a place, and which word is the place's.
    #[inline]
    pub fn get_with_index(&self, place: Place) -> Option<(Entry, usize)>
        requires place { IsPlace self.now place }
        requires present { IsFalse (is_taken self.now) }
        ensures entry { option_map (λ r. r.0) result ≡ entry_at self.now place }
        ensures index { IfSome result (λ r. r.1 ≡ index_of self.now place) }
    {
        let index = self.find(place);
        let entry = self.read(index)?;
        Some((entry, index))
    }

    /// Which word is a page's, if the page is held.
    pub fn held_index(&self, place: Place) -> Option<usize>
        requires place { IsPlace self.now place }
        requires present { IsFalse (is_taken self.now) }
        ensures held { is_some result ≡ is_some (entry_at self.now place) }
        ensures index { IfSome result (λ i. i ≡ index_of self.now place) }
    {
        let index = self.find(place);
        match self.word(index) {
            None | Some(0) => None,
            Some(_) => Some(index),
        }
    }

    /// Gives the words away, that of each place whose shard is there at its index.
    pub fn take_words(&mut self) -> Vec<u64>
        requires { IsFalse (is_taken self.old) }
        ensures words { (p : Place) → IsPlace self.old p → slice_index result.items (index_of self.old p) ≡ word_of (entry_at self.old p) }
        ensures count { length result.items ≡ word_count self.old }
        ensures packs { AllPass is_pack result.items }
        ensures taken { IsTrue (is_taken self.new) }
        ensures layout { IsLaidOutAs self.old self.new }
    {
        self.words.take().unwrap()
    }

    /// Takes words in the place of those that were taken.
    pub fn put_words(&mut self, words: Vec<u64>)
        requires taken { IsTrue (is_taken self.old) }
        requires count { length words.items ≡ word_count self.old }
        requires packs { AllPass is_pack words.items }
        ensures entries { (p : Place) → IsPlace self.new p → entry_at self.new p ≡ entry_of (slice_index words.items (index_of self.new p)) }
        ensures present { IsFalse (is_taken self.new) }
        ensures layout { IsLaidOutAs self.old self.new }
    {
        revive_all(&mut self.live);
        revive_runs(&mut self.runs);
        self.words = Some(words);
    }
}

/// Has none dead.
fn revive_all(live: &mut [u8])
    ensures each { length live.new ≡ length live.old }
    ensures all { (k : ℕ) → k < length live.new → slice_index live.new k ≡ 1 }
{
    for k in 0..live.len() {
        live[k] = 1;
    }
}

/// The first page behind the shard of a page.
pub fn page_behind_shard(page: u32) -> u32
    requires { page < 2 ^ 20 }
    ensures { result ≡ (page / 64 + 1) * 64 }
{
    (page / SHARD_PAGES as u32 + 1) * SHARD_PAGES as u32
}

/// Where in its shard the word of a place stands: from one space to the next a line farther on, and round to the front. So the words
/// of one page in many spaces do not all stand a power of two of bytes apart, and crowd into few lines of a cache.
fn offset(place: Place) -> usize
    ensures offset { result ≡ offset_of place }
    ensures in_range { result < 64 }
{
    (place.page as usize + usize::from(place.space) * LINE_WORDS) % SHARD_PAGES
}

/// Adds the words of one shard more, of absent pages. There is room for them, so that this takes no memory.
fn add_absent(words: &mut Vec<u64>)
    requires { length words.old.items + 64 ≤ vec_capacity words.old }
    ensures { words.new.items ≡ words.old.items ++ replicate 64 0 }
{
    let added = words.resize(words.len() + SHARD_PAGES, 0);
    prove!(added.is_ok());
}

/// Whether the words of a shard, which begin at `start`, are all 0.
fn holds_nothing(words: &[u64], start: usize) -> bool
    requires { start + 64 ≤ length words.now }
    ensures { result ≡ true → (i : ℕ) → start ≤ i → i < start + 64 → slice_index words.now i ≡ 0 }
{
    zeros(words, start, start + SHARD_PAGES) == SHARD_PAGES
}

/// How many words from one on, and before an end, are 0. It looks at eight at once.
fn zeros(words: &[u64], from: usize, end: usize) -> usize
    requires order { from ≤ end }
    requires within { end ≤ length words.now }
    ensures upto { from + result ≤ end }
    ensures zeros { (i : ℕ) → from ≤ i → i < from + result → slice_index words.now i ≡ 0 }
    ensures held { from + result < end → slice_index words.now (from + result) ≡ 0 → ⊥ }
{
    let mut at = from;
    while end - at >= 8 && are_zero(words, at) {
        at += 8;
    }
    while at < end && words[at] == 0 {
        at += 1;
    }
    at - from
}

/// Whether eight words from one on are 0.
fn are_zero(words: &[u64], at: usize) -> bool
    requires { at + 8 ≤ length words.now }
    ensures { result ≡ true → (i : ℕ) → at ≤ i → i < at + 8 → slice_index words.now i ≡ 0 }
{
    let front = words[at] | words[at + 1] | words[at + 2] | words[at + 3];
    let behind = words[at + 4] | words[at + 5] | words[at + 6] | words[at + 7];
    front | behind == 0
}
