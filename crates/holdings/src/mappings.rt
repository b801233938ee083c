//! A reader of what is held, by rising place.

ghost use Rattle.std.specs.Prelude.{◌≡◌, ◌<◌, length, Some, IfSome};
ghost use Rattle.space.specs.Shards.{IsPlace, entry_at};
ghost use Rattle.maptree.specs.Origins.{origin_in};
ghost use Rattle.holdings.specs.Inner.Held.{links_in};
ghost use Rattle.holdings.specs.Inner.WordOrigins.{AreOrigins};

use crate::limits::Limits;
use crate::mapping::Mapping;
use crate::next_held::next_held;
use crate::origin_word::OriginWord;
use crate::tree::origin;
use maptree::Tree;
use space::{Entry, Place, Shards};
use std::alloc::{AllocError, Global};
use std::marker::Model;

/// Reads what is held, by rising place. A contract sees the holdings.
#[derive(Drop)]
pub struct Mappings<'a> {
    pub(crate) shards: &'a Shards,
    /// The tree of each frame, at its number.
    pub(crate) trees: &'a [Tree],
    /// The origin of each page that is held, at the index of its word; none where each is searched for in its tree.
    pub(crate) origins: Option<Vec<OriginWord>>,
    /// How many mappings there are.
    pub(crate) len: usize,
}

impl<'a> Model for Mappings<'a> {
    ghost use Rattle.std.specs.Prelude.{length, IfSome};
    ghost use Rattle.holdings.specs.Contents.{Contents};
    ghost use Rattle.holdings.specs.Inner.Held.{contents_of};
    ghost use Rattle.holdings.specs.Inner.Sound.{AreSound};
    ghost use Rattle.holdings.specs.Inner.WordOrigins.{AreOrigins};

    ghost Value = { Contents };

    ghost view = { λ m. contents_of m.shards.now m.trees.now };

    ghost invariant = { λ m. AreSound m.shards.now m.trees.now × IfSome m.origins (λ origins. AreOrigins m.shards.now m.trees.now (length m.trees.now) origins.items) };
}

impl<'a> Mappings<'a> {
    ghost use Rattle.std.specs.Prelude.{◌≡◌, ◌∷◌, ◌++◌, ◌+◌, ◌<◌, ◌^◌, [], IfOk, IfSome, OnOk, MatchOption, Some, map, option_map};
    ghost use Rattle.model.specs.Definitions.Holdings.{at};
    ghost use Rattle.holdings.specs.Meaning.{limits_of};
    ghost use Rattle.holdings.specs.Places.{IsWithin};
    ghost use Rattle.holdings.specs.Contents.{IsConsistent, entry_of};
    ghost use Rattle.holdings.specs.Mappings.{mapped_of, held_from};

    /// The limits of what is read.
    pub fn limits(&self) -> Limits
        ensures limits { limits_of result ≡ self.now.limits }
        ensures consistent { IsConsistent self.now }
    {
        Limits {
            spaces: self.shards.spaces(),
            bits: self.shards.bits(),
            frames: self.trees.len() as u32,
        }
    }

    /// How many mappings there are: a number for which room is made. No clause says which.
    pub fn len(&self) -> usize {
        self.len
    }

    /// How many mappings a space has: a number for which room is made. No clause says which.
    pub fn len_of(&self, space: u16) -> usize {
        let pages = 1 << (self.shards.bits() - 12);
        if u32::from(space) >= self.shards.spaces() {
            return 0;
        }
        let mut len: usize = 0;
        let mut page = 0;
        while page < pages {
            let run = self.shards.next_run(Place { space, page }, pages);
            len = len.saturating_add(run.pages.len());
            page = run.pages.end;
        }
        len
    }

    /// What a page holds. Its origin is searched for only where little is held of what has words.
    pub fn at(&self, place: Place) -> Option<Mapping>
        requires { IsWithin self.now.limits place }
        ensures held { option_map (λ m. (mapped_of m).1) result ≡ at self.now.holdings place }
        ensures place { IfSome result (λ m. m.place ≡ place) }
    {
        let entry = self.shards.get(place)?;
        Some(self.mapping(place, entry))
    }

    /// The mapping of a page, from its entry.
    fn mapping(&self, place: Place, entry: Entry) -> Mapping
        requires within { IsWithin self.now.limits place }
        requires held { option_map entry_of (at self.now.holdings place) ≡ Some entry }
        ensures held { at self.now.holdings place ≡ Some (mapped_of result).1 }
        ensures place { result.place ≡ place }
    {
        Mapping {
            place,
            frame: entry.frame,
            rights: entry.rights,
            status: entry.status,
            origin: origin_of(self.shards, self.trees, &self.origins, place, entry),
        }
    }

    /// The first mapping of a space from a page on; none where no page from there on holds anything. It passes over
    /// shards that are not there without a look at their pages.
    pub fn next_from(&self, from: Place) -> Option<Mapping>
        ensures next { MatchOption result (held_from self.now from.space from.page ≡ [])
            (λ m. held_from self.now from.space from.page ≡ mapped_of m ∷ held_from self.now from.space (m.place.page + 1)) }
        ensures small { IfSome result (λ m. m.place.page < 2 ^ 20) }
    {
        let limits = self.limits();
        if u32::from(from.space) >= limits.spaces {
            return None;
        }
        let (place, entry) = next_held(self.shards, from)?;
        Some(self.mapping(place, entry))
    }

    /// Every mapping, by rising place.
    pub(crate) fn list(&self, alloc: Global) -> Result<Vec<Mapping>, AllocError>
        ensures { IfOk result (λ mappings. map mapped_of mappings.items ≡ self.now.holdings) }
    {
        let mut list = Vec::with_capacity(alloc, self.len())?;
        let limits = self.limits();
        for space in 0..limits.spaces as u16 {
            self.push_space(&mut list, space)?;
        }
        Ok(list)
    }

    /// Appends every mapping of a space, by rising page.
    fn push_space(&self, list: &mut Vec<Mapping>, space: u16) -> Result<(), AllocError>
        ensures { OnOk result (map mapped_of list.new.items ≡ map mapped_of list.old.items ++ held_from self.now space 0) }
    {
        let mut from = Place { space, page: 0 };
        while let Some(mapping) = self.next_from(from) {
            list.push(mapping)?;
            from.page = mapping.place.page + 1;
        }
        Ok(())
    }
}

/// The origin of a page that has this entry.
fn origin_of(
    shards: &Shards,
    trees: &[Tree],
    origins: &Option<Vec<OriginWord>>,
    place: Place,
    entry: Entry,
) -> Option<Place>
    requires place { IsPlace shards.now place }
    requires held { entry_at shards.now place ≡ Some entry }
    requires frame { entry.frame < length trees.now }
    requires origins { IfSome origins.now (λ list. AreOrigins shards.now trees.now (length trees.now) list.items) }
    ensures { result ≡ origin_in (links_in trees.now entry.frame) place }
{
    match origins {
        Some(origins) => origins[shards.index(place)].origin(),
        None => origin(&trees[entry.frame as usize], place),
    }
}
