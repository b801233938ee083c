//! A place for each of some pages of one space.

use space::Place;
use std::alloc::{AllocError, Global};
use std::marker::Model;

/// A place for each of some pages of one space, from a first page on; looked up by page.
#[derive(Drop)]
pub struct PlaceMap {
    space: u16,
    /// The page of the first entry.
    first: u32,
    places: Vec<Option<Place>>,
}

impl Model for PlaceMap {
    ghost use Rattle.std.specs.Prelude.{◌≤◌, ◌+◌, ◌^◌, length};
    ghost use Rattle.maptree.specs.PlaceMaps.{Places};

    ghost Value = { Places };

    ghost view = { λ m. record { space = m.space; first = m.first; places = m.places.items } };

    ghost invariant = { λ m. m.first + length m.places.items ≤ 2 ^ 32 };
}

impl PlaceMap {
    ghost use Rattle.std.specs.Prelude.{◌≡◌, ◌≤◌, ◌<◌, ◌+◌, true, length, OnOk, OnErr, IfSome, None, Some, if◌then◌else◌};
    ghost use Rattle.space.specs.declared.place.Place.{Place};
    ghost use Rattle.space.specs.Place.{same_place};
    ghost use Rattle.maptree.specs.PlaceMaps.{place_for, IsApart};

    /// No places yet, for the pages of a space from this one on.
    pub fn none(alloc: Global, space: u16, first: u32) -> PlaceMap
        ensures space { result.space ≡ space }
        ensures first { result.first ≡ first }
        ensures none { (p : Place) → place_for result p ≡ None }
    {
        let places = Vec::new(alloc);
        PlaceMap {
            space,
            first,
            places,
        }
    }

    /// Sets the place for one; any that was there for it goes.
    pub fn put(&mut self, key: Place, place: Place) -> Result<(), AllocError>
        requires space { key.space ≡ self.old.space }
        requires page { self.old.first ≤ key.page }
        ensures space { self.new.space ≡ self.old.space }
        ensures first { self.new.first ≡ self.old.first }
        ensures put { OnOk result ((p : Place) → place_for self.new p ≡ (if same_place p key then Some place else place_for self.old p)) }
        ensures err { OnErr result (self.new ≡ self.old) }
    {
        let at = (key.page - self.first) as usize;
        if self.places.len() <= at {
            self.places.resize(at + 1, None)?;
        }
        self.places[at] = Some(place);
        Ok(())
    }

    /// The place for one, if it has any.
    pub fn get(&self, key: Place) -> Option<Place>
        ensures { result ≡ place_for self.now key }
    {
        if key.space != self.space || key.page < self.first {
            return None;
        }
        let at = self.places.get((key.page - self.first) as usize);
        at.copied().flatten()
    }

    /// How many pages, from the first on, may have a place.
    pub fn len(&self) -> usize
        ensures { result ≡ length self.now.places }
    {
        self.places.len()
    }

    /// The page so many behind the first.
    pub fn key(&self, k: usize) -> Place
        requires { k < length self.now.places }
        ensures space { result.space ≡ self.now.space }
        ensures page { result.page ≡ self.now.first + k }
    {
        Place {
            space: self.space,
            page: self.first + k as u32,
        }
    }

    /// Whether none of its places is one that has a place itself. Such places can be replaced one after another.
    pub fn is_apart(&self) -> bool
        ensures { result ≡ true → IsApart (place_for self.now) }
    {
        for k in 0..self.places.len() {
            if !self.ends_at(self.key(k)) {
                return false;
            }
        }
        true
    }

    /// Whether the place for one, if it has any, has none itself.
    fn ends_at(&self, key: Place) -> bool
        ensures { result ≡ true → (q : Place) → place_for self.now key ≡ Some q → place_for self.now q ≡ None }
    {
        match self.get(key) {
            Some(place) => self.get(place).is_none(),
            None => true,
        }
    }

    /// The one entry, the first page's, where the map was never asked to hold another.
    pub fn only(&self) -> Option<(Place, Place)>
        ensures { IfSome result (λ o. (p : Place) → place_for self.now p ≡ (if same_place p o.0 then Some o.1 else None)) }
    {
        let [entry] = &self.places[..] else {
            return None;
        };
        let place = (*entry)?;
        let key = Place {
            space: self.space,
            page: self.first,
        };
        Some((key, place))
    }
}
