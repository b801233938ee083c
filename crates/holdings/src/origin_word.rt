//! An origin in one number.

use space::Place;
use std::marker::Model;

/// How far up the space of a place stands in the number.
const SPACE: u32 = 1 << 20;

/// The origin of a page, or none, in four bytes.
#[derive(Clone, Copy)]
pub struct OriginWord {
    /// 0 for none; else one more than the page and, from bit 20 on, the space.
    word: u32,
}

impl Model for OriginWord {
    ghost use Rattle.std.specs.Prelude.{◌≤◌, ◌^◌, Option};
    ghost use Rattle.space.specs.declared.place.Place.{Place};
    ghost use Rattle.holdings.specs.Inner.OriginWords.{origin_of_word, word_of_origin};

    ghost Value = { Option Place };

    ghost view = { λ o. origin_of_word o.word };

    ghost invariant = { λ o. o.word ≤ 2 ^ 29 };

    ghost inverse = { λ o. record { word = word_of_origin o } };
}

impl OriginWord {
    ghost use Rattle.std.specs.Prelude.{◌≡◌, IfSome};
    ghost use Rattle.holdings.specs.Inner.OriginWords.{IsSmall};

    /// Packs an origin.
    pub fn of(origin: Option<Place>) -> OriginWord
        requires { IfSome origin IsSmall }
        ensures { result ≡ origin }
    {
        let word = match origin {
            None => 0,
            Some(place) => 1 + u32::from(place.space) * SPACE + place.page,
        };
        OriginWord { word }
    }

    /// The origin that was packed.
    pub fn origin(self) -> Option<Place>
        ensures { result ≡ self }
    {
        if self.word == 0 {
            return None;
        }
        let number = self.word - 1;
        Some(Place {
            space: (number / SPACE) as u16,
            page: number % SPACE,
        })
    }
}
