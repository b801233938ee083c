//! Records that are refused, by what is believed to be held.

use crate::beliefs::Place;
use crate::traces::Traces;
use crate::wanted::Wanted;
use fpage::Rights;
use std::alloc::AllocError;
use std::fmt::Write;

/// How many forms there are.
pub const COUNT: u32 = 49;

/// The forms of records that are refused. What stands between braces is named by `push_name`.
static FORMS: [&str; 49] = [
    // BadSize: the sizes 5 and 11, and a base behind the sizes 0 and 1.
    "unmap,{a},0,57",
    "unmap,{a},0,b7",
    "unmap,{a},0,1007",
    "unmap,{a},0,1017",
    // Misaligned, OutOfSpace, and both.
    "unmap,{a},0,10d7",
    "unmap,{a},0,{past}",
    "unmap,{a},0,{large}",
    "unmap,{a},0,{both}",
    // NotAnItem: bit 3 clear, bit 2 set, and with a bad fpage.
    "send,{a},{b},10,2,{page}",
    "send,{a},{b},10,c,{page}",
    "send,{a},{b},10,4,57",
    // BadControl: a high bit, more words, fewer words, and with a bad word.
    "unmap,{a},80,{page}",
    "unmap,{a},0,{page},{page}",
    "unmap,{a},1,{page}",
    "unmap,{a},1,57",
    // NoSuchSpace, SameSpace, NoWindow, and several at once.
    "send,{none},{a},10,8,{page}",
    "send,{a},{none},10,{map},{page}",
    "send,{none},{none},10,8,{page}",
    "send,{a},{a},10,{map},{page}",
    "send,{a},{a},0,8,{page}",
    "send,{a},{b},7,8,{page}",
    "send,{none},{a},10,8,57",
    "send,{a},{b},57,4,{page}",
    "send,{a},{b},10,8,57,4,{page}",
    "access,{none},0,r",
    "access,{none},{end},r",
    "access,{a},{end},w",
    "unmap,{none},0,{page}",
    "unmap,{none},0,57",
    "clear,{none}",
    "clear,{a},0",
    // A bad item or word behind a good one.
    "send,{a},{b},10,{map},{page},8,57",
    "unmap,{a},41,{page},57",
    "send,{a},{b},10,{map},{page},{map},b7",
    "send,{a},{b},10,{map},{page},c,{page}",
    "unmap,{a},42,{page},0,10d7",
    // BadRecord.
    "access,{a},{address},q",
    "access,{a},{address},r,r",
    "access,{a},{address}",
    "access,{a6},{address},r",
    "access,70000,0,r",
    "access,{a},0{address8},r",
    "access,{a},+{address},r",
    "send,{a},{b},10,{map},{page},8",
    "send,{a},{b},10",
    "items",
    "words",
    "map,{a},{b}",
    "unmap,{a}",
];

/// A good item, of which a send has one more than it may.
const ITEM: &str = ",{map},{page}";

/// What the names of a form stand for.
#[derive(Clone, Copy)]
struct Names {
    /// A space that there is, and a page of it.
    place: Place,
    /// Another space.
    other: u32,
    spaces: u32,
    bits: u32,
}

impl Traces {
    /// Makes a record that is refused: each form in turn, from a random one on.
    pub fn refuse(&mut self) -> Result<(), AllocError> {
        let form = FORMS[(self.form % COUNT) as usize];
        self.form = (self.form % COUNT) + 1;
        let slot = self.scan(Wanted::Any);
        let place = match slot {
            Some(slot) => self.place(slot),
            None => Place { space: 0, page: 0 },
        };
        let right = match slot {
            Some(slot) => self.right_of(self.known(slot).rights),
            None => Rights::of_bits(4),
        };
        let other = self.space_without(place);
        if form.starts_with("send,{a},{b},10,{map},{page},") {
            self.begin_look(
                Place {
                    space: other,
                    ..place
                },
                right,
            );
        }
        if form.starts_with("unmap,{a},4") {
            self.begin_look(place, right);
        }
        let names = Names {
            place,
            other,
            spaces: self.plan.spaces,
            bits: self.plan.bits,
        };
        self.push_form(form, names)
    }

    /// Another space: of four the first that does not hold a page, or the last.
    fn space_without(&mut self, place: Place) -> u32 {
        let mut other = 0;
        for _ in 0..4 {
            other = self.other_space(place.space);
            if self
                .beliefs
                .find(Place {
                    space: other,
                    ..place
                })
                .is_none()
            {
                break;
            }
        }
        other
    }

    /// Appends a form, or what stands for it in this version and in spaces of this size.
    fn push_form(&mut self, form: &str, names: Names) -> Result<(), AllocError> {
        let has_clear = self.plan.version.has_clear();
        match form {
            "items" => {
                self.push_names("send,{a},{b},10", names)?;
                self.push_times(32, ITEM, names)
            }
            "words" => {
                self.push_names("unmap,{a},3f", names)?;
                self.push_times(65, ",{page}", names)
            }
            "access,{none},{end},r" | "access,{a},{end},w" if names.bits == 32 => {
                self.push_names("unmap,{a},0,{large}", names)
            }
            "clear,{none}" | "clear,{a},0" if !has_clear => self.push_names("clear,{a}", names),
            _ => self.push_names(form, names),
        }
    }

    /// Appends a form so many times.
    fn push_times(&mut self, times: u32, form: &str, names: Names) -> Result<(), AllocError> {
        for _ in 0..times {
            self.push_names(form, names)?;
        }
        Ok(())
    }

    /// Appends a form, with what stands for its names.
    fn push_names(&mut self, form: &str, names: Names) -> Result<(), AllocError> {
        for piece in form.split('{') {
            match piece.split_once('}') {
                Some((name, rest)) => {
                    push_name(&mut self.line.text, names, name)?;
                    self.line.push_str(rest)?;
                }
                None => self.line.push_str(piece)?,
            }
        }
        Ok(())
    }
}

/// Appends what a name stands for: a space, or a word.
fn push_name(text: &mut String, names: Names, name: &str) -> Result<(), AllocError> {
    let space = names.place.space;
    match name {
        "a" => write!(text, "{space}"),
        "a6" => write!(text, "{space:06}"),
        "b" => write!(text, "{}", names.other),
        "none" => write!(text, "{}", names.spaces),
        "address8" => write!(text, "{:08x}", names.place.page << 12),
        _ => write!(text, "{:x}", names.word(name)),
    }
}

impl Names {
    /// The word that a name stands for.
    fn word(self, name: &str) -> u32 {
        let address = self.place.page << 12;
        // An fpage of twice the space.
        let large = (self.bits.min(32) + 1) << 4 | 7;
        match name {
            "page" => address | 0xc7,
            "map" => address | 8,
            "address" => address,
            "large" => large,
            "both" => 0x1000 | large,
            "past" => self.past(large),
            _ => 1 << self.bits.min(31),
        }
    }

    /// The word of the first page past the end. A space of 32 bits has every address: there a size is past its end.
    fn past(self, large: u32) -> u32 {
        if self.bits < 32 {
            1 << self.bits | 0xc7
        } else {
            large
        }
    }
}
