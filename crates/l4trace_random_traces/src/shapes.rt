//! Records of the plain shapes, which are picked without a look at what is held.

ghost use Rattle.std.specs.Prelude.{◌≡◌, ◌<◌};
ghost use Rattle.l4trace_random_traces.specs.Random.{IsPlan};

use crate::dice::Dice;
use crate::plan::{Plan, Shape};
use crate::spoil::push_refused;
use fpage::{ItemKind, Rights};
use l4trace_texts::{Size, control_word, fpage_word, item_word};
use std::alloc::AllocError;
use std::fmt::Write;

/// Appends a record of the plan's shape.
pub fn push_record(line: &mut String, dice: &mut Dice, plan: &Plan) -> Result<(), AllocError>
    requires { IsPlan plan.now }
{
    if dice.chance(plan.refused) {
        return push_refused(line, dice, plan);
    }
    match dice.below(10) {
        0..=4 => push_send(line, dice, plan),
        5..=7 => push_access(line, dice, plan),
        8 if plan.version.has_clear() => push_clear(line, dice, plan),
        _ => push_unmap(line, dice, plan),
    }
}

/// Appends an access of a page.
fn push_access(line: &mut String, dice: &mut Dice, plan: &Plan) -> Result<(), AllocError>
    requires { IsPlan plan.now }
{
    let space = dice.below(plan.spaces);
    let address = dice.below(plan.frames) * 4096 + dice.below(4096);
    let kind = match dice.below(3) {
        0 => "r",
        1 => "w",
        _ => "x",
    };
    write!(line, "access,{space},{address:x},{kind}\n")
}

/// Appends an unmap of one to three fpages.
fn push_unmap(line: &mut String, dice: &mut Dice, plan: &Plan) -> Result<(), AllocError>
    requires { IsPlan plan.now }
{
    let space = dice.below(plan.spaces);
    let words = 1 + dice.below(3);
    // What space 0 flushed would be gone for good.
    let control = control_word(space > 0 && dice.chance(30), words);
    write!(line, "unmap,{space},{control:x}")?;
    for _ in 0..words {
        let word = random_fpage(dice, plan);
        write!(line, ",{word:x}")?;
    }
    line.push_str("\n")
}

/// Appends a clear of a space.
fn push_clear(line: &mut String, dice: &mut Dice, plan: &Plan) -> Result<(), AllocError>
    requires { IsPlan plan.now }
{
    // What space 0 holds would be gone for good.
    let space = 1 + dice.below(plan.spaces - 1);
    write!(line, "clear,{space}\n")
}

/// Appends a send.
fn push_send(line: &mut String, dice: &mut Dice, plan: &Plan) -> Result<(), AllocError>
    requires { IsPlan plan.now }
{
    let (from, to) = ends(dice, plan);
    let window = match plan.shape {
        Shape::Fpages if dice.chance(50) => random_fpage(dice, plan),
        _ => 0x10,
    };
    write!(line, "send,{from},{to},{window:x}")?;
    let items = match plan.shape {
        Shape::Conflicts => 2 + dice.below(5),
        _ => 1 + dice.below(2),
    };
    for _ in 0..items {
        push_item(line, dice, plan, from)?;
    }
    line.push_str("\n")
}

/// Appends the two words of an item that a space sends.
fn push_item(line: &mut String, dice: &mut Dice, plan: &Plan, from: u32) -> Result<(), AllocError>
    requires { IsPlan plan.now }
{
    let grants = match plan.shape {
        Shape::Pagers => 20,
        _ => 5,
    };
    // Space 0 keeps the first pages, so that there is always something to send.
    let kind = if from > 0 && dice.chance(grants) {
        ItemKind::Grant
    } else {
        ItemKind::Map
    };
    let sent = random_fpage(dice, plan);
    // Where pages keep their addresses, later sends find them.
    let base = match plan.shape {
        Shape::Conflicts => dice.below(4) * 4096,
        Shape::Fpages => dice.below(plan.frames) * 4096,
        _ => sent / 4096 * 4096,
    };
    let first = item_word(kind, base);
    write!(line, ",{first:x},{sent:x}")
}

/// The sender and the receiver of a send, two spaces.
fn ends(dice: &mut Dice, plan: &Plan) -> (u32, u32)
    requires { IsPlan plan.now }
    ensures from { result.0 < plan.now.spaces }
    ensures to { result.1 < plan.now.spaces }
    ensures differ { result.0 ≡ result.1 → ⊥ }
{
    let last = plan.spaces - 1;
    match plan.shape {
        Shape::Chain => {
            let from = dice.below(last);
            (from, from + 1)
        }
        Shape::Tree => {
            let from = dice.below(last);
            (from, from + 1 + dice.below(last - from))
        }
        Shape::Pagers => {
            let pagers = 1 + last / 8;
            let pager = 1 + dice.below(pagers);
            if pager == last || dice.chance(40) {
                (0, pager)
            } else {
                (pager, pager + 1 + dice.below(last - pager))
            }
        }
        _ => {
            let from = dice.below(plan.spaces);
            let other = dice.below(last);
            (from, if other < from { other } else { other + 1 })
        }
    }
}

/// An fpage among the first pages, those that frames are held at.
fn random_fpage(dice: &mut Dice, plan: &Plan) -> u32
    requires { IsPlan plan.now }
{
    let sizes = match plan.shape {
        Shape::Fpages => plan.bits - 11,
        _ => 2,
    };
    let size = 12 + dice.below(sizes);
    let page = dice.below(plan.frames);
    let pages = 1u32 << (size - 12);
    let base = page / pages * pages * 4096;
    let rights = match dice.below(4) {
        0 => Rights::of_bits(dice.below(8)),
        _ => Rights::all(),
    };
    // It lies in the space, so no word is refused.
    fpage_word(base, Size::Bytes(size), rights, plan.bits).unwrap_or(0x17)
}
