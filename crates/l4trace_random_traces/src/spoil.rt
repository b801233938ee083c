//! Records that are refused.

ghost use Rattle.l4trace_random_traces.specs.Random.{IsPlan};

use crate::dice::Dice;
use crate::plan::Plan;
use std::alloc::AllocError;
use std::fmt::Write;

/// Appends a record that is refused, whatever is held: one with each refusal is as likely as any other.
pub fn push_refused(line: &mut String, dice: &mut Dice, plan: &Plan) -> Result<(), AllocError>
    requires { IsPlan plan.now }
{
    let Plan { spaces, bits, .. } = *plan;
    let space = dice.below(spaces);
    match dice.below(9) {
        // BadSize: s is 5.
        0 => write!(line, "unmap,{space},0,57\n"),
        // Misaligned: the size is 8K, and the base a multiple of 4K.
        1 => write!(line, "unmap,{space},0,10d7\n"),
        // OutOfSpace.
        2 => push_outside(line, space, bits),
        // NotAnItem.
        3 => write!(line, "send,0,1,10,6,c7\n"),
        // BadControl: two words are to follow.
        4 => write!(line, "unmap,{space},1,c7\n"),
        // NoSuchSpace.
        5 if plan.version.has_clear() && dice.chance(50) => write!(line, "clear,{spaces}\n"),
        5 => write!(line, "send,{space},{spaces},10,8,c7\n"),
        // SameSpace.
        6 => write!(line, "send,{space},{space},10,8,c7\n"),
        // NoWindow.
        7 => write!(line, "send,0,1,0,8,c7\n"),
        // BadRecord.
        _ => write!(line, "access,{space},0,q\n"),
    }
}

/// Appends a record that names what is outside a space of `2^bits` bytes: an access of the first address behind it.
/// A space of 32 bits has every address; there it is an unmap of an fpage of `2^33` bytes.
fn push_outside(line: &mut String, space: u32, bits: u32) -> Result<(), AllocError> {
    if bits < 32 {
        write!(line, "access,{space},{:x},r\n", 1u32 << bits)
    } else {
        write!(line, "unmap,{space},0,217\n")
    }
}
