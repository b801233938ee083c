//! The codes that the functions answer, in the order of the header.

ghost use Rattle.std.specs.Prelude.{◌≡◌};
ghost use Rattle.mapdb.specs.Calls.{refusal_of};
ghost use Rattle.c_handle.specs.Codes.{refusal_code};

use mapdb::Refusal;

/// The call was done.
pub const DONE: u32 = 0;
/// An fpage's size field is 2 to 11, or it is 0 or 1 and there is a base.
const BAD_SIZE: u32 = 1;
/// An fpage's base is no multiple of its size.
const MISALIGNED: u32 = 2;
/// A page, an address or an fpage ends past the end of its space.
pub const OUT_OF_SPACE: u32 = 3;
/// An item's first word is neither a MapItem's nor a GrantItem's.
const NOT_AN_ITEM: u32 = 4;
/// A control word has a bit above its fields, or names another number of words.
const BAD_CONTROL: u32 = 5;
/// A space is named that there is not.
pub const NO_SUCH_SPACE: u32 = 6;
/// Sender and receiver are one space.
const SAME_SPACE: u32 = 7;
/// The receiver's window is nil.
const NO_WINDOW: u32 = 8;
/// The words of items are not 2 to 62 and even in number, or there is no such kind of access.
const BAD_CALL: u32 = 9;
/// The limits are not served.
pub const BAD_LIMITS: u32 = 10;
/// Memory for a new database was refused.
pub const NO_MEMORY: u32 = 11;
/// This call, or one before, ran out of memory in the middle.
pub const HALTED: u32 = 12;
/// The handle holds no database.
pub const EMPTY: u32 = 13;
/// The handle holds a database already.
pub const HOLDS_ONE: u32 = 14;

/// The code of a refusal.
pub fn refusal_code(refusal: Refusal) -> u32
    ensures { result ≡ refusal_code (refusal_of refusal) }
{
    match refusal {
        Refusal::BadSize => BAD_SIZE,
        Refusal::Misaligned => MISALIGNED,
        Refusal::OutOfSpace => OUT_OF_SPACE,
        Refusal::NotAnItem => NOT_AN_ITEM,
        Refusal::BadControl => BAD_CONTROL,
        Refusal::NoSuchSpace => NO_SUCH_SPACE,
        Refusal::SameSpace => SAME_SPACE,
        Refusal::NoWindow => NO_WINDOW,
        Refusal::BadRecord => BAD_CALL,
    }
}
