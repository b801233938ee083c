//! Digits in either case.

ghost use Rattle.std.specs.Prelude.{◌≡◌, ◌<◌, IfSome};
ghost use Rattle.model.specs.Definitions.Records.{hex_digit, digit_in};

/// What stands for a byte that is no digit.
const NO: u8 = 16;

/// The value of each byte that is a hexadecimal digit, in either case. (A look-up takes as long for a letter as for another
/// digit, where tests would have to guess which comes.)
static DIGITS: [u8; 256] = [
    NO, NO, NO, NO, NO, NO, NO, NO, NO, NO, NO, NO, NO, NO, NO, NO, NO, NO, NO, NO, NO, NO, NO, NO,
    NO, NO, NO, NO, NO, NO, NO, NO, NO, NO, NO, NO, NO, NO, NO, NO, NO, NO, NO, NO, NO, NO, NO, NO,
    0, 1, 2, 3, 4, 5, 6, 7, 8, 9, NO, NO, NO, NO, NO, NO, NO, 10, 11, 12, 13, 14, 15, NO, NO, NO,
    NO, NO, NO, NO, NO, NO, NO, NO, NO, NO, NO, NO, NO, NO, NO, NO, NO, NO, NO, NO, NO, NO, NO, 10,
    11, 12, 13, 14, 15, NO, NO, NO, NO, NO, NO, NO, NO, NO, NO, NO, NO, NO, NO, NO, NO, NO, NO, NO,
    NO, NO, NO, NO, NO, NO, NO, NO, NO, NO, NO, NO, NO, NO, NO, NO, NO, NO, NO, NO, NO, NO, NO, NO,
    NO, NO, NO, NO, NO, NO, NO, NO, NO, NO, NO, NO, NO, NO, NO, NO, NO, NO, NO, NO, NO, NO, NO, NO,
    NO, NO, NO, NO, NO, NO, NO, NO, NO, NO, NO, NO, NO, NO, NO, NO, NO, NO, NO, NO, NO, NO, NO, NO,
    NO, NO, NO, NO, NO, NO, NO, NO, NO, NO, NO, NO, NO, NO, NO, NO, NO, NO, NO, NO, NO, NO, NO, NO,
    NO, NO, NO, NO, NO, NO, NO, NO, NO, NO, NO, NO, NO, NO, NO, NO, NO, NO, NO, NO, NO, NO, NO, NO,
    NO, NO, NO, NO, NO, NO, NO, NO, NO, NO, NO, NO, NO, NO,
];

/// Returns the value of a hexadecimal digit, in either case.
fn hex_digit(byte: u8) -> Option<u32>
    ensures { result ≡ hex_digit byte }
{
    let digit = DIGITS[usize::from(byte)];
    if digit == NO {
        return None;
    }
    Some(u32::from(digit))
}

/// Returns the value of a digit of a base, in either case.
pub fn digit(byte: u8, base: u32) -> Option<u32>
    ensures value { result ≡ digit_in base byte }
    ensures below { IfSome result (λ digit. digit < base) }
{
    let digit = hex_digit(byte)?;
    if digit < base { Some(digit) } else { None }
}
