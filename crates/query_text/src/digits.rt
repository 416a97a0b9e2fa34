ghost use Rattle.std.specs.Prelude.{◌≡◌, ◌≤◌, ◌++◌, ◌∷◌, [], OnOk, drop};
ghost use Rattle.std.specs.Fmt.{decimal};

use std::alloc::AllocError;

/// How many decimal digits a number has at most.
const MOST_DIGITS: usize = 20;

/// Puts the decimal digits of a number behind a text. It is done by hand since replies are mostly numbers, for which std's `write!` was slow.
pub fn push_decimal(text: &mut Vec<u8>, number: u64) -> Result<(), AllocError>
    ensures { OnOk result (text.new.items ≡ text.old.items ++ decimal number) }
{
    let mut digits = [0; MOST_DIGITS];
    let first = put_digits(&mut digits, number);
    text.extend_from_slice(&digits[first..])
}

/// Puts a byte behind a text.
pub fn push_byte(text: &mut Vec<u8>, byte: u8) -> Result<(), AllocError>
    ensures { OnOk result (text.new.items ≡ text.old.items ++ byte ∷ []) }
{
    text.push(byte)?;
    Ok(())
}

/// Puts the decimal digits of a number at the end of an array, and tells where the first one stands.
fn put_digits(digits: &mut [u8; MOST_DIGITS], number: u64) -> usize
    ensures within { result ≤ MOST_DIGITS }
    ensures digits { drop result digits.new ≡ decimal number }
{
    let mut first = MOST_DIGITS;
    let mut rest = number;
    'digits: while rest >= 10 {
        first -= 1;
        digits[first] = b'0' + (rest % 10) as u8;
        rest /= 10;
    }
    first -= 1;
    digits[first] = b'0' + rest as u8;
    first
}
