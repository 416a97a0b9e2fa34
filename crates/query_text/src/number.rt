ghost use Rattle.std.specs.Prelude.{◌≡◌, ◌≤◌, min, true, false, MatchOption};
ghost use Rattle.std.specs.Char.{is_ascii_digit};
ghost use Rattle.std.specs.List.{list_all};
ghost use Rattle.query_model.specs.Lines.{number_alone};
ghost use Rattle.query_model.specs.Numbers.{number_field, number_in, number_of};
ghost use Rattle.query_text.specs.Outcomes.{Gives};

use crate::fault::{BAD_NUMBER, EXTRA_FIELD, LineFault, MISSING_FIELD};
use crate::fields::Fields;

/// A number above each that a field may write.
const BEYOND: u64 = 1 << 32;

/// The one number of a line, which lies from `low` to `high`.
pub fn number_alone(mut fields: Fields<'_>, low: u32, high: u32) -> Result<u32, LineFault>
    ensures { Gives result (number_alone low high fields.entry) }
{
    let field = fields.next().ok_or(MISSING_FIELD)?;
    let number = number_field(field, low, high)?;
    if !fields.is_empty() {
        return Err(EXTRA_FIELD);
    }
    Ok(number)
}

/// The number of a field, which lies from `low` to `high`.
pub fn number_field(field: &[u8], low: u32, high: u32) -> Result<u32, LineFault>
    ensures { Gives result (number_field low high field.now) }
{
    number_in(field, low, high).ok_or(BAD_NUMBER)
}

/// The number that a field writes in decimal digits, where it lies from `low` to `high`.
fn number_in(field: &[u8], low: u32, high: u32) -> Option<u32>
    ensures { result ≡ number_in low high field.now }
{
    if field.is_empty() {
        return None;
    }
    let value = capped_value(field)?;
    if u64::from(low) <= value && value <= u64::from(high) {
        Some(value as u32)
    } else {
        None
    }
}

/// The number that decimal digits write, or [`BEYOND`] where it is greater.
fn capped_value(digits: &[u8]) -> Option<u64>
    ensures { MatchOption result (list_all is_ascii_digit digits.now ≡ false)
        (λ value. (list_all is_ascii_digit digits.now ≡ true) × (value ≡ min (number_of digits.now) BEYOND)) }
{
    let mut value = 0u64;
    for digit in digits {
        if !digit.is_ascii_digit() {
            return None;
        }
        value = (value * 10 + u64::from(*digit - b'0')).min(BEYOND);
    }
    Some(value)
}
