ghost use Rattle.std.specs.Prelude.{◌≡◌, ◌≤◌, min, true, false, MatchOption, IfSome};
ghost use Rattle.std.specs.Char.{is_ascii_digit};
ghost use Rattle.std.specs.List.{list_all};
ghost use Rattle.query_words.specs.Numbers.{number_of, number_in};

/// A number above each that a word may write.
const BEYOND: u128 = 1 << 64;

/// The number that a word writes in decimal digits, where it lies from `least` to `most`.
pub(crate) fn number_in(word: &[u8], least: u64, most: u64) -> Option<u64>
    ensures number { result ≡ number_in least most word.now }
    ensures within { IfSome result (λ n. n ≤ most) }
{
    if word.is_empty() {
        return None;
    }
    let value = capped_value(word)?;
    if u128::from(least) <= value && value <= u128::from(most) {
        Some(value as u64)
    } else {
        None
    }
}

/// The number that decimal digits write, or [`BEYOND`] where it is greater.
fn capped_value(digits: &[u8]) -> Option<u128>
    ensures { MatchOption result (list_all is_ascii_digit digits.now ≡ false)
        (λ value. (list_all is_ascii_digit digits.now ≡ true) × (value ≡ min (number_of digits.now) BEYOND)) }
{
    let mut value = 0u128;
    for digit in digits {
        if !digit.is_ascii_digit() {
            return None;
        }
        value = (value * 10 + u128::from(*digit - b'0')).min(BEYOND);
    }
    Some(value)
}
