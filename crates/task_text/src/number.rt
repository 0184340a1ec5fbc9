//! Words that are numbers.

ghost use Rattle.std.specs.Prelude.{◌≡◌, ◌<◌, ◌≤◌, ◌^◌, IsTrue, Some, None, length, if◌then◌else◌};
ghost use Rattle.std.specs.List.{list_all};
ghost use Rattle.std.specs.Str.Parse.{digits_value};
ghost use Rattle.task_syntax.specs.Names as names;
ghost use Rattle.task_text.specs.Scan as spec;

use crate::word::is_digit;

fn are_digits(word: &[u8]) -> bool
    ensures { result ≡ list_all names.is_digit word.now }
{
    word.iter().all(|byte| is_digit(*byte))
}

/// The value of at most 20 digits.
#[tactic(auto, using(crate::proofs::Digits::digits))]
fn value_of(digits: &[u8]) -> u128
    requires digits { IsTrue (list_all names.is_digit digits.now) }
    requires short { length digits.now ≤ 20 }
    ensures { result ≡ digits_value 10 digits.now }
{
    let mut value = 0u128;
    for digit in digits {
        value = 10 * value + u128::from(*digit - b'0');
    }
    value
}

/// The value of 1 to 20 digits, if it fits 64 bits.
pub fn number_of(word: &[u8]) -> Option<u64>
    ensures { result ≡ (if spec.is_number word.now then Some (digits_value 10 word.now) else None) }
{
    if word.is_empty() || word.len() > 20 || !are_digits(word) {
        return None;
    }
    u64::try_from(value_of(word)).ok()
}

/// 1 to 20 digits with a 64-bit value.
pub fn is_number(word: &[u8]) -> bool
    ensures { result ≡ spec.is_number word.now }
{
    number_of(word).is_some()
}
