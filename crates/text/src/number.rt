// The number that a word writes.
ghost use Rattle.std.specs.Prelude.{◌≡◌, ◌≤◌, IfOk};
ghost use Rattle.std.specs.Result.{result_ok};
ghost use Rattle.text.specs.Numbers.{number_of, number_up_to, numeral_of};

use crate::problem::Problem;
use crate::word::Word;

// Decimal digits, or hexadecimal ones of either case after `0x`; below 2^64.
pub fn number(word: &str) -> Option<u64>
    ensures value { result ≡ number_of word.now }
{
    match word.strip_prefix("0x") {
        Some(digits) => numeral(digits, 16),
        None => numeral(word, 10),
    }
}

// A number that is not above `most`.
pub fn number_up_to(word: &str, most: u64) -> Result<u64, Problem<'_>>
    ensures value { result_ok result ≡ number_up_to most word.now }
    ensures bound { IfOk result (λ n. n ≤ most) }
{
    let value = u64::read(word)?;
    if value > most {
        return Err(Problem::TooLarge { value, most });
    }
    Ok(value)
}

fn numeral(digits: &str, base: u32) -> Option<u64>
    requires { (2 ≤ base) × (base ≤ 16) }
    ensures value { result ≡ numeral_of base digits.now }
{
    // `from_str_radix` takes a plus in front, which a listing has not
    if digits.starts_with('+') {
        return None;
    }
    u64::from_str_radix(digits, base).ok()
}
