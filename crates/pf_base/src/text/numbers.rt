//! Numbers as they are printed and read.
ghost use Rattle.std.specs.Prelude.{◌≡◌, ◌≤◌, IfOk, IfSome};
ghost use Rattle.std.specs.Char.{is_ascii_digit};
ghost use Rattle.std.specs.Fmt.{decimal};
ghost use Rattle.std.specs.List.{list_all};
ghost use Rattle.std.specs.String.{string_bytes};
ghost use Rattle.pf_base.specs.Text.Numbers as numbers;

use crate::fault::NoMemory;
use std::alloc::Global;

/// The decimal digits of a number.
pub fn decimal(alloc: Global, n: u64) -> Result<String, NoMemory>
    ensures { IfOk result (λ digits. string_bytes digits ≡ decimal n) }
{
    let digits = format!(in alloc; "{n}")?;
    Ok(digits)
}

fn has_digits(text: &[u8]) -> bool
    ensures { result ≡ list_all is_ascii_digit text.now }
{
    text.iter().all(|b| b.is_ascii_digit())
}

// Whether a text is decimal digits without a leading zero.
fn is_decimal(text: &[u8]) -> bool
    ensures { result ≡ numbers.is_decimal text.now }
{
    has_digits(text) && (text.len() == 1 || text.len() > 1 && text[0] != b'0')
}

fn at_most(most: u64, number: u64) -> Option<u64>
    ensures is { result ≡ numbers.at_most most number }
    ensures within { IfSome result (λ n. n ≤ most) }
{
    if number <= most { Some(number) } else { None }
}

/// The number up to `most` that decimal digits without sign or leading zeros write; None where the text is none.
pub fn decimal_within(text: &[u8], most: u64) -> Option<u64>
    ensures is { result ≡ numbers.decimal_within most text.now }
    ensures within { IfSome result (λ number. number ≤ most) }
{
    if !is_decimal(text) {
        return None;
    }
    let Ok(digits) = str::from_utf8(text) else {
        unreachable!();
    };
    match digits.parse::<u64>() {
        Ok(number) => at_most(most, number),
        Err(_) => None,
    }
}
