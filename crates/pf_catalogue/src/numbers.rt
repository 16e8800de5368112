//! Numbers as main.cf has them.
ghost use Rattle.std.specs.Prelude.{◌≡◌};
ghost use Rattle.pf_catalogue.specs.Numbers as spec;

/// A decimal number from the one to the other: digits alone, of which the first ones may be 0.
pub(crate) fn number_within(least: u32, most: u32, text: &[u8]) -> Option<u64>
    ensures { result ≡ spec.number_within least most text.now }
{
    if text.is_empty() {
        return None;
    }
    let mut number: u64 = 0;
    for b in text {
        if !b.is_ascii_digit() {
            return None;
        }
        number = number * 10 + u64::from(*b - b'0');
        if number > u64::from(most) {
            return None;
        }
    }
    if number < u64::from(least) {
        None
    } else {
        Some(number)
    }
}
