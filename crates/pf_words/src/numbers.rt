//! Numbers as they are written in words.
ghost use Rattle.std.specs.Prelude.{◌≡◌};
ghost use Rattle.pf_words.specs.Numbers as numbers;

use pf_base::decimal_within;

// How many bytes a session may take at most.
pub(crate) const GREATEST_BUDGET: u64 = 4_294_967_296;

fn at_least_one(number: u64) -> Option<u64>
    ensures { result ≡ numbers.at_least_one number }
{
    if number > 0 { Some(number) } else { None }
}

/// The number from 1 to the greatest budget that decimal digits without sign or leading zeros write; None where the text is none.
#[tactic(auto, unfolding(crate::specs::Numbers::budget_of))]
pub(crate) fn budget_of(text: &str) -> Option<u64>
    ensures { result ≡ numbers.budget_of text.now }
{
    let number = decimal_within(text.as_bytes(), GREATEST_BUDGET)?;
    at_least_one(number)
}
