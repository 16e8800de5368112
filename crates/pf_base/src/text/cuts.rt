//! Texts that are parted at a byte.
ghost use Rattle.std.specs.Prelude.{◌≡◌, ◌==◌, ◌<◌, ◌≤◌, [], ◌∷◌, length, IfNone, IfSome};
ghost use Rattle.std.specs.List.{after_first, before_first, position_or_len, slice_split};

// Where a byte is first, or the length where there is none.
fn place_of(text: &[u8], byte: u8) -> usize
    ensures within { result ≤ length text.now }
    ensures place { result ≡ position_or_len (λ b. b == byte) text.now }
{
    for (i, b) in text.iter().enumerate() {
        if *b == byte {
            return i;
        }
    }
    text.len()
}

/// What is before the first such byte; the whole text where there is none.
pub fn before_byte(text: &[u8], byte: u8) -> &[u8]
    ensures { result.now ≡ before_first (λ b. b == byte) text.now }
{
    &text[..place_of(text, byte)]
}

/// What is after the first such byte; nothing where there is none.
pub fn after_byte(text: &[u8], byte: u8) -> &[u8]
    ensures { result.now ≡ after_first (λ b. b == byte) text.now }
{
    match &text[place_of(text, byte)..] {
        [] => &[],
        [_, behind @ ..] => behind,
    }
}

/// What is before and after the first such byte; None where there is none.
pub fn cut_at(text: &[u8], byte: u8) -> Option<(&[u8], &[u8])>
    ensures none { IfNone result (slice_split (λ b. b == byte) text.now ≡ text.now ∷ []) }
    ensures parts { IfSome result (λ cut. slice_split (λ b. b == byte) text.now ≡ cut.0.now ∷ slice_split (λ b. b == byte) cut.1.now) }
{
    let place = place_of(text, byte);
    if place < text.len() {
        Some((&text[..place], &text[place + 1..]))
    } else {
        None
    }
}
