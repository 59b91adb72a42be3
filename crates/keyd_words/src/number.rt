// Numbers as the words write them: decimal digits without a sign and without a leading zero.
ghost use Rattle.std.specs.Prelude.{◌≡◌, ℕ, ◌<◌, ◌^◌, MatchOption};
ghost use Rattle.std.specs.Fmt.{decimal};
ghost use Rattle.keyd_words.specs.Values.{WritesNumber};

// The number that a text writes. None where it writes no number below 2^64 in this way.
pub(crate) fn number_in(text: &[u8]) -> Option<u64>
    ensures { MatchOption result ((n : ℕ) → n < 2 ^ 64 → text.now ≡ decimal n → ⊥) (λ n. (text.now ≡ decimal n) × (n < 2 ^ 64)) }
{
    if text.is_empty() {
        return None;
    }
    if text[0] == b'+' {
        return None;
    }
    if text[0] == b'0' && text.len() > 1 {
        return None;
    }
    let Ok(text) = str::from_utf8(text) else {
        return None;
    };
    text.parse::<u64>().ok()
}

// The number from low to high that a text writes.
pub(crate) fn number_from(text: &[u8], low: u32, high: u32) -> Option<u32>
    ensures { MatchOption result ((n : _) → WritesNumber text.now low high n → ⊥) (λ n. WritesNumber text.now low high n) }
{
    let number = number_in(text)?;
    if number < low as u64 {
        return None;
    }
    if (high as u64) < number {
        return None;
    }
    Some(number as u32)
}
