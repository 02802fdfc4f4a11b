//! Numbers in decimal.

ghost use Rattle.std.specs.Prelude.{◌≡◌, ◌≢◌, ℕ, ◌^◌, ◌<◌, Some, MatchOption};
ghost use Rattle.std.specs.Fmt.{decimal};

/// The number below 2^64 that a text is in decimal: `None` exactly if the text isn't what `Display` writes of a number, as
/// where it has a sign or a needless zero.
#[tactic(auto, using(crate::proofs::DecimalLemmas::decimals))]
pub fn decimal_in(text: &str) -> Option<usize>
    ensures { MatchOption result ((n : ℕ) → n < 2 ^ 64 → text.now ≢ decimal n)
        (λ n. text.now ≡ decimal n) }
{
    let first = *text.as_bytes().first()?;
    if first == b'+' {
        return None;
    }
    if first == b'0' && text.len() > 1 {
        return None;
    }
    match text.parse::<usize>() {
        Ok(number) => Some(number),
        Err(_) => None,
    }
}
