ghost use Rattle.std.specs.Prelude.{◌≡◌, ◌∷◌, ◌<◌, ℕ, List, length, IfNone, IfSome, ◌^◌, ℤ, decimal, FitsSigned};
ghost use Rattle.cap_listing.specs.Words.{HasNone, IsCut, IsPlain, joined};
ghost use Rattle.std.specs.Fmt.{signed_decimal};
ghost use Rattle.std.specs.Int.{w32};

/// The bytes before the first of this value, and those after it.
#[tactic(auto, using(crate::proofs::Cuts::cutting))]
pub(crate) fn cut(stop: u8, bytes: &[u8]) -> Option<(&[u8], &[u8])>
    ensures some { IfSome result (λ p. IsCut stop bytes.now p.0.now p.1.now) }
    ensures none { IfNone result (HasNone stop bytes.now) }
{
    'bytes: for k in 0..bytes.len() {
        if bytes[k] == stop {
            return Some((&bytes[..k], &bytes[k + 1..]));
        }
    }
    None
}

/// The first of some words, which stand one space apart, and the others.
pub(crate) fn cut_word(words: &[u8]) -> (&[u8], &[u8])
    ensures first { (w : List ℕ) (ws : List (List ℕ)) → IsPlain w → words.now ≡ joined (w ∷ ws)
        → (result.0.now ≡ w) × (result.1.now ≡ joined ws) }
    ensures shorter { 0 < length words.now → length result.1.now < length words.now }
{
    match cut(b' ', words) {
        Some((word, rest)) => (word, rest),
        None => (words, &[]),
    }
}

/// The number that a word writes in decimal, and any other where it writes none.
pub(crate) fn count(word: &[u8]) -> u16
    ensures { (n : ℕ) → n < 2 ^ 16 → word.now ≡ decimal n → result ≡ n }
{
    match str::from_utf8(word) {
        Ok(text) => text.parse::<u16>().unwrap_or(0),
        Err(_) => 0,
    }
}

/// The number of one byte that a word writes in decimal, and any other where it writes none.
pub(crate) fn byte(word: &[u8]) -> u8
    ensures { (n : ℕ) → n < 2 ^ 8 → word.now ≡ decimal n → result ≡ n }
{
    u8::try_from(count(word)).unwrap_or(0)
}

/// The number of 32 bits that a word writes in decimal, and any other where it writes none.
pub(crate) fn number(word: &[u8]) -> i32
    ensures { (z : ℤ) → FitsSigned w32 z → word.now ≡ signed_decimal z → result ≡ z }
{
    match str::from_utf8(word) {
        Ok(text) => match text.parse::<i32>() {
            Ok(number) => number,
            Err(_) => 0,
        },
        Err(_) => 0,
    }
}
