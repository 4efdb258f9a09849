//! The word of a part of a search, K/N.
ghost use Rattle.std.specs.Prelude.{◌≡◌, ◌<◌, ◌≤◌, ◌^◌, ℕ, decimal, true, false, IfSome, IfNone};
ghost use Rattle.stab_search.specs.PartNumbers.{PartNumbers, most_parts};
ghost use Rattle.stab_args.specs.Asked.{IsAskedPart, part_word};

use itoa::Buffer;
use stab_search::SearchPart;

/// Whether a text is what is written of a number.
fn is_written(text: &str, number: usize) -> bool
    ensures yes { result ≡ true → text.now ≡ decimal number }
    ensures not { result ≡ false → text.now ≡ decimal number → ⊥ }
{
    let mut digits = Buffer::new();
    text.as_bytes() == digits.format(number).as_bytes()
}

/// The number that a text is written of, if there is one that a computer word holds.
fn number_of(text: &str) -> Option<usize>
    ensures some { IfSome result (λ n. text.now ≡ decimal n) }
    ensures within { IfSome result (λ n. n < 2 ^ 64) }
    ensures none { IfNone result ((n : ℕ) → n ≤ most_parts → text.now ≡ decimal n → ⊥) }
{
    match text.parse::<usize>() {
        Ok(number) if is_written(text, number) => Some(number),
        _ => None,
    }
}

/// The part that a word names, K/N in decimal digits without a needless 0, if there is such a part.
pub(crate) fn part_of(word: &str) -> Option<SearchPart>
    ensures some { IfSome result (λ p. word.now ≡ part_word p) }
    ensures none { IfNone result ((p : PartNumbers) → IsAskedPart p → word.now ≡ part_word p → ⊥) }
{
    let (number, count) = word.split_once('/')?;
    SearchPart::new(number_of(number)?, number_of(count)?)
}
