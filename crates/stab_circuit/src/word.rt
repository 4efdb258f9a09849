ghost use Rattle.std.specs.Prelude.{◌≡◌, ◌≤◌, ◌<◌, ◌+◌, ◌*◌, ◌^◌, min, true, ◌∷◌, [], length, take, MatchOption};
ghost use Rattle.std.specs.Option.{option_copied};
ghost use Rattle.std.specs.List.{list_all, slice_split};
ghost use Rattle.stab_instructions.specs.Lines.{is_byte, is_digit as digit};
ghost use Rattle.stab_instructions.specs.Words.{words, is_blank as blank, is_number as number, value, pieces_after};
ghost use Rattle.stab_circuit.specs.inner.Numbers.{BeginsWithNumber, IsAfterWord, is_word_end};

use crate::line::is_digit;
use stab_instructions::{is_spacing, without_spacing_in_front, word_len};

/// A number of 64 bits can hold any number of this many digits.
const MOST_DIGITS: usize = 18;

/// The first word, and what follows it.
#[tactic(auto, using(stab_instructions::proofs::PieceLemmas::no_word, stab_instructions::proofs::PieceLemmas::one_word, stab_instructions::proofs::PieceLemmas::rest_shorter))]
pub fn first_word(bytes: &[u8]) -> Option<(&[u8], &[u8])>
    ensures value { MatchOption result (words bytes.now ≡ []) (λ p. words bytes.now ≡ p.0.now ∷ words p.1.now) }
    ensures shorter { MatchOption result (Unit {0}) (λ p. length p.1.now < length bytes.now) }
{
    let bytes = without_spacing_in_front(bytes);
    if bytes.is_empty() {
        return None;
    }
    Some(bytes.split_at(word_len(bytes)))
}

fn are_digits(bytes: &[u8]) -> bool
    ensures value { result ≡ list_all digit bytes.now }
{
    bytes.iter().all(|b| is_digit(*b))
}

/// Whether it is a decimal number: digits, at least one.
pub fn is_number(word: &[u8]) -> bool
    ensures value { result ≡ number word.now }
{
    !word.is_empty() && are_digits(word)
}

/// How many digits are in front, up to 18, and the number that they stand for.
#[tactic(auto, using(stab_instructions::proofs::WordLemmas::digits_more, stab_instructions::proofs::WordLemmas::value_more, stab_instructions::proofs::WordLemmas::few_digits))]
pub fn digits_in_front(bytes: &[u8]) -> (usize, u64)
    ensures within { result.0 ≤ length bytes.now }
    ensures digits { list_all digit (take result.0 bytes.now) ≡ true }
    ensures value { result.1 ≡ value (take result.0 bytes.now) }
{
    let most = bytes.len().min(MOST_DIGITS);
    let mut length = 0;
    let mut number = 0;
    while length < most && is_digit(bytes[length]) {
        number = number * 10 + u64::from(bytes[length]).saturating_sub(48);
        length += 1;
    }
    (length, number)
}

/// The number with one digit more, if one follows its digits, which are this many.
// Inlined, as are the others on the way of a short number, since long lists have nothing else.
#[inline(always)]
#[tactic(auto, using(stab_instructions::proofs::WordLemmas::digits_more, stab_instructions::proofs::WordLemmas::value_more))]
fn with_next_digit(bytes: &[u8], count: usize, number: u64) -> Option<u64>
    requires digits { list_all digit (take count bytes.now) ≡ true }
    requires value { number ≡ value (take count bytes.now) }
    requires small { number < 1000 }
    ensures here { MatchOption result (Unit {0}) (λ _. count < length bytes.now) }
    ensures digits { MatchOption result (Unit {0}) (λ _. list_all digit (take (count + 1) bytes.now) ≡ true) }
    ensures value { MatchOption result (Unit {0}) (λ n. n ≡ value (take (count + 1) bytes.now)) }
    ensures small { MatchOption result (Unit {0}) (λ n. n < number * 10 + 10) }
{
    if count < bytes.len() && is_digit(bytes[count]) {
        Some(number * 10 + u64::from(bytes[count]).saturating_sub(48))
    } else {
        None
    }
}

/// The same of up to four digits: most numbers have no more, and take no loop.
#[inline(always)]
pub fn few_digits_in_front(bytes: &[u8]) -> (usize, u64)
    ensures within { result.0 ≤ length bytes.now }
    ensures digits { list_all digit (take result.0 bytes.now) ≡ true }
    ensures value { result.1 ≡ value (take result.0 bytes.now) }
{
    let Some(one) = with_next_digit(bytes, 0, 0) else {
        return (0, 0);
    };
    let Some(two) = with_next_digit(bytes, 1, one) else {
        return (1, one);
    };
    let Some(three) = with_next_digit(bytes, 2, two) else {
        return (2, two);
    };
    match with_next_digit(bytes, 3, three) {
        Some(four) => (4, four),
        None => (3, three),
    }
}

/// The number below the cap that the first word is, and what follows it, if it is one of at most
/// 18 digits.
#[inline(always)]
pub fn first_number(bytes: &[u8], cap: u64) -> Option<(u64, &[u8])>
    ensures value { MatchOption result (Unit {0}) (λ p. BeginsWithNumber bytes.now p.0 p.1.now) }
    ensures below { MatchOption result (Unit {0}) (λ p. p.0 < cap) }
    ensures shorter { MatchOption result (Unit {0}) (λ p. length p.1.now < length bytes.now) }
{
    match number_in_front(bytes, cap) {
        Some(found) => Some(found),
        None => spaced_number(bytes, cap),
    }
}

/// The same of a number of few digits with no spacing before it.
#[inline(always)]
#[tactic(auto, using(crate::proofs::NumberLemmas::digits_front, crate::proofs::NumberLemmas::number_ends))]
fn number_in_front(bytes: &[u8], cap: u64) -> Option<(u64, &[u8])>
    ensures value { MatchOption result (Unit {0}) (λ p. BeginsWithNumber bytes.now p.0 p.1.now) }
    ensures below { MatchOption result (Unit {0}) (λ p. p.0 < cap) }
    ensures shorter { MatchOption result (Unit {0}) (λ p. length p.1.now < length bytes.now) }
{
    let (length, number) = few_digits_in_front(bytes);
    if length == 0 || number >= cap {
        return None;
    }
    match after_word(bytes.split_at(length).1) {
        Some(rest) => Some((number, rest)),
        None => None,
    }
}

/// The same of any number, perhaps after spacing.
// Not inlined, so that the loop over a list stays small.
#[inline(never)]
#[tactic(auto, using(crate::proofs::NumberLemmas::number_ends))]
fn spaced_number(bytes: &[u8], cap: u64) -> Option<(u64, &[u8])>
    ensures value { MatchOption result (Unit {0}) (λ p. BeginsWithNumber bytes.now p.0 p.1.now) }
    ensures below { MatchOption result (Unit {0}) (λ p. p.0 < cap) }
    ensures shorter { MatchOption result (Unit {0}) (λ p. length p.1.now < length bytes.now) }
{
    let bytes = without_spacing_in_front(bytes);
    let (length, number) = digits_in_front(bytes);
    if length == 0 || number >= cap {
        return None;
    }
    match after_word(bytes.split_at(length).1) {
        Some(rest) => Some((number, rest)),
        None => None,
    }
}

/// What follows a word that ends where the bytes begin, without the spacing that ends it.
#[inline(always)]
fn after_word(bytes: &[u8]) -> Option<&[u8]>
    ensures value { MatchOption result (Unit {0}) (λ rest. IsAfterWord bytes.now rest.now) }
{
    match bytes.first() {
        None => Some(bytes),
        Some(first) if is_spacing(*first) => Some(bytes.split_at(1).1),
        Some(_) => None,
    }
}

/// Whether a word ends where the bytes begin.
pub fn ends_word(bytes: &[u8]) -> bool
    ensures value { result ≡ is_word_end bytes.now }
{
    match bytes.first() {
        Some(first) => is_spacing(*first),
        None => true,
    }
}

/// The number that digits stand for, or the cap if it isn't below the cap.
#[tactic(auto, using(stab_instructions::proofs::WordLemmas::le_value_from, stab_instructions::proofs::WordLemmas::value_from_drop))]
pub fn capped_value(digits: &[u8], cap: u64) -> u64
    requires small { cap ≤ 10 ^ 18 }
    ensures value { result ≡ min (value digits.now) cap }
{
    let mut value = 0;
    for digit in digits {
        if value < cap {
            value = value * 10 + u64::from(*digit).saturating_sub(48);
        }
    }
    value.min(cap)
}
