//! Words of a script, and the paths that they stand for.
ghost use Rattle.std.specs.Prelude.{◌≡◌, true, false, Some, None, MatchOption};
ghost use Rattle.stab_instructions.specs.Words.{value};
ghost use Rattle.stab_script.specs.ScriptWords.{first_word as first_of, after_word, is_path_number, path_of_word};

use stab_circuit::{Path, capped_value, is_number};
use stab_instructions::{first_piece, without_spacing_in_front, word_len};

/// The most numbers of a path.
const MOST_NUMBERS: usize = 17;

/// The first word of a text that does not begin with spacing, and what follows it, without the
/// spacing in front.
pub(crate) fn first_word(text: &[u8]) -> (&[u8], &[u8])
    ensures word { result.0.now ≡ first_of text.now }
    ensures rest { result.1.now ≡ after_word text.now }
{
    let (word, rest) = text.split_at(word_len(text));
    (word, without_spacing_in_front(rest))
}

/// The number of a path that a word stands for: 1 to 18 digits.
#[tactic(auto, using(stab_instructions::proofs::WordLemmas::eighteen_digits))]
pub(crate) fn path_number(word: &[u8]) -> Option<usize>
    ensures value { MatchOption result (is_path_number word.now ≡ false) (λ n. (is_path_number word.now ≡ true) × (n ≡ value word.now)) }
{
    if is_number(word) && word.len() <= 18 {
        Some(capped_value(word, 1_000_000_000_000_000_000) as usize)
    } else {
        None
    }
}

/// The path that a word stands for.
#[tactic(auto, unfolding(crate::specs::ScriptWords::path_of_word))]
pub fn read_path(word: &[u8]) -> Option<Path>
    ensures value { MatchOption result (path_of_word word.now ≡ None) (λ p. path_of_word word.now ≡ Some p) }
{
    let mut numbers = [0; MOST_NUMBERS];
    let mut count = 0;
    let mut rest = Some(word);
    while let Some(text) = rest {
        let (part, after) = first_piece(text, b'/');
        match path_number(part) {
            None => return None,
            Some(number) => {
                if count == MOST_NUMBERS {
                    return None;
                }
                numbers[count] = number;
                count += 1;
            }
        }
        rest = after;
    }
    Some(Path::new(numbers.split_at(count).0))
}
