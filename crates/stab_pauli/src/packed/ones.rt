//! Bits that are set: how many, and whether their number is odd.

ghost use Rattle.std.specs.Prelude.{◌≡◌, ◌≤◌};
ghost use Rattle.stab_pauli.specs.inner.Words.{word_odd, words_odd, word_ones, words_ones};

use std::simd::u64x4;

/// Whether an odd number of bits of a word is set.
#[inline(always)]
pub(crate) fn is_odd(word: u64) -> bool
    ensures value { result ≡ word_odd 64 word }
{
    word.count_ones() % 2 == 1
}

/// Whether an odd number of bits of four words is set.
#[inline(always)]
pub(crate) fn are_odd(words: u64x4) -> bool
    ensures value { result ≡ words_odd 64 words }
{
    // The first and third and the second and fourth, and then both, while they are a vector.
    let pairs = words ^ words.rotate_elements_left::<2>();
    let all = pairs ^ pairs.rotate_elements_left::<1>();
    is_odd(all.to_array()[0])
}

/// How many bits of a word are set.
#[inline(always)]
fn ones(word: u64) -> u32
    ensures value { result ≡ word_ones 64 word }
    ensures few { result ≤ 64 }
{
    word.count_ones()
}

/// How many bits of four words are set.
#[inline(always)]
pub(crate) fn all_ones(words: u64x4) -> u32
    ensures value { result ≡ words_ones 64 words }
{
    let [first, second, third, fourth] = words.to_array();
    ones(first) + ones(second) + ones(third) + ones(fourth)
}
