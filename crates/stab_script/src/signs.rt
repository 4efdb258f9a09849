//! The Pauli strings of words.
ghost use Rattle.std.specs.Prelude.{◌≡◌, ◌<◌, IfOk, length, nat_lt, true};
ghost use Rattle.std.specs.List.{list_all};
ghost use Rattle.stab_instructions.specs.Results.{Gives};
ghost use Rattle.stab_items.specs.Steps.{is_inverted as inverted_of};
ghost use Rattle.stab_script.specs.Signs.{unsigned as unsigned_of, is_string_byte as is_letter_of, letter_of_byte as letter_of, lettered, string_within, string_without_sign, string_of_word};

use stab_circuit::{read_product, starts_with};
use stab_instructions::Factor;
use stab_io::Refusal;
use stab_pauli::{Letter, Pauli};
use stab_run::write_product;
use std::alloc::Global;

/// The word without its sign, if it has one.
fn unsigned(word: &[u8]) -> &[u8]
    ensures value { result.now ≡ unsigned_of word.now }
{
    if starts_with(word, b'+') || starts_with(word, b'-') {
        word.split_at(1).1
    } else {
        word
    }
}

/// Whether a byte is a letter of a string.
fn is_letter(byte: u8) -> bool
    ensures value { result ≡ is_letter_of byte }
{
    byte == b'I' || byte == b'_' || byte == b'X' || byte == b'Y' || byte == b'Z'
}

/// The letter of such a byte.
fn letter_at(byte: u8) -> Letter
    ensures value { result ≡ letter_of byte }
{
    if byte == b'X' {
        Letter::X
    } else if byte == b'Y' {
        Letter::Y
    } else if byte == b'Z' {
        Letter::Z
    } else {
        Letter::I
    }
}

/// Whether all bytes are letters of a string.
fn are_letters(word: &[u8]) -> bool
    ensures value { result ≡ list_all is_letter_of word.now }
{
    word.iter().all(|b| is_letter(*b))
}

/// The string of one letter for each qubit.
#[tactic(auto, using(crate::proofs::SignLaws::letters_more, crate::proofs::SignLaws::letters_all))]
fn read_letters(alloc: Global, n: usize, word: &[u8]) -> Result<Pauli, Refusal>
    ensures gives { Gives result (lettered n word.now) }
    ensures size { IfOk result (λ p. length p.letters ≡ n) }
{
    if word.len() != n {
        return Err(Refusal::BadTarget);
    }
    let mut string = Pauli::identity(alloc, n)?;
    'letters: for qubit in 0..n {
        string.set(qubit, letter_at(word[qubit]));
    }
    Ok(string)
}

/// Whether the factors' `!` invert the sign.
fn is_inverted(factors: &[Factor]) -> bool
    ensures value { result ≡ inverted_of factors.now }
{
    let mut inverted = false;
    for factor in factors {
        inverted ^= factor.inverted;
    }
    inverted
}

/// Whether all factors are on qubits below n.
fn are_within(n: usize, factors: &[Factor]) -> bool
    ensures value { result ≡ list_all (λ f. nat_lt f.qubit n) factors.now }
{
    factors.iter().all(|f| f.qubit.number() < n)
}

/// The string of factors that are all on qubits below n.
#[tactic(auto, using(crate::proofs::SignLaws::all_within))]
fn string_of_factors_within(alloc: Global, n: usize, factors: &[Factor]) -> Result<Pauli, Refusal>
    requires within { list_all (λ f. nat_lt f.qubit n) factors.now ≡ true }
    ensures gives { Gives result (string_within n factors.now) }
    ensures size { IfOk result (λ p. length p.letters ≡ n) }
{
    let mut string = Pauli::identity(alloc, n)?;
    write_product(&mut string, factors);
    string.negate_if(is_inverted(factors));
    Ok(string)
}

/// The string of factors, if all are on qubits below n.
#[tactic(auto, using(crate::proofs::SignLaws::all_within))]
fn string_of_factors(alloc: Global, n: usize, factors: &[Factor]) -> Result<Pauli, Refusal>
    ensures gives { Gives result (string_within n factors.now) }
    ensures size { IfOk result (λ p. length p.letters ≡ n) }
{
    if !are_within(n, factors) {
        return Err(Refusal::QubitOutOfRange);
    }
    string_of_factors_within(alloc, n, factors)
}

/// The string of a word that has letters alone.
fn read_letters_alone(alloc: Global, n: usize, word: &[u8]) -> Result<Pauli, Refusal>
    requires letters { list_all is_letter_of word.now ≡ true }
    ensures gives { Gives result (string_without_sign n word.now) }
    ensures size { IfOk result (λ p. length p.letters ≡ n) }
{
    read_letters(alloc, n, word)
}

/// The string of letters, or of a product.
fn read_string_without_sign(alloc: Global, n: usize, word: &[u8]) -> Result<Pauli, Refusal>
    ensures gives { Gives result (string_without_sign n word.now) }
    ensures size { IfOk result (λ p. length p.letters ≡ n) }
{
    if are_letters(word) {
        return read_letters_alone(alloc, n, word);
    }
    let product = read_product(alloc, word)?;
    string_of_factors(alloc, n, product.as_slice())
}

/// The string of a word on n qubits: perhaps a sign, and then one letter for each qubit, or a
/// product as `MPP` has it.
///
/// Refusals: `BadTarget` for another spelling, a qubit that occurs twice, or too many or too few
/// letters; `QubitOutOfRange`; `OutOfMemory`.
#[tactic(auto, unfolding(crate::specs::Signs::string_of_word))]
pub fn read_string(alloc: Global, n: usize, word: &[u8]) -> Result<Pauli, Refusal>
    ensures gives { Gives result (string_of_word n word.now) }
    ensures size { IfOk result (λ p. length p.letters ≡ n) }
{
    let mut string = read_string_without_sign(alloc, n, unsigned(word))?;
    string.negate_if(starts_with(word, b'-'));
    Ok(string)
}
