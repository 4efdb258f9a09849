ghost use Rattle.std.specs.Prelude.{◌≡◌, ◌<◌, IsTrue, length};
ghost use Rattle.std.specs.List.{list_all, slice_split};
ghost use Rattle.stab_instructions.specs.Results.{Gives, each};
ghost use Rattle.stab_instructions.specs.Lines.{is_byte};
ghost use Rattle.stab_instructions.specs.Axes.{first_axis as first_axis_of};
ghost use Rattle.stab_instructions.specs.Products.{unmarked as unmarked_of, is_factor as is_factor_of, factor_of, is_on as is_on_of, names_twice as names_twice_of, product_of};

use crate::line::starts_with;
use crate::target::{Target, qubit};
use crate::word::is_number;
use stab_instructions::{Axis, Factor, Product, Qubit, Sequence, first_piece};
use stab_io::Refusal;
use std::alloc::Global;

/// The word without the `!` in front.
fn unmarked(word: &[u8]) -> &[u8]
    ensures value { result.now ≡ unmarked_of word.now }
{
    if starts_with(word, b'!') {
        word.split_at(1).1
    } else {
        word
    }
}

/// The axis that the first byte names, as a capital or not.
fn first_axis(bytes: &[u8]) -> Option<Axis>
    ensures value { result ≡ first_axis_of bytes.now }
{
    match bytes.first() {
        Some(b'X' | b'x') => Some(Axis::X),
        Some(b'Y' | b'y') => Some(Axis::Y),
        Some(b'Z' | b'z') => Some(Axis::Z),
        _ => None,
    }
}

/// Whether it is spelled as a factor is.
#[tactic(auto, unfolding(stab_instructions::specs::Products::is_factor))]
fn is_factor(word: &[u8]) -> bool
    ensures value { result ≡ is_factor_of word.now }
{
    let word = unmarked(word);
    !word.is_empty() && first_axis(word).is_some() && is_number(word.split_at(1).1)
}

/// The factor of a word.
#[tactic(auto, unfolding(stab_instructions::specs::Products::factor_of))]
fn factor(word: &[u8]) -> Result<Factor, Refusal>
    ensures value { result ≡ factor_of word.now }
{
    let bare = unmarked(word);
    let Some(letter) = first_axis(bare) else {
        return Err(Refusal::BadTarget);
    };
    let qubit = qubit(bare.split_at(1).1)?;
    Ok(Factor {
        letter,
        qubit,
        inverted: starts_with(word, b'!'),
    })
}

/// Whether all that `*` joins is spelled as factors are.
fn are_factors(word: &[u8]) -> bool
    ensures value { result ≡ list_all is_factor_of (slice_split (is_byte 42) word.now) }
{
    let mut rest = Some(word);
    while let Some(bytes) = rest {
        let (piece, after) = first_piece(bytes, b'*');
        if !is_factor(piece) {
            return false;
        }
        rest = after;
    }
    true
}

/// The factors that `*` joins.
fn factors(alloc: Global, word: &[u8]) -> Result<Sequence<Factor>, Refusal>
    ensures gives { Gives result (each factor_of (slice_split (is_byte 42) word.now)) }
{
    let mut found = Vec::new(alloc);
    let mut rest = Some(word);
    while let Some(bytes) = rest {
        let (piece, after) = first_piece(bytes, b'*');
        found.push(factor(piece)?)?;
        rest = after;
    }
    Ok(Sequence::of(found))
}

/// Whether one of the factors is on the qubit.
fn is_on(qubit: Qubit, factors: &[Factor]) -> bool
    ensures value { result ≡ is_on_of qubit factors.now }
{
    factors.iter().any(|f| f.qubit == qubit)
}

/// Whether two of the factors are on one qubit. It begins with the last ones, so that it compares
/// each with no more factors than there are qubits.
#[tactic(auto, using(crate::proofs::ProductLemmas::twice_from, crate::proofs::ProductLemmas::twice_found))]
fn names_twice(factors: &[Factor]) -> bool
    ensures value { result ≡ names_twice_of factors.now }
{
    let mut start = factors.len();
    while start > 0 {
        start -= 1;
        if is_on(factors[start].qubit, factors.split_at(start + 1).1) {
            return true;
        }
    }
    false
}

/// The product of a word: factors joined by `*`, each a letter on a qubit, perhaps with `!` before it.
///
/// Refusals: `BadTarget` for another spelling or a qubit that occurs twice, `QubitOutOfRange`, `OutOfMemory`.
#[tactic(auto, unfolding(stab_instructions::specs::Products::product_of))]
pub fn read_product(alloc: Global, word: &[u8]) -> Result<Product, Refusal>
    ensures gives { Gives result (product_of word.now) }
{
    if !are_factors(word) {
        return Err(Refusal::BadTarget);
    }
    let factors = factors(alloc, word)?;
    if names_twice(factors.as_slice()) {
        return Err(Refusal::BadTarget);
    }
    Ok(Product::new(factors))
}

/// The targets that are products.
pub struct ProductTargets;

impl Target for ProductTargets {
    type Stored = Product;

    ghost meaning = { product_of };

    fn of(alloc: Global, word: &[u8]) -> Result<Product, Refusal> {
        read_product(alloc, word)
    }

    fn at_front(_bytes: &[u8]) -> Option<(Product, &[u8])> {
        None
    }
}
