ghost use Rattle.std.specs.Prelude.{◌≡◌, ℕ, List, ◌≤◌, ◌<◌, length, Result, IsTrue, MatchOption};
ghost use Rattle.stab_io.specs.declared.refusal.Refusal.{Refusal};
ghost use Rattle.stab_instructions.specs.Results.{Gives, each};
ghost use Rattle.stab_instructions.specs.Words.{words};
ghost use Rattle.stab_circuit.specs.inner.FrontTargets.{BeginsWithTarget, GivesFirst, IsShorterRest};
ghost use Rattle.stab_instructions.specs.Targets.{qubit_of, measure_target_of, lookback_of, lookback_digits, is_lookback, count_of, pairs_of};

use crate::line::{ends_with, starts_with};
use crate::word::{capped_value, digits_in_front, ends_word, first_number, first_word, is_number};
use stab_instructions::{
    Count, Lookback, Lookbacks, MeasureTarget, Pair, Qubit, Sequence, without_spacing_in_front,
};
use stab_io::Refusal;
use std::alloc::Global;

/// The greatest number of qubits.
pub const MOST_QUBITS: u64 = 1024;

/// The greatest k of `rec[-k]`.
pub const MOST_LOOKBACK: u64 = 16_777_215;

/// A kind of target, which a word may mean.
pub trait Target {
    /// What is stored of a target.
    type Stored: Drop;

    // What the word means.
    ghost meaning: { List ℕ → Result Self.Stored Refusal };

    /// What the word means as such a target.
    fn of(alloc: Global, word: &[u8]) -> Result<Self::Stored, Refusal>
        ensures gives { Gives result (meaning word.now) };

    /// What the first word means, and what follows it, if a look at its bytes is enough to see it.
    /// If it isn't, `of` says what the word means, or why it means nothing.
    fn at_front(bytes: &[u8]) -> Option<(Self::Stored, &[u8])>
        ensures value { MatchOption result (Unit {0}) (λ p. BeginsWithTarget meaning bytes.now p.0 p.1.now) }
        ensures shorter { MatchOption result (Unit {0}) (λ p. length p.1.now < length bytes.now) };
}

/// The qubit of a word.
#[tactic(auto, unfolding(stab_instructions::specs::Targets::qubit_of))]
pub fn qubit(word: &[u8]) -> Result<Qubit, Refusal>
    ensures value { result ≡ qubit_of word.now }
{
    if !is_number(word) {
        return Err(Refusal::BadTarget);
    }
    let number = capped_value(word, MOST_QUBITS);
    if number < MOST_QUBITS {
        Ok(Qubit::new(number as u16))
    } else {
        Err(Refusal::QubitOutOfRange)
    }
}

/// The targets that are qubits.
pub struct QubitTargets;

impl Target for QubitTargets {
    type Stored = Qubit;

    ghost meaning = { qubit_of };

    fn of(_alloc: Global, word: &[u8]) -> Result<Qubit, Refusal> {
        qubit(word)
    }

    fn at_front(bytes: &[u8]) -> Option<(Qubit, &[u8])> {
        qubit_at_front(bytes)
    }
}

/// The qubit that the first word is, and what follows it, if the word is a number in range. It is inlined, since each qubit
/// of a long list is read by it.
#[inline(always)]
#[tactic(auto, using(crate::proofs::FrontTargetLemmas::qubit_begins))]
pub fn qubit_at_front(bytes: &[u8]) -> Option<(Qubit, &[u8])>
    ensures value { MatchOption result (Unit {0}) (λ p. BeginsWithTarget qubit_of bytes.now p.0 p.1.now) }
    ensures shorter { MatchOption result (Unit {0}) (λ p. length p.1.now < length bytes.now) }
{
    match first_number(bytes, MOST_QUBITS) {
        Some((number, rest)) => Some((Qubit::new(number as u16), rest)),
        None => None,
    }
}

/// The targets that are measured.
pub struct MeasureTargets;

impl Target for MeasureTargets {
    type Stored = MeasureTarget;

    ghost meaning = { measure_target_of };

    #[tactic(auto, unfolding(stab_instructions::specs::Targets::measure_target_of))]
    fn of(_alloc: Global, word: &[u8]) -> Result<MeasureTarget, Refusal> {
        let inverted = starts_with(word, b'!');
        if inverted {
            let qubit = qubit(word.split_at(1).1)?;
            Ok(MeasureTarget {
                qubit,
                inverted: true,
            })
        } else {
            let qubit = qubit(word)?;
            Ok(MeasureTarget {
                qubit,
                inverted: false,
            })
        }
    }

    #[tactic(auto, using(crate::proofs::FrontTargetLemmas::measure_target_begins))]
    fn at_front(bytes: &[u8]) -> Option<(MeasureTarget, &[u8])> {
        match qubit_at_front(bytes) {
            Some((qubit, rest)) => {
                let target = MeasureTarget {
                    qubit,
                    inverted: false,
                };
                Some((target, rest))
            }
            None => None,
        }
    }
}

/// How far back the record of a word is looked for.
#[tactic(auto, unfolding(stab_instructions::specs::Targets::lookback_of))]
pub fn record(word: &[u8]) -> Result<Lookback, Refusal>
    ensures value { result ≡ lookback_of word.now }
{
    if !is_record(word) {
        return Err(Refusal::BadTarget);
    }
    let number = capped_value(record_digits(word), MOST_LOOKBACK + 1);
    if 0 < number && number <= MOST_LOOKBACK {
        Ok(Lookback::new(number as u32))
    } else {
        Err(Refusal::BadTarget)
    }
}

/// The targets that are records.
pub struct RecordTargets;

impl Target for RecordTargets {
    type Stored = u32;

    ghost meaning = { lookback_of };

    fn of(_alloc: Global, word: &[u8]) -> Result<u32, Refusal> {
        let lookback = record(word)?;
        Ok(lookback.number())
    }

    fn at_front(bytes: &[u8]) -> Option<(u32, &[u8])> {
        record_at_front(bytes)
    }
}

/// How far back the record of the first word is looked for, and what follows the word, if it is
/// written as a record in range is.
pub fn record_at_front(bytes: &[u8]) -> Option<(u32, &[u8])>
    ensures value { MatchOption result (Unit {0}) (λ p. BeginsWithTarget lookback_of bytes.now p.0 p.1.now) }
    ensures shorter { MatchOption result (Unit {0}) (λ p. length p.1.now < length bytes.now) }
{
    let bytes = without_spacing_in_front(bytes);
    if !bytes.starts_with(b"rec[-") {
        return None;
    }
    let following = bytes.split_at(5).1;
    let (length, number) = digits_in_front(following);
    let closing = following.split_at(length).1;
    if !starts_with(closing, b']') {
        return None;
    }
    let rest = closing.split_at(1).1;
    if 0 < number && number <= MOST_LOOKBACK && ends_word(rest) {
        Some((number as u32, rest))
    } else {
        None
    }
}

fn record_digits(word: &[u8]) -> &[u8]
    requires long { 6 ≤ length word.now }
    ensures value { result.now ≡ lookback_digits word.now }
{
    word.split_at(5).1.split_at(word.len() - 6).0
}

/// Whether it is written as a record is.
pub fn is_record(word: &[u8]) -> bool
    ensures value { result ≡ is_lookback word.now }
    ensures long { IsTrue result → 6 ≤ length word.now }
{
    word.starts_with(b"rec[-")
        && word.len() > 6
        && ends_with(word, b']')
        && is_number(record_digits(word))
}

/// The targets that are counts of rounds.
pub struct CountTargets;

impl Target for CountTargets {
    type Stored = Option<Count>;

    ghost meaning = { count_of };

    #[tactic(auto, unfolding(stab_instructions::specs::Targets::count_of), using(stab_instructions::proofs::WordLemmas::eighteen_digits))]
    fn of(_alloc: Global, word: &[u8]) -> Result<Option<Count>, Refusal> {
        if !is_number(word) {
            return Err(Refusal::BadTarget);
        }
        let number = capped_value(word, 1_000_000_000_000_000_000);
        if word.len() > 18 || number == 0 {
            Ok(None)
        } else {
            Ok(Some(Count::new(number)))
        }
    }

    fn at_front(_bytes: &[u8]) -> Option<(Option<Count>, &[u8])> {
        None
    }
}

/// What the first word means, and what follows it; none if there is no word.
fn first_target<T: Target>(
    alloc: Global,
    bytes: &[u8],
) -> Result<Option<(T::Stored, &[u8])>, Refusal>
    ensures gives { GivesFirst T.meaning bytes.now result }
    ensures shorter { IsShorterRest bytes.now result }
{
    if let Some(first) = T::at_front(bytes) {
        return Ok(Some(first));
    }
    match first_word(bytes) {
        None => Ok(None),
        Some((word, after)) => {
            let first = T::of(alloc, word)?;
            Ok(Some((first, after)))
        }
    }
}

/// The targets of a word each.
pub fn targets<T: Target>(alloc: Global, words_text: &[u8]) -> Result<Sequence<T::Stored>, Refusal>
    ensures gives { Gives result (each T.meaning (words words_text.now)) }
{
    let mut found = Vec::new(alloc);
    let mut rest = words_text;
    while let Some((target, after)) = first_target::<T>(alloc, rest)? {
        found.push(target)?;
        rest = after;
    }
    Ok(Sequence::of(found))
}

/// The records' numbers.
#[tactic(auto, using(stab_instructions::proofs::TargetLemmas::lookbacks_in_range))]
pub fn lookbacks(alloc: Global, words_text: &[u8]) -> Result<Lookbacks, Refusal>
    ensures gives { Gives result (each lookback_of (words words_text.now)) }
{
    let numbers = targets::<RecordTargets>(alloc, words_text)?;
    Ok(Lookbacks::new(numbers))
}

/// The qubits in pairs of neighbours.
#[tactic(auto, using(stab_instructions::proofs::TargetLemmas::pair_more, stab_instructions::proofs::TargetLemmas::pair_same, stab_instructions::proofs::TargetLemmas::pair_alone))]
pub fn pairs(alloc: Global, qubits: &[Qubit]) -> Result<Sequence<Pair>, Refusal>
    ensures gives { Gives result (pairs_of qubits.now) }
{
    let mut found = Vec::new(alloc);
    let mut rest = qubits;
    while rest.len() > 1 {
        let first = rest[0];
        let second = rest[1];
        if first == second {
            return Err(Refusal::BadPairing);
        }
        found.push(Pair::new(first, second))?;
        rest = rest.split_at(2).1;
    }
    if rest.is_empty() {
        Ok(Sequence::of(found))
    } else {
        Err(Refusal::BadPairing)
    }
}
