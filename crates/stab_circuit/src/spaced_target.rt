ghost use Rattle.std.specs.Prelude.{◌≡◌, ◌<◌, false, ℕ, List, [], ◌∷◌, length, Result, MatchOption};
ghost use Rattle.std.specs.Option.{option_copied};
ghost use Rattle.stab_io.specs.declared.refusal.Refusal.{Refusal};
ghost use Rattle.stab_instructions.specs.Results.{each};
ghost use Rattle.stab_instructions.specs.Targets.{qubit_of, measure_target_of};
ghost use Rattle.stab_instructions.specs.declared.control.ControlledPair.TheVariants.{Qubits};
ghost use Rattle.stab_instructions.specs.Controls.{controlled_of};
ghost use Rattle.stab_circuit.specs.inner.PlainLines.{paired_words, EndsLine, IsSpacedQubit, IsSpacedPair, AreSpacedTargets, ReadsTargets};

use crate::line::starts_with;
use crate::target::{MOST_QUBITS, MeasureTargets, QubitTargets};
use crate::word::few_digits_in_front;
use stab_instructions::{ControlledPair, MeasureTarget, Pair, Qubit, Sequence};
use stab_io::Refusal;
use std::alloc::Global;

/// A kind of target that may be written as numbers alone.
pub trait SpacedTarget {
    /// What is stored of a target.
    type Stored: Drop;

    // What words mean as such targets.
    ghost meaning: { List (List ℕ) → Result (List Self.Stored) Refusal };

    /// The target that is in front as numbers of few digits, with one space before each, and what
    /// follows it.
    fn in_front(bytes: &[u8]) -> Option<(Self::Stored, &[u8])>
        ensures value { MatchOption result (Unit {0}) (λ p. AreSpacedTargets meaning bytes.now (p.0 ∷ []) p.1.now) }
        ensures shorter { MatchOption result (Unit {0}) (λ p. length p.1.now < length bytes.now) };
}

/// The qubit that is in front as a number of few digits after a space, and what follows it.
// Inlined, since each qubit of a long list is read by it.
#[inline(always)]
fn spaced_qubit(bytes: &[u8]) -> Option<(Qubit, &[u8])>
    ensures value { MatchOption result (Unit {0}) (λ p. IsSpacedQubit bytes.now p.0 p.1.now) }
    ensures shorter { MatchOption result (Unit {0}) (λ p. length p.1.now < length bytes.now) }
{
    if !starts_with(bytes, b' ') {
        return None;
    }
    let digits = bytes.split_at(1).1;
    let (length, number) = few_digits_in_front(digits);
    if length == 0 || number >= MOST_QUBITS {
        return None;
    }
    Some((Qubit::new(number as u16), digits.split_at(length).1))
}

/// The two different qubits that are in front in the same way, and what follows them.
#[inline(always)]
fn spaced_pair(bytes: &[u8]) -> Option<(Pair, &[u8])>
    ensures value { MatchOption result (Unit {0}) (λ p. IsSpacedPair bytes.now p.0 p.1.now) }
    ensures shorter { MatchOption result (Unit {0}) (λ p. length p.1.now < length bytes.now) }
{
    let Some((first, following)) = spaced_qubit(bytes) else {
        return None;
    };
    let Some((second, rest)) = spaced_qubit(following) else {
        return None;
    };
    if first == second {
        return None;
    }
    Some((Pair::new(first, second), rest))
}

impl SpacedTarget for QubitTargets {
    type Stored = Qubit;

    ghost meaning = { each qubit_of };

    #[inline(always)]
    fn in_front(bytes: &[u8]) -> Option<(Qubit, &[u8])> {
        spaced_qubit(bytes)
    }
}

/// A qubit that is measured as it is.
#[inline(always)]
fn measured(qubit: Qubit) -> MeasureTarget
    ensures value { result ≡ record { qubit = qubit; inverted = false } }
{
    MeasureTarget {
        qubit,
        inverted: false,
    }
}

impl SpacedTarget for MeasureTargets {
    type Stored = MeasureTarget;

    ghost meaning = { each measure_target_of };

    #[inline(always)]
    fn in_front(bytes: &[u8]) -> Option<(MeasureTarget, &[u8])> {
        match spaced_qubit(bytes) {
            Some(found) => Some((measured(found.0), found.1)),
            None => None,
        }
    }
}

/// The targets that are pairs of qubits.
pub struct PairTargets;

impl SpacedTarget for PairTargets {
    type Stored = Pair;

    ghost meaning = { paired_words };

    #[inline(always)]
    fn in_front(bytes: &[u8]) -> Option<(Pair, &[u8])> {
        spaced_pair(bytes)
    }
}

/// The targets that are pairs of a control and a qubit.
pub struct ControlledTargets;

/// A pair whose first qubit controls.
#[inline(always)]
fn controlled(pair: Pair) -> ControlledPair
    ensures value { result ≡ Qubits pair }
{
    ControlledPair::Qubits(pair)
}

impl SpacedTarget for ControlledTargets {
    type Stored = ControlledPair;

    ghost meaning = { controlled_of };

    #[inline(always)]
    fn in_front(bytes: &[u8]) -> Option<(ControlledPair, &[u8])> {
        match spaced_pair(bytes) {
            Some(found) => Some((controlled(found.0), found.1)),
            None => None,
        }
    }
}

/// The lines after the end of a line, if it ends here and there are any.
fn after_line_end(bytes: &[u8]) -> Option<Option<&[u8]>>
    ensures value { MatchOption result (Unit {0}) (λ after. EndsLine bytes.now (option_copied after)) }
{
    match bytes.first() {
        None => Some(None),
        Some(first) if *first == b'\n' => Some(Some(bytes.split_at(1).1)),
        Some(_) => None,
    }
}

/// The targets up to the end of the line, and the lines after it, if there are any. They are read if they are
/// written as numbers of few digits, with one space before each.
pub fn targets_in_front<T: SpacedTarget>(
    alloc: Global,
    bytes: &[u8],
) -> Result<Option<(Sequence<T::Stored>, Option<&[u8]>)>, Refusal>
    ensures reports { ReadsTargets T.meaning bytes.now result }
{
    let mut found = Vec::new(alloc);
    let mut rest = bytes;
    while let Some((target, after)) = T::in_front(rest) {
        found.push(target)?;
        rest = after;
    }
    match after_line_end(rest) {
        Some(after) => Ok(Some((Sequence::of(found), after))),
        None => Ok(None),
    }
}
