ghost use Rattle.std.specs.Prelude.{◌≡◌, ◌<◌, length, MatchOption};
ghost use Rattle.stab_instructions.specs.Results.{Gives, each};
ghost use Rattle.stab_circuit.specs.inner.FrontTargets.{BeginsWithTarget, begun_with, follows, second_of};
ghost use Rattle.stab_instructions.specs.Words.{words};
ghost use Rattle.stab_instructions.specs.declared.control.Control.TheVariants as by;
ghost use Rattle.stab_instructions.specs.Controls.{control_of, by_turns, pair_of, paired, controlled_of};

use crate::target::{is_record, qubit, qubit_at_front, record};
use crate::word::first_word;
use stab_instructions::{Control, ControlTarget, ControlledPair, Pair, Qubit, Sequence};
use stab_io::Refusal;
use std::alloc::Global;

/// The control of a word.
#[tactic(auto, unfolding(stab_instructions::specs::Controls::control_of))]
fn read_control(word: &[u8]) -> Result<Control, Refusal>
    ensures value { result ≡ control_of word.now }
{
    if is_record(word) {
        let lookback = record(word)?;
        Ok(Control::Record(lookback))
    } else {
        let qubit = qubit(word)?;
        Ok(Control::Qubit(qubit))
    }
}

/// The controls and the qubits, by turns.
fn control_targets(alloc: Global, words_text: &[u8]) -> Result<Sequence<ControlTarget>, Refusal>
    ensures gives { Gives result (by_turns (words words_text.now)) }
{
    let mut found = Vec::new(alloc);
    let mut rest = words_text;
    while let Some((word, after)) = first_word(rest) {
        let control = read_control(word)?;
        let Some((word, after)) = first_word(after) else {
            return Err(Refusal::BadPairing);
        };
        let qubit = qubit(word)?;
        found.push(ControlTarget { control, qubit })?;
        rest = after;
    }
    Ok(Sequence::of(found))
}

/// The pair of two qubits.
fn qubit_pair(first: Qubit, second: Qubit) -> Result<ControlledPair, Refusal>
    ensures value { result ≡ pair_of (by.Qubit first) second }
{
    if first == second {
        return Err(Refusal::BadPairing);
    }
    let pair = Pair::new(first, second);
    Ok(ControlledPair::Qubits(pair))
}

/// The pair of a control and a qubit.
fn pair(target: ControlTarget) -> Result<ControlledPair, Refusal>
    ensures value { result ≡ paired target }
{
    match &target.control {
        Control::Qubit(first) => qubit_pair(*first, target.qubit),
        Control::Record(lookback) => Ok(ControlledPair::Record(target.qubit, *lookback)),
    }
}

/// The pairs, and those of more controls and qubits after them.
fn with_pairs(
    mut found: Vec<ControlledPair>,
    targets: &[ControlTarget],
) -> Result<Sequence<ControlledPair>, Refusal>
    ensures gives { Gives result (follows found.items (each paired targets.now)) }
{
    for target in targets {
        found.push(pair(*target)?)?;
    }
    Ok(Sequence::of(found))
}

/// The pair of a qubit and the one that the first word is, and what follows the word, if this is
/// another number in range.
#[tactic(auto, using(crate::proofs::ControlLemmas::second_begins))]
fn second_at_front(first: Qubit, bytes: &[u8]) -> Option<(ControlledPair, &[u8])>
    ensures value { MatchOption result (Unit {0}) (λ p. BeginsWithTarget (second_of first) bytes.now p.0 p.1.now) }
    ensures shorter { MatchOption result (Unit {0}) (λ p. length p.1.now < length bytes.now) }
{
    match qubit_at_front(bytes) {
        Some((second, rest)) => match qubit_pair(first, second) {
            Ok(pair) => Some((pair, rest)),
            Err(_) => None,
        },
        None => None,
    }
}

/// The pair of different qubits that the first two words are, and what follows these, if they
/// are numbers in range.
#[tactic(auto, using(crate::proofs::ControlLemmas::pair_seen))]
fn pair_at_front(bytes: &[u8]) -> Option<(ControlledPair, &[u8])>
    ensures value { MatchOption result (Unit {0}) (λ p. controlled_of (words bytes.now) ≡ begun_with p.0 (controlled_of (words p.1.now))) }
    ensures shorter { MatchOption result (Unit {0}) (λ p. length p.1.now < length bytes.now) }
{
    match qubit_at_front(bytes) {
        Some(first) => second_at_front(first.0, first.1),
        None => None,
    }
}

/// The pairs of a control and a qubit.
///
/// Pairs of qubits are taken as they are met. From the first that isn't one, all words are judged
/// before the pairs are.
pub fn controlled_pairs(
    alloc: Global,
    words_text: &[u8],
) -> Result<Sequence<ControlledPair>, Refusal>
    ensures gives { Gives result (controlled_of (words words_text.now)) }
{
    let mut found = Vec::new(alloc);
    let mut rest = words_text;
    while let Some((pair, after)) = pair_at_front(rest) {
        found.push(pair)?;
        rest = after;
    }
    let targets = control_targets(alloc, rest)?;
    with_pairs(found, targets.as_slice())
}
