ghost use Rattle.std.specs.Prelude.{◌≡◌, ◌⊎◌, ◌-◌, ◌↔◌, ℕ, ◌<◌, ◌≤◌, true, false, IsTrue, OnOk, IfOk, IfErr, IfSome, length, take, drop};
ghost use Rattle.stab_io.specs.declared.refusal.Refusal.TheVariants.{OutOfMemory};
ghost use Rattle.stab_pauli.specs.Paulis.{Signed};
ghost use Rattle.stab_tableau.specs.Columns.{stabiliser_of};
ghost use Rattle.stab_tableau.specs.Groups.{SameGroup};
ghost use Rattle.stab_tableau.specs.Tableaus.{stabilises};
ghost use Rattle.stab_run.specs.Records.{ones};
ghost use Rattle.stab_run.specs.ProgramStates.{output_of};
ghost use Rattle.stab_recording.specs.Meets.{Meets, ComesAgain};

use crate::checkpoint::Checkpoint;
use stab_io::Refusal;
use stab_pauli::Pauli;
use stab_run::Outputs;
use stab_tableau::{CompactTableau, Tableau};
use std::alloc::Global;

/// Whether a run with this state and these outputs meets a checkpoint of another run: whether the other run goes on from there as
/// this one would. The other run gave this much in all, and its steps look back no further than the lookback window. What is cheap
/// to compare comes first.
///
/// If rows have other letters the checkpoint is expanded into the spare tableau if there is one, and is then the spare itself. The
/// stabiliser of the state with the given number is compared first; if the states differ, the number is then that of a stabiliser
/// that shows it.
///
/// Refusal `OutOfMemory` alone.
pub fn meets(
    alloc: Global,
    tableau: &mut Tableau,
    outputs: &Outputs,
    checkpoint: &Checkpoint,
    old: &Outputs,
    window: u32,
    spare: &mut Option<Tableau>,
    determining: &mut usize,
) -> Result<bool, Refusal>
    requires same_qubits { checkpoint.now.tableau.qubits ≡ tableau.old.qubits }
    ensures unchanged { tableau.new ≡ tableau.old }
    ensures value { IfOk result (λ meets. IsTrue meets ↔ Meets tableau.old.qubits window tableau.old (output_of outputs.now) old.now.records.items old.now.free.items checkpoint.now) }
    ensures err { IfErr result (λ r. r ≡ OutOfMemory) }
{
    let records = first(old.records.as_slice(), checkpoint.lengths.records);
    if !end_alike(outputs.records.as_slice(), records, window as usize)
        || !may_have_coin(checkpoint, old.free.as_slice(), outputs.free.len())
    {
        return Ok(false);
    }
    has_group_of(tableau, alloc, &checkpoint.tableau, spare, determining)
}

/// Whether a run with this state and these outputs is as it was at one of its own checkpoints, as far back as its steps look. What
/// is cheap to compare comes first. It takes no memory.
pub fn comes_again(
    tableau: &Tableau,
    outputs: &Outputs,
    checkpoint: &Checkpoint,
    window: u32,
) -> bool
    ensures value { IsTrue result ↔ ComesAgain window tableau.now (output_of outputs.now) checkpoint.now }
{
    let records = outputs.records.as_slice();
    end_alike(
        records,
        first(records, checkpoint.lengths.records),
        window as usize,
    ) && are_fixed(outputs.free.as_slice(), checkpoint.lengths.free)
        && checkpoint.tableau.is_of(tableau)
}

/// Whether no coin decided, by the randomness after this many coins.
pub fn are_fixed(randomness: &[bool], count: usize) -> bool
    ensures value { IsTrue result ↔ (ones (drop count randomness.now) ≡ 0) }
{
    let (_, following) = randomness.split_at(count.min(randomness.len()));
    !has_one(following)
}

/// Whether the same strings stabilise a state and a checkpoint, which is expanded into the spare tableau if its rows have other
/// letters. The stabiliser with the given number is compared first, and the number becomes that of one that shows a difference.
///
/// Refusal `OutOfMemory` alone.
fn has_group_of(
    tableau: &mut Tableau,
    alloc: Global,
    checkpoint: &CompactTableau,
    spare: &mut Option<Tableau>,
    determining: &mut usize,
) -> Result<bool, Refusal>
    requires same_qubits { checkpoint.now.qubits ≡ tableau.old.qubits }
    ensures unchanged { tableau.new ≡ tableau.old }
    ensures value { IfOk result (λ same. IsTrue same ↔ SameGroup tableau.old.qubits (stabilises tableau.old) (stabilises checkpoint.now)) }
    ensures err { IfErr result (λ r. r ≡ OutOfMemory) }
{
    if checkpoint.is_of(tableau) {
        return Ok(true);
    }
    if let Some(same) = same_by_signs(tableau, alloc, checkpoint)? {
        return Ok(same);
    }
    let mut other = checkpoint.tableau(alloc, spare.take())?;
    let same = same_by_stabilisers(tableau, alloc, &mut other, determining)?;
    *spare = Some(other);
    Ok(same)
}

/// Whether the same strings stabilise a state and a checkpoint, if their rows have the same letters: the states differ by a string,
/// which changes nothing if one of its signs stabilises them.
///
/// Refusal `OutOfMemory` alone.
fn same_by_signs(
    tableau: &mut Tableau,
    alloc: Global,
    checkpoint: &CompactTableau,
) -> Result<Option<bool>, Refusal>
    requires same_qubits { checkpoint.now.qubits ≡ tableau.old.qubits }
    ensures unchanged { tableau.new ≡ tableau.old }
    ensures value { IfOk result (λ found. IfSome found (λ same. IsTrue same ↔ SameGroup tableau.old.qubits (stabilises tableau.old) (stabilises checkpoint.now))) }
    ensures err { IfErr result (λ r. r ≡ OutOfMemory) }
{
    let mut frame = Pauli::identity(alloc, tableau.len())?;
    if !checkpoint.frame_to(tableau, &mut frame) {
        return Ok(None);
    }
    tableau.stabilises_a_group();
    tableau.stabilisers_generate();
    match tableau.sign_of(&frame) {
        Some(_) => Ok(Some(true)),
        None => Ok(Some(false)),
    }
}

/// Whether the same strings stabilise two states: each stabiliser of the one is asked whether it stabilises the other, from the one
/// with the given number on, and then those before it. The number becomes that of the first that does not.
///
/// Refusal `OutOfMemory` alone.
fn same_by_stabilisers(
    tableau: &mut Tableau,
    alloc: Global,
    other: &mut Tableau,
    determining: &mut usize,
) -> Result<bool, Refusal>
    requires same_qubits { other.old.qubits ≡ tableau.old.qubits }
    ensures unchanged { tableau.new ≡ tableau.old }
    ensures other_unchanged { other.new ≡ other.old }
    ensures value { IfOk result (λ same. IsTrue same ↔ SameGroup tableau.old.qubits (stabilises tableau.old) (stabilises other.old)) }
    ensures err { IfErr result (λ r. r ≡ OutOfMemory) }
{
    tableau.stabilises_a_group();
    tableau.stabilisers_generate();
    other.stabilises_a_group();
    let end = tableau.len();
    let start = end.min(*determining);
    if !are_shared(tableau, alloc, other, start, end, determining)? {
        return Ok(false);
    }
    let same = are_shared(tableau, alloc, other, 0, start, determining)?;
    Ok(same)
}

/// Whether the stabilisers of a state from one number to another stabilise another state. If not, the number that is stored
/// becomes that of the first that does not.
///
/// Refusal `OutOfMemory` alone.
fn are_shared(
    tableau: &mut Tableau,
    alloc: Global,
    other: &mut Tableau,
    from: usize,
    end: usize,
    determining: &mut usize,
) -> Result<bool, Refusal>
    requires within { end ≤ tableau.old.qubits }
    requires same_qubits { other.old.qubits ≡ tableau.old.qubits }
    ensures unchanged { tableau.new ≡ tableau.old }
    ensures other_unchanged { other.new ≡ other.old }
    ensures all { IfOk result (λ shared. shared ≡ true → (k : ℕ) → k < end → from ≤ k → (length (stabiliser_of tableau.old k).letters ≡ tableau.old.qubits) × (stabilises other.old (stabiliser_of tableau.old k) ≡ true)) }
    ensures not_all { IfOk result (λ shared. shared ≡ false → (p : Signed) × (length p.letters ≡ tableau.old.qubits) × (stabilises tableau.old p ≡ true) × (stabilises other.old p ≡ false)) }
    ensures err { IfErr result (λ r. r ≡ OutOfMemory) }
{
    for k in from..end {
        if !is_shared(tableau, alloc, other, k)? {
            *determining = k;
            return Ok(false);
        }
    }
    Ok(true)
}

/// Whether a stabiliser of a state stabilises another one.
///
/// Refusal `OutOfMemory` alone.
fn is_shared(
    tableau: &mut Tableau,
    alloc: Global,
    other: &mut Tableau,
    k: usize,
) -> Result<bool, Refusal>
    requires in_range { k < tableau.old.qubits }
    requires same_qubits { other.old.qubits ≡ tableau.old.qubits }
    ensures unchanged { tableau.new ≡ tableau.old }
    ensures other_unchanged { other.new ≡ other.old }
    ensures size { OnOk result (length (stabiliser_of tableau.old k).letters ≡ tableau.old.qubits) }
    ensures member { OnOk result (stabilises tableau.old (stabiliser_of tableau.old k) ≡ true) }
    ensures value { IfOk result (λ shared. shared ≡ stabilises other.old (stabiliser_of tableau.old k)) }
    ensures err { IfErr result (λ r. r ≡ OutOfMemory) }
{
    let stabiliser = tableau.stabiliser(alloc, k)?;
    match other.sign_of(&stabiliser) {
        Some(negative) => Ok(!negative),
        None => Ok(false),
    }
}

/// Whether the next coin may have this number at a checkpoint, in a run with this randomness: it has it there, or no coin decides later.
pub fn may_have_coin(checkpoint: &Checkpoint, free: &[bool], coin: usize) -> bool
    ensures value { IsTrue result ↔ ((coin ≡ checkpoint.now.lengths.free) ⊎ (ones (drop checkpoint.now.lengths.free free.now) ≡ 0)) }
{
    coin == checkpoint.lengths.free || are_fixed(free, checkpoint.lengths.free)
}

/// The first bits of a list, this many.
fn first(bits: &[bool], count: usize) -> &[bool]
    ensures value { result.now ≡ take count bits.now }
{
    let (first, _) = bits.split_at(count.min(bits.len()));
    first
}

/// The last bits of a list, this many.
fn last(bits: &[bool], count: usize) -> &[bool]
    ensures value { result.now ≡ drop (length bits.now - count) bits.now }
{
    let (_, last) = bits.split_at(bits.len().saturating_sub(count));
    last
}

/// Whether the last bits of two lists are the same, this many, or all if a list has fewer.
fn end_alike(bits: &[bool], others: &[bool], count: usize) -> bool
    ensures value { IsTrue result ↔ (drop (length bits.now - count) bits.now ≡ drop (length others.now - count) others.now) }
{
    last(bits, count) == last(others, count)
}

/// Whether there is a 1 among bits.
pub fn has_one(bits: &[bool]) -> bool
    ensures one { result ≡ true → 1 ≤ ones bits.now }
    ensures none { result ≡ false → ones bits.now ≡ 0 }
{
    for bit in bits {
        if *bit {
            return true;
        }
    }
    false
}
