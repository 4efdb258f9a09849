//! What a script asks of its circuit as a whole: which bits are the same for all random bits, what each coin decides, the way of a string, and
//! the distance.
ghost use Rattle.std.specs.Prelude.{◌≡◌, ℕ, Bool, None, false, length, IfOk, IfErr};
ghost use Rattle.stab_io.specs.Refusals.{whole};
ghost use Rattle.stab_io.specs.declared.refusal.Refusal.TheVariants.{OutOfMemory};
ghost use Rattle.stab_items.specs.Steps.{check_of, check_within, unroll};
ghost use Rattle.stab_items.specs.Views.{circuit_items};
ghost use Rattle.stab_results.specs.declared.format.Format.TheVariants.{F01};
ghost use Rattle.stab_report.specs.Deterministic.{IsDeterministicText};
ghost use Rattle.stab_ways.specs.Laws.{FlipsRun, coins_with};
ghost use Rattle.stab_script.specs.CoinReplies.{coins_shown, why_shown};
ghost use Rattle.stab_script.specs.CountedAnswers.{GivesText};
ghost use Rattle.stab_script.specs.CountedReplies.{text_found};
ghost use Rattle.stab_script.specs.Words.{put_in_of};
ghost use Rattle.stab_script.specs.WayTexts.{way_text};
ghost use Rattle.stab_script.specs.Scripts.{options_asked};
ghost use Rattle.stab_script.specs.inner.Distances.{ShowsDistance};

use crate::lines::{bits_flipped, write_way};
use crate::reply::Reply;
use crate::words::read_put_in;
use stab_circuit::Circuit;
use stab_commands::{find_distance, has_bit, write_coins, write_distance, write_why};
use stab_io::{Fault, Refusal};
use stab_jobs::{DistanceOptions, ErrorLetters, FaultLayout};
use stab_pauli::Pauli;
use stab_regions::deterministic;
use stab_report::Bit;
use stab_search::Unwatched;
use stab_ways::{placed, way_of};
use std::alloc::Global;

/// The line of a bit for each detector and then each observable, as the command `deterministic`
/// writes it; fault `OutOfMemory` alone.
#[tactic(auto, using(crate::proofs::DeterministicBitLaws::deterministic_fault))]
pub(crate) fn show_deterministic(alloc: Global, circuit: &Circuit) -> Result<Reply, Fault>
    requires checked { check_of (circuit_items circuit.now) ≡ None }
    ensures shows { IfOk result (λ r. IsDeterministicText F01 (circuit_items circuit.now) r.written) }
    ensures err { IfErr result (λ f. f ≡ whole OutOfMemory) }
{
    let deterministic = deterministic(alloc, circuit, circuit.qubits())?;
    Reply::bits(alloc, deterministic.as_slice())
}

/// The lines of the table, as the command `coins` writes them; fault `OutOfMemory` alone.
pub(crate) fn show_coins(alloc: Global, circuit: &Circuit) -> Result<Reply, Fault>
    requires checked { check_of (circuit_items circuit.now) ≡ None }
    ensures shows { IfOk result (λ r. r.written ≡ coins_shown (circuit_items circuit.now)) }
    ensures err { IfErr result (λ f. f ≡ whole OutOfMemory) }
{
    let mut reply = Reply::new(alloc);
    match write_coins(alloc, circuit, &mut reply, FaultLayout::Lines) {
        Ok(()) => Ok(reply),
        Err(_) => Err(Fault::whole(Refusal::OutOfMemory)),
    }
}

/// The line of a bit, as `deterministic --explain` writes it.
pub(crate) fn show_why(alloc: Global, circuit: &Circuit, bit: Bit) -> Result<Reply, Refusal>
    requires checked { check_of (circuit_items circuit.now) ≡ None }
    ensures shows { GivesText result (why_shown (circuit_items circuit.now) bit) }
{
    if !has_bit(circuit, bit) {
        return Err(Refusal::PlaceOutOfRange);
    }
    let mut reply = Reply::new(alloc);
    match write_why(alloc, circuit, &mut reply, bit) {
        Ok(()) => Ok(reply),
        Err(_) => Err(Refusal::OutOfMemory),
    }
}

/// The way of a string that is put in after this many steps, as the command `propagate` writes it; refusal `OutOfMemory` alone.
pub(crate) fn way_reply(
    alloc: Global,
    circuit: &Circuit,
    every: bool,
    steps: usize,
    string: &Pauli,
) -> Result<Reply, Refusal>
    requires checked { check_of (circuit_items circuit.now) ≡ None }
    requires fits { check_within (length string.now.letters) (circuit_items circuit.now) ≡ None }
    ensures shows { IfOk result (λ r. r.written ≡ way_text (circuit_items circuit.now) every (record { steps = steps; string = string.now.letters })) }
    ensures runs { IfOk result (λ r. (coins : ℕ → Bool) → FlipsRun (length string.now.letters) steps string.now.letters (unroll (circuit_items circuit.now)) coins (coins_with (length string.now.letters) steps string.now.letters (unroll (circuit_items circuit.now)) coins)) }
    ensures err { IfErr result (λ r. r ≡ OutOfMemory) }
{
    let way = way_of(alloc, circuit, every, steps, string)?;
    let bits = bits_flipped(alloc, circuit, &way.end)?;
    let left = placed(alloc, way.end.letters())?;
    let mut reply = Reply::new(alloc);
    let (turns, bits, left) = (way.turns.as_slice(), bits.as_slice(), left.as_slice());
    match write_way(&mut reply, circuit, turns, bits, left) {
        Ok(()) => Ok(reply),
        Err(_) => Err(Refusal::OutOfMemory),
    }
}

/// The way of the string of a word on n qubits, put in where another says, as the command `propagate` writes it.
pub(crate) fn show_way(
    alloc: Global,
    circuit: &Circuit,
    n: usize,
    at: &[u8],
    word: &[u8],
) -> Result<Reply, Refusal>
    requires checked { check_of (circuit_items circuit.now) ≡ None }
    requires fits { check_within n (circuit_items circuit.now) ≡ None }
    ensures shows { GivesText result (text_found (way_text (circuit_items circuit.now) false) (put_in_of n (circuit_items circuit.now) at.now word.now)) }
{
    let (steps, string) = read_put_in(alloc, circuit, n, at, word)?;
    way_reply(alloc, circuit, false, steps, &string)
}

/// What a script asks of a distance.
fn options_asked(everywhere: bool, most: usize) -> DistanceOptions
    ensures value { result ≡ options_asked everywhere most }
{
    DistanceOptions {
        everywhere,
        letters: ErrorLetters::All,
        graphlike: false,
        observable: None,
        most: Some(most),
        deterministic_only: false,
        progress: false,
    }
}

/// The distance up to this many errors, as the command `distance` writes it.
///
/// Refusal `NotDeterministic` if a detector or observable is not the same for all random bits, else
/// `OutOfMemory` alone.
#[tactic(auto, using(crate::proofs::DistanceLaws::distance_shown, crate::proofs::DistanceLaws::refusal_shown))]
pub(crate) fn show_distance(
    alloc: Global,
    circuit: &Circuit,
    everywhere: bool,
    most: usize,
) -> Result<Reply, Refusal>
    requires checked { check_of (circuit_items circuit.now) ≡ None }
    ensures shows { ShowsDistance (options_asked everywhere most) (circuit_items circuit.now) result }
{
    let options = options_asked(everywhere, most);
    match find_distance(alloc, circuit, options, &mut Unwatched) {
        Ok(found) => {
            let mut reply = Reply::new(alloc);
            match write_distance(&mut reply, circuit, options, &found) {
                Ok(()) => Ok(reply),
                Err(_) => Err(Refusal::OutOfMemory),
            }
        }
        Err(refused) => Err(refused.fault.refusal),
    }
}
