//! Where rounds that are written out are.
ghost use Rattle.std.specs.Prelude.{◌≡◌, ◌+◌, ◌*◌, ◌<◌, ◌≤◌, ◌++◌, None, length, take, drop, IfOk, IfErr, IfSome, OnOk};
ghost use Rattle.stab_io.specs.declared.refusal.Refusal.TheVariants.{OutOfMemory};
ghost use Rattle.stab_items.specs.Steps.{unroll, check_of};
ghost use Rattle.stab_items.specs.Views.{circuit_items};
ghost use Rattle.stab_items.specs.Repeats.{AreRepeats, IsRepeat};

use crate::alike::count_rounds;
use crate::same::are_same;
use crate::window::window_of;
use stab_io::Refusal;
use stab_items::{Circuit, Cursor, Repeat, Step, Steps};
use std::alloc::Global;

/// How many steps rounds have at least in all, and how many rounds there are at least: fewer are no
/// faster as rounds than as steps.
const LEAST_STEPS: usize = 8192;

const LEAST_ROUNDS: usize = 8;

/// How many instructions are passed at most to find one of them again, and no more than one for this many
/// steps of the circuit, so that a search in vain costs next to nothing beside a run.
const MOST_PASSED: usize = 4096;

const STEPS_FOR_ONE: usize = 128;

/// How many instructions that are the same are tried: a round may have one more than once.
const MOST_TRIED: usize = 4;

/// At how many positions in a row rounds are looked for in vain at most. The way from one to the next is
/// four times as long each time.
const MOST_POSITIONS: usize = 9;

const FURTHER: usize = 4;

/// The rounds of this many steps from one on, if they are worth it.
///
/// Refusal `OutOfMemory` alone.
fn rounds_at(
    alloc: Global,
    circuit: &Circuit,
    first: usize,
    round: usize,
) -> Result<Option<Repeat>, Refusal>
    requires checked { check_of (circuit_items circuit.now) ≡ None }
    requires some { 0 < round }
    requires within { first + round ≤ length (unroll (circuit_items circuit.now)) }
    ensures found { IfOk result (λ found. IfSome found (λ r. (r.first ≡ first) × IsRepeat (unroll (circuit_items circuit.now)) r)) }
    ensures err { IfErr result (λ r. r ≡ OutOfMemory) }
{
    let rounds = count_rounds(alloc, circuit, first, round)?;
    if rounds < LEAST_ROUNDS || rounds * round < LEAST_STEPS {
        return Ok(None);
    }
    let mut cursor = Cursor::at(alloc, circuit, first)?;
    Ok(Some(Repeat {
        first,
        length: round,
        rounds,
        window: window_of(&mut cursor, round),
    }))
}

/// The rounds that begin with the instruction at a step, if they are found.
///
/// Refusal `OutOfMemory` alone.
fn find_at(alloc: Global, circuit: &Circuit, first: usize) -> Result<Option<Repeat>, Refusal>
    requires checked { check_of (circuit_items circuit.now) ≡ None }
    requires within { first ≤ length (unroll (circuit_items circuit.now)) }
    ensures found { IfOk result (λ found. IfSome found (λ r. (r.first ≡ first) × IsRepeat (unroll (circuit_items circuit.now)) r)) }
    ensures err { IfErr result (λ r. r ≡ OutOfMemory) }
{
    let longest = (circuit.steps() - first) / LEAST_ROUNDS;
    let most = MOST_PASSED.min(circuit.steps() / STEPS_FOR_ONE);
    let mut cursor = Cursor::at(alloc, circuit, first)?;
    let Some(begin) = cursor.next_steps(usize::MAX) else {
        return Ok(None);
    };
    let mut round = begin.len();
    let mut tried = 0;
    let mut passed = 0;
    'seeking: while tried < MOST_TRIED && passed < most && round <= longest {
        let Some(next) = cursor.next_steps(usize::MAX) else {
            return Ok(None);
        };
        if are_same(begin, next) {
            let found = rounds_at(alloc, circuit, first, round)?;
            if found.is_some() {
                return Ok(found);
            }
            tried += 1;
        }
        round += next.len();
        passed += 1;
    }
    Ok(None)
}

/// Whether rounds are looked for that begin with these steps: not with detectors, which come in parts, nor
/// with resets, which often stand one by one at the front of a circuit.
fn may_begin(steps: Steps) -> bool {
    match steps {
        Steps::Gates(..) | Steps::Pairs(..) | Steps::Measurements(..) => true,
        Steps::Detectors(_) => false,
        Steps::Single(step) => !matches!(step, Step::Collapse { .. }),
    }
}

/// The first step, this many steps after one or further, at which rounds may begin.
///
/// Refusal `OutOfMemory` alone.
fn next_position(
    alloc: Global,
    circuit: &Circuit,
    first: usize,
    further: usize,
) -> Result<Option<usize>, Refusal>
    requires checked { check_of (circuit_items circuit.now) ≡ None }
    requires within { first ≤ length (unroll (circuit_items circuit.now)) }
    ensures order { IfOk result (λ found. IfSome found (λ position. first ≤ position)) }
    ensures within { IfOk result (λ found. IfSome found (λ position. position ≤ length (unroll (circuit_items circuit.now)))) }
    ensures err { IfErr result (λ r. r ≡ OutOfMemory) }
{
    let mut cursor = Cursor::at(alloc, circuit, first)?;
    let mut position = first;
    'going: while let Some(steps) = cursor.next_steps(usize::MAX) {
        if position - first >= further && may_begin(steps) {
            return Ok(Some(position));
        }
        position += steps.len();
    }
    Ok(None)
}

/// The first rounds that are found from a step on.
///
/// Refusal `OutOfMemory` alone.
fn find_from(alloc: Global, circuit: &Circuit, first: usize) -> Result<Option<Repeat>, Refusal>
    requires checked { check_of (circuit_items circuit.now) ≡ None }
    requires within { first ≤ length (unroll (circuit_items circuit.now)) }
    ensures found { IfOk result (λ found. IfSome found (λ r. (first ≤ r.first) × IsRepeat (unroll (circuit_items circuit.now)) r)) }
    ensures err { IfErr result (λ r. r ≡ OutOfMemory) }
{
    let mut position = first;
    let mut further = 0;
    'positions: for _ in 0..MOST_POSITIONS {
        let Some(begin) = next_position(alloc, circuit, position, further)? else {
            return Ok(None);
        };
        let found = find_at(alloc, circuit, begin)?;
        if found.is_some() {
            return Ok(found);
        }
        position = begin;
        further = further.saturating_mul(FURTHER).max(1);
    }
    Ok(None)
}

/// Where rounds are written out, in order.
///
/// Refusal `OutOfMemory` alone.
fn find_written(alloc: Global, circuit: &Circuit) -> Result<Vec<Repeat>, Refusal>
    requires checked { check_of (circuit_items circuit.now) ≡ None }
    ensures are { IfOk result (λ rs. AreRepeats 0 (unroll (circuit_items circuit.now)) rs.items) }
    ensures err { IfErr result (λ r. r ≡ OutOfMemory) }
{
    let mut repeats: Vec<Repeat> = Vec::new(alloc);
    let mut first = 0;
    'finding: while let Some(repeat) = find_from(alloc, circuit, first)? {
        first = repeat.first + repeat.rounds * repeat.length;
        repeats.push(repeat)?;
    }
    Ok(repeats)
}

/// Where in a circuit the same steps come again, by its steps, in order: the blocks of its outermost
/// list that `Circuit::repeats` gives, or, if it has none, rounds that are written out, as far as
/// they are found. Of these there are 8 or more, with 8,192 steps or more in all.
///
/// Refusal `OutOfMemory` alone.
pub fn find_rounds(alloc: Global, circuit: &Circuit) -> Result<Vec<Repeat>, Refusal>
    requires checked { check_of (circuit_items circuit.now) ≡ None }
    ensures are { IfOk result (λ rs. AreRepeats 0 (unroll (circuit_items circuit.now)) rs.items) }
    ensures err { IfErr result (λ r. r ≡ OutOfMemory) }
{
    let blocks = circuit.repeats(alloc)?;
    if !blocks.is_empty() || circuit.steps() < LEAST_STEPS {
        return Ok(blocks);
    }
    find_written(alloc, circuit)
}
