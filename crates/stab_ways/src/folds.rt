//! Rounds of a block that a string goes through as it went through earlier ones: what these listed and flipped is repeated.

ghost use Rattle.std.specs.Prelude.{◌≡◌, ◌+◌, ◌-◌, ◌*◌, ◌^◌, ◌<◌, ◌≤◌, ◌++◌, ℕ, false, IsTrue, All, length, take, drop, map, IfOk, OnOk};
ghost use Rattle.stab_items.specs.Items.{listed};
ghost use Rattle.stab_items.specs.Steps.{looks_too_far, most_steps, unroll};
ghost use Rattle.stab_run.specs.Records.{looked_up as looked_up_of};
ghost use Rattle.stab_ways.specs.Ways.{part_rounds, carried_parts, turn_shown};
ghost use Rattle.stab_ways.specs.inner.Folds.{again, later, waits_after as waits_after_of, CameFrom, IsWalkAgain, IsWalkStored, IsSince, StaysOrIsStored, WaitsLonger};
ghost use Rattle.stab_ways.specs.inner.Walks.{walked, walk_shown, IsWalkOn};

use crate::walk::Walk;
use crate::way::Turn;
use stab_gates::Letter;
use stab_items::Item;
use stab_pauli::Pauli;
use stab_run::{Lengths, looked_up};
use std::alloc::{AllocError, Global};

/// What is stored of a walk after rounds of a block, for later ones to be compared with.
#[derive(Drop)]
pub(crate) struct Checkpoint {
    /// How many rounds were done.
    pub done: u64,
    /// After how many rounds the walk was not yet compared with any.
    pub began: u64,
    pub letters: Vec<Letter>,
    /// How much was flipped, or not.
    pub lengths: Lengths,
    pub coin: usize,
    pub steps: u64,
    pub waits: Option<usize>,
    /// How often the string was listed.
    pub turns: usize,
}

impl Checkpoint {
    /// That of a walk after this many rounds, of which those since a number are compared.
    pub fn of(alloc: Global, walk: &Walk, done: u64, began: u64) -> Result<Checkpoint, AllocError>
        ensures preserved { IfOk result (λ c. IsWalkStored c (walk_shown walk.now)) }
        ensures done { IfOk result (λ c. c.done ≡ done) }
    {
        Ok(Checkpoint {
            done,
            began,
            letters: Vec::from_slice(alloc, walk.propagation.letters())?,
            lengths: walk.propagation.lengths(),
            coin: walk.propagation.coin(),
            steps: walk.steps,
            waits: walk.waits,
            turns: walk.turns.len(),
        })
    }
}

/// Whether letters are the same as others.
fn same_letters(letters: &[Letter], others: &[Letter]) -> bool
    ensures same { IsTrue result → letters.now ≡ others.now }
{
    if letters.len() != others.len() {
        return false;
    }
    for qubit in 0..letters.len() {
        if letters[qubit] != others[qubit] {
            return false;
        }
    }
    true
}

/// Whether the newest records are flipped as they were when there were this many.
fn same_records(records: &[bool], count: usize, window: u32) -> bool
    ensures same { IsTrue result → (k : ℕ) → k ≤ window → looked_up_of (take count records.now) k ≡ looked_up_of records.now k }
{
    if count > records.len() {
        return false;
    }
    let (earlier, _) = records.split_at(count);
    for k in 0..=window {
        if looked_up(earlier, k) != looked_up(records, k) {
            return false;
        }
    }
    true
}

/// Whether a string is not put in over this many steps and as many again, if it waits as long as this.
fn waits_longer(waits: Option<usize>, steps: usize) -> bool
    requires few { steps ≤ most_steps }
    ensures longer { IsTrue result → WaitsLonger steps waits }
{
    match waits {
        None => true,
        Some(left) => steps + steps < left,
    }
}

/// Whether a walk is as it was at a checkpoint, for steps that look this far back.
fn comes_again(checkpoint: &Checkpoint, walk: &Walk, window: u32) -> bool
    requires earlier { checkpoint.now.steps ≤ walk.now.steps }
    requires few { walk.now.steps ≤ most_steps }
    ensures again { IsTrue result → IsWalkAgain window checkpoint.now (walk_shown walk.now) }
{
    let steps = (walk.steps - checkpoint.steps) as usize;
    let records = walk.propagation.records();
    waits_longer(checkpoint.waits, steps)
        && same_letters(checkpoint.letters.as_slice(), walk.propagation.letters())
        && same_records(records, checkpoint.lengths.records, window)
}

/// Lists again what was listed from a position on, this many steps later.
fn list_again(
    alloc: Global,
    turns: &mut Vec<Turn>,
    from: usize,
    steps: usize,
) -> Result<(), AllocError>
    requires few { All (λ t. t.after + steps < 2 ^ 63) (drop from (map turn_shown turns.old.items)) }
    ensures listed { OnOk result (map turn_shown turns.new.items ≡ map turn_shown turns.old.items ++ map (later steps) (drop from (map turn_shown turns.old.items))) }
{
    for position in from..turns.len() {
        let turn = &turns[position];
        let after = turn.after + steps;
        let string = Vec::from_slice(alloc, turn.string.as_slice())?;
        turns.push(Turn { after, string })?;
    }
    Ok(())
}

/// How many steps more are to come after this many, until a string is put in.
fn waits_after(waits: Option<usize>, steps: usize) -> Option<usize>
    ensures value { result ≡ waits_after_of steps waits }
{
    match waits {
        None => None,
        Some(left) => Some(left.saturating_sub(steps)),
    }
}

/// Passes again what was passed since a checkpoint.
fn pass_again(alloc: Global, walk: &mut Walk, checkpoint: &Checkpoint) -> Result<(), AllocError>
    requires walks { IsWalkOn (length walk.old.propagation.letters) walk.old }
    requires since { IsSince checkpoint.now (walk_shown walk.old) }
    requires few { walk.old.steps + (walk.old.steps - checkpoint.now.steps) ≤ most_steps }
    ensures walks { OnOk result (IsWalkOn (length walk.old.propagation.letters) walk.new) }
    ensures again { OnOk result (walk_shown walk.new ≡ again checkpoint.now (walk_shown walk.old)) }
{
    let steps = walk.steps - checkpoint.steps;
    let coins = walk.propagation.coin() - checkpoint.coin;
    walk.propagation.flip_again(checkpoint.lengths, coins)?;
    list_again(alloc, &mut walk.turns, checkpoint.turns, steps as usize)?;
    walk.waits = waits_after(walk.waits, steps as usize);
    walk.steps += steps;
    Ok(())
}

/// Whether a walk is as it was at a checkpoint, and as many rounds are left of the count as were done since.
fn has_repeat(checkpoint: &Checkpoint, walk: &Walk, done: u64, count: u64, window: u32) -> bool
    requires steps { checkpoint.now.steps ≤ walk.now.steps }
    requires few { walk.now.steps ≤ most_steps }
    requires earlier { checkpoint.now.done ≤ done }
    requires within { done ≤ count }
    ensures room { IsTrue result → done - checkpoint.now.done ≤ count - done }
    ensures again { IsTrue result → IsWalkAgain window checkpoint.now (walk_shown walk.now) }
{
    done - checkpoint.done <= count - done && comes_again(checkpoint, walk, window)
}

/// Whether the rounds since a checkpoint go an even number of times into those that are left, or into the steps before the string is put in.
fn goes_evenly(checkpoint: &Checkpoint, walk: &Walk, done: u64, count: u64) -> bool
    requires later { checkpoint.now.done < done }
    requires within { done ≤ count }
{
    let rounds = (count - done) / (done - checkpoint.done);
    let steps = walk.steps.saturating_sub(checkpoint.steps);
    let times = match walk.waits {
        Some(left) if steps > 0 => rounds.min(left.saturating_sub(1) as u64 / steps),
        _ => rounds,
    };
    times % 2 == 0
}

/// Passes again what was passed since a checkpoint. If that `moves`, it is then the one of the walk before.
fn pass_once_more(
    alloc: Global,
    walk: &mut Walk,
    checkpoint: &mut Checkpoint,
    done: u64,
    moves: bool,
) -> Result<(), AllocError>
    requires walks { IsWalkOn (length walk.old.propagation.letters) walk.old }
    requires since { IsSince checkpoint.old (walk_shown walk.old) }
    requires few { walk.old.steps + (walk.old.steps - checkpoint.old.steps) ≤ most_steps }
    ensures walks { OnOk result (IsWalkOn (length walk.old.propagation.letters) walk.new) }
    ensures again { OnOk result (walk_shown walk.new ≡ again checkpoint.old (walk_shown walk.old)) }
    ensures preserved { OnOk result (StaysOrIsStored checkpoint.old checkpoint.new done (walk_shown walk.old)) }
{
    if !moves {
        return pass_again(alloc, walk, checkpoint);
    }
    let before = Checkpoint::of(alloc, walk, done, checkpoint.began)?;
    pass_again(alloc, walk, checkpoint)?;
    *checkpoint = before;
    Ok(())
}

/// Repeats the rounds since a checkpoint as often as they fit, as long as the walk is as it was there: twice as many each time, or as many,
/// if what is left is then a multiple of twice as many. After that a new checkpoint is stored, and from there on another one after a first,
/// second, fourth, eighth round and so on. Says how many rounds are done.
pub(crate) fn fold_rounds(
    alloc: Global,
    walk: &mut Walk,
    string: &Pauli,
    body: &[Item],
    checkpoint: &mut Checkpoint,
    done: u64,
    count: u64,
    window: u32,
) -> Result<u64, AllocError>
    requires walks { IsWalkOn (length string.now.letters) walk.old }
    requires near { looks_too_far window (unroll (listed body.now)) ≡ false }
    requires came { CameFrom (length string.now.letters) string.now.letters (carried_parts (listed body.now)) checkpoint.old done (walk_shown walk.old) }
    requires within { (checkpoint.old.done < done) × (done ≤ count) }
    requires few { walk.old.steps + (count - done) * length (unroll (listed body.now)) ≤ most_steps }
    ensures walks { OnOk result (IsWalkOn (length string.now.letters) walk.new) }
    ensures within { IfOk result (λ now. (done ≤ now) × (now ≤ count)) }
    ensures over { IfOk result (λ now. walk_shown walk.new ≡ walked (length string.now.letters) string.now.letters (part_rounds (now - done) (carried_parts (listed body.now))) (walk_shown walk.old)) }
    ensures came { IfOk result (λ now. CameFrom (length string.now.letters) string.now.letters (carried_parts (listed body.now)) checkpoint.new now (walk_shown walk.new)) }
{
    let mut now = done;
    'again: while has_repeat(checkpoint, walk, now, count, window) {
        let since = now - checkpoint.done;
        let moves = goes_evenly(checkpoint, walk, now, count);
        pass_once_more(alloc, walk, checkpoint, now, moves)?;
        now += since;
    }
    if now > done {
        *checkpoint = Checkpoint::of(alloc, walk, now, now)?;
    } else if now.saturating_sub(checkpoint.began).is_power_of_two() {
        *checkpoint = Checkpoint::of(alloc, walk, now, checkpoint.began)?;
    }
    Ok(now)
}
