//! How many steps after two positions in a circuit are the same.
ghost use Rattle.std.specs.Prelude.{◌≡◌, ℕ, ◌+◌, ◌*◌, ◌<◌, ◌≤◌, ◌++◌, None, length, take, drop, IfOk, IfErr};
ghost use Rattle.std.specs.Bool.{OnTrue};
ghost use Rattle.stab_io.specs.declared.refusal.Refusal.TheVariants.{OutOfMemory};
ghost use Rattle.stab_items.specs.Steps.{unroll, check_of, most_steps, rounds};
ghost use Rattle.stab_items.specs.Views.{circuit_items};
ghost use Rattle.stab_items.specs.StepValues.{steps_shown};

use crate::same::begin_with;
use stab_io::Refusal;
use stab_items::{Circuit, Cursor, Steps};
use std::alloc::Global;

/// Whether the next steps that a cursor has left are these. If so, it is after them then; otherwise its position
/// has no meaning.
fn goes_over(cursor: &mut Cursor, steps: Steps) -> bool
    ensures all { cursor.new.all ≡ cursor.old.all }
    ensures same { OnTrue result (cursor.old.left ≡ steps_shown steps.entry ++ cursor.new.left) }
{
    let mut done = 0;
    'going: while done < steps.len() {
        let Some(next) = cursor.next_steps(steps.len() - done) else {
            return false;
        };
        if !begin_with(steps, done, next) {
            return false;
        }
        done += next.len();
    }
    true
}

/// How many of the next steps that two cursors have left are the same, one by one. Of an instruction
/// that differs none is counted.
fn count_same(near: &mut Cursor, far: &mut Cursor) -> usize
    requires few { length near.old.left ≤ most_steps }
    ensures within { result ≤ length far.old.left }
    ensures same { take result near.old.left ≡ take result far.old.left }
{
    let mut count = near.pass_same(far);
    'comparing: while let Some(steps) = near.next_steps(usize::MAX) {
        if !goes_over(far, steps) {
            return count;
        }
        count += steps.len() + near.pass_same(far);
    }
    count
}

/// Whether the next steps that two cursors have left, this many, are the same. Of an instruction only the whole is compared.
pub(crate) fn go_alike(near: &mut Cursor, far: &mut Cursor, count: usize) -> bool
    requires within { count ≤ length near.old.left }
    requires few { count ≤ most_steps }
    ensures same { OnTrue result (take count near.old.left ≡ take count far.old.left) }
{
    let mut done = 0;
    'comparing: while done < count {
        let Some(steps) = near.next_steps(count - done) else {
            return false;
        };
        if !goes_over(far, steps) {
            return false;
        }
        done += steps.len();
    }
    true
}

/// How many times the steps from one on, this many, come one after another: once at least.
///
/// Refusal `OutOfMemory` alone.
pub(crate) fn count_rounds(
    alloc: Global,
    circuit: &Circuit,
    first: usize,
    round: usize,
) -> Result<usize, Refusal>
    requires checked { check_of (circuit_items circuit.now) ≡ None }
    requires some { 0 < round }
    requires within { first + round ≤ length (unroll (circuit_items circuit.now)) }
    ensures inside { IfOk result (λ count. first + count * round ≤ length (unroll (circuit_items circuit.now))) }
    ensures again { IfOk result (λ count. take (count * round) (drop first (unroll (circuit_items circuit.now))) ≡ rounds count (take round (drop first (unroll (circuit_items circuit.now))))) }
    ensures err { IfErr result (λ r. r ≡ OutOfMemory) }
{
    let mut near = Cursor::at(alloc, circuit, first)?;
    let mut far = Cursor::at(alloc, circuit, first + round)?;
    Ok(1 + count_same(&mut near, &mut far) / round)
}
