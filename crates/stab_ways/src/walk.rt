//! A string on its way over the instructions of a circuit.

ghost use Rattle.std.specs.Prelude.{◌≡◌, ◌∷◌, ℕ, true, false, ◌+◌, ◌-◌, ◌^◌, ◌<◌, ◌≤◌, [], None, Some, All, length, take, drop, map, ◌++◌, OnOk};
ghost use Rattle.stab_items.specs.Steps.{steps_of, most_steps};
ghost use Rattle.stab_run.specs.ProgramStates.{StepFits};
ghost use Rattle.stab_frames.specs.Propagations.{IsPlaced};
ghost use Rattle.stab_frames.specs.Frames.{Frame};
ghost use Rattle.stab_ways.specs.PutIn.{way_over};
ghost use Rattle.stab_ways.specs.Ways.{changed_string, is_tick, placed as placed_from, tick_string, turn_shown};
ghost use Rattle.stab_ways.specs.inner.Walks.{passed, reported, put_in as put_in_of, past_steps as past_of, over_part, ended, walk_shown, IsWalkOn};

use crate::resets::{at_once, leave_out_reset};
use crate::strings::{differ, placed};
use crate::way::Turn;
use stab_frames::{Known, Pivots, Propagation, SameCoins, propagate_instruction};
use stab_gates::Letter;
use stab_instructions::Kind;
use stab_items::{step_count, steps_from};
use stab_pauli::Pauli;
use stab_run::ListCoins;
use std::alloc::{AllocError, Global};

/// A string on its way from the first step of a circuit on, and what is known of it so far.
#[derive(Drop)]
pub(crate) struct Walk {
    /// Whether it is listed at every tick, and not where it becomes another one.
    pub every: bool,
    pub propagation: Propagation,
    /// What was listed.
    pub turns: Vec<Turn>,
    /// After how many more steps it is put in, or `None` if it was.
    pub waits: Option<usize>,
    /// How many steps were passed.
    pub steps: u64,
    /// None: no run is known, so each outcome is taken as a fixed one.
    pub strings: Pivots,
}

/// Passes steps of an instruction with a frame, from one to another, and counts them.
fn pass(
    propagation: &mut Propagation,
    strings: &Pivots,
    kind: &Kind,
    from: usize,
    to: usize,
    by_frame: &mut u64,
) -> Result<(), AllocError>
    requires none { (strings.now.qubits ≡ length propagation.old.letters) × (strings.now.strings ≡ []) }
    requires placed { IsPlaced [] propagation.old }
    requires fits { All (StepFits (length propagation.old.letters)) (steps_of kind.now) }
    requires within { (from ≤ to) × (to ≤ length (steps_of kind.now)) }
    requires few { propagation.old.coin + (to - from) < 2 ^ 63 }
    requires few_propagated { by_frame.old + (to - from) < 2 ^ 63 }
    ensures counted { OnOk result (by_frame.new ≡ by_frame.old + (to - from)) }
    ensures length { length propagation.new.letters ≡ length propagation.old.letters }
    ensures passed { OnOk result (propagation.new ≡ passed (length propagation.old.letters) (take (to - from) (drop from (steps_of kind.now))) propagation.old) }
{
    let known = Known {
        strings,
        free: &[],
        draw: &SameCoins,
    };
    let mut none = ListCoins::new(&[]);
    let mut position = from;
    'steps: while position < to {
        let Some(steps) = steps_from(kind, position, to - position) else {
            return Ok(());
        };
        let front = at_once(propagation.letters(), steps);
        let went = propagate_instruction(propagation, known, &mut none, front, by_frame)?;
        leave_out_reset(propagation, front);
        position += went;
    }
    Ok(())
}

/// Passes steps of an instruction, from one to another.
fn past_steps(walk: &mut Walk, kind: &Kind, from: usize, to: usize) -> Result<(), AllocError>
    requires walks { IsWalkOn (length walk.old.propagation.letters) walk.old }
    requires fits { All (StepFits (length walk.old.propagation.letters)) (steps_of kind.now) }
    requires order { from ≤ to }
    requires within { to ≤ length (steps_of kind.now) }
    requires few { walk.old.steps + (to - from) ≤ most_steps }
    ensures walks { OnOk result (IsWalkOn (length walk.old.propagation.letters) walk.new) }
    ensures passed { OnOk result (walk_shown walk.new ≡ past_of (length walk.old.propagation.letters) (take (to - from) (drop from (steps_of kind.now))) (walk_shown walk.old)) }
{
    pass(
        &mut walk.propagation,
        &walk.strings,
        kind,
        from,
        to,
        &mut walk.steps,
    )?;
    Ok(())
}

/// Lists a string after this many steps.
fn push_turn(
    alloc: Global,
    turns: &mut Vec<Turn>,
    after: usize,
    letters: &[Letter],
) -> Result<(), AllocError>
    ensures pushed { OnOk result (map turn_shown turns.new.items ≡ map turn_shown turns.old.items ++ record { after = after; string = placed_from 0 letters.now } ∷ []) }
{
    let string = placed(alloc, letters)?;
    turns.push(Turn { after, string })?;
    Ok(())
}

/// Lists a string after this many steps, if it is another one than it was.
fn report_changed(
    alloc: Global,
    turns: &mut Vec<Turn>,
    after: usize,
    old: &[Letter],
    new: &[Letter],
) -> Result<(), AllocError>
    requires same_length { length new.now ≡ length old.now }
    ensures reported { OnOk result (map turn_shown turns.new.items ≡ map turn_shown turns.old.items ++ changed_string after old.now new.now) }
{
    if differ(old, new) {
        push_turn(alloc, turns, after, new)?;
    }
    Ok(())
}

/// Lists a string after this many steps, if the last instruction is a tick.
fn report_tick(
    alloc: Global,
    turns: &mut Vec<Turn>,
    kind: &Kind,
    after: usize,
    letters: &[Letter],
) -> Result<(), AllocError>
    ensures reported { OnOk result (map turn_shown turns.new.items ≡ map turn_shown turns.old.items ++ tick_string (is_tick kind.now) after letters.now) }
{
    match kind {
        Kind::Tick => {
            push_turn(alloc, turns, after, letters)?;
            Ok(())
        }
        _ => Ok(()),
    }
}

/// Whether no step of an instruction changes a string.
fn keeps_strings(kind: &Kind) -> bool
    ensures keeps { result ≡ true → (n j k : ℕ) (f : Frame) → (way_over n (take j (drop k (steps_of kind.now))) f).letters ≡ f.letters }
{
    match kind {
        Kind::Detector(_) => true,
        Kind::ObservableInclude(_, _) => true,
        Kind::Tick => true,
        Kind::QubitCoords(_) => true,
        Kind::ShiftCoords(_) => true,
        _ => false,
    }
}

/// Passes the steps of an instruction from one on, and lists the string if it is another one after them.
fn report_steps(
    alloc: Global,
    walk: &mut Walk,
    kind: &Kind,
    from: usize,
    to: usize,
) -> Result<(), AllocError>
    requires walks { IsWalkOn (length walk.old.propagation.letters) walk.old }
    requires fits { All (StepFits (length walk.old.propagation.letters)) (steps_of kind.now) }
    requires order { from ≤ to }
    requires within { to ≤ length (steps_of kind.now) }
    requires few { walk.old.steps + (to - from) ≤ most_steps }
    requires turns { walk.old.every ≡ false }
    ensures walks { OnOk result (IsWalkOn (length walk.old.propagation.letters) walk.new) }
    ensures reported { OnOk result (walk_shown walk.new ≡ reported (length walk.old.propagation.letters) (record { tick = is_tick kind.now; steps = take (to - from) (drop from (steps_of kind.now)) }) (walk_shown walk.old)) }
{
    // Most instructions of a circuit are detectors, and then no letters need to be compared.
    if keeps_strings(kind) {
        past_steps(walk, kind, from, to)?;
        return Ok(());
    }
    let before = Vec::from_slice(alloc, walk.propagation.letters())?;
    past_steps(walk, kind, from, to)?;
    report_changed(
        alloc,
        &mut walk.turns,
        walk.steps as usize,
        before.as_slice(),
        walk.propagation.letters(),
    )?;
    Ok(())
}

/// Passes the steps of an instruction from one on, and lists the string if it is to be.
fn list_steps(
    alloc: Global,
    walk: &mut Walk,
    kind: &Kind,
    from: usize,
    to: usize,
) -> Result<(), AllocError>
    requires walks { IsWalkOn (length walk.old.propagation.letters) walk.old }
    requires fits { All (StepFits (length walk.old.propagation.letters)) (steps_of kind.now) }
    requires order { from ≤ to }
    requires within { to ≤ length (steps_of kind.now) }
    requires few { walk.old.steps + (to - from) ≤ most_steps }
    ensures walks { OnOk result (IsWalkOn (length walk.old.propagation.letters) walk.new) }
    ensures reported { OnOk result (walk_shown walk.new ≡ reported (length walk.old.propagation.letters) (record { tick = is_tick kind.now; steps = take (to - from) (drop from (steps_of kind.now)) }) (walk_shown walk.old)) }
{
    if !walk.every {
        return report_steps(alloc, walk, kind, from, to);
    }
    past_steps(walk, kind, from, to)?;
    report_tick(
        alloc,
        &mut walk.turns,
        kind,
        walk.steps as usize,
        walk.propagation.letters(),
    )?;
    Ok(())
}

/// Puts the string in.
pub(crate) fn put_in(walk: &mut Walk, string: &Pauli)
    requires walks { IsWalkOn (length string.now.letters) walk.old }
    ensures walks { IsWalkOn (length string.now.letters) walk.new }
    ensures value { walk_shown walk.new ≡ put_in_of string.now.letters (walk_shown walk.old) }
{
    walk.propagation.multiply(string);
    walk.waits = None;
}

/// Puts the string in at the end, if it was not yet.
pub(crate) fn finish(walk: &mut Walk, string: &Pauli)
    requires walks { IsWalkOn (length string.now.letters) walk.old }
    ensures value { walk_shown walk.new ≡ ended walk.old.waits string.now.letters (walk_shown walk.old) }
{
    match walk.waits {
        Some(_) => put_in(walk, string),
        None => {}
    }
}

/// Passes an instruction.
pub(crate) fn over_instruction(
    alloc: Global,
    walk: &mut Walk,
    string: &Pauli,
    kind: &Kind,
) -> Result<(), AllocError>
    requires walks { IsWalkOn (length string.now.letters) walk.old }
    requires fits { All (StepFits (length string.now.letters)) (steps_of kind.now) }
    requires few { walk.old.steps + length (steps_of kind.now) ≤ most_steps }
    ensures walks { OnOk result (IsWalkOn (length string.now.letters) walk.new) }
    ensures over { OnOk result (walk_shown walk.new ≡ over_part (length string.now.letters) string.now.letters (record { tick = is_tick kind.now; steps = steps_of kind.now }) walk.old.waits (walk_shown walk.old)) }
{
    let count = step_count(kind);
    match walk.waits {
        None => {
            list_steps(alloc, walk, kind, 0, count)?;
            Ok(())
        }
        Some(left) if left <= count => {
            past_steps(walk, kind, 0, left)?;
            put_in(walk, string);
            list_steps(alloc, walk, kind, left, count)?;
            Ok(())
        }
        Some(left) => {
            past_steps(walk, kind, 0, count)?;
            walk.waits = Some(left - count);
            Ok(())
        }
    }
}
