//! Steps on the way of a frame, until all are past, the frame is gone, or a pivot is missing.

ghost use Rattle.std.specs.Prelude.{◌≡◌, ℕ, ◌+◌, ◌-◌, ◌<◌, ◌≤◌, Bool, true, length, take, drop, OnOk, IfOk};
ghost use Rattle.stab_run.specs.Points.{Point, outputs, all_coins_of};
ghost use Rattle.stab_frames.specs.RunPivots.{same_coins};
ghost use Rattle.stab_frames.specs.PivotsOfSteps.{AreEnough};
ghost use Rattle.stab_frames.specs.Pivots.{pivot_at, AreTrue};
ghost use Rattle.stab_frames.specs.Propagations.{frame_at, IsPlaced, PropagatesOver};
ghost use Rattle.stab_recording.specs.PassedSteps.{HasPassed, MayPropagate};
ghost use Rattle.stab_recording.specs.declared.propagate.Stop.TheVariants.{Gone};
ghost use Rattle.stab_frames.specs.inner.Draws.{AsksRandom};
ghost use Rattle.stab_frames.specs.inner.Propagates.{GoesOver};

use stab_frames::{Draw, Known, Pivots, Propagation, SameCoins, propagate_instruction};
use stab_items::Cursor;
use stab_run::{Coins, ListCoins};
use std::alloc::AllocError;

/// Why a propagation ended.
#[derive(Clone, Copy, Debug, PartialEq, Eq)]
pub enum Stop {
    /// It passed as many steps as were asked for, or there are no more.
    After,
    /// The frame is gone: what comes after is as it was.
    Gone,
    /// It can't go on: the pivot of a random outcome wasn't stored, and the frame anticommutes with what is measured. No clause says that
    /// it stops for that reason alone.
    NoString,
}

/// How a propagation ended, and how many steps it passed.
#[derive(Clone, Copy, Debug, PartialEq, Eq)]
pub struct Propagated {
    pub stop: Stop,
    pub steps: usize,
}

/// Propagates a frame over the steps that a cursor has left, up to this many, to a run with these coins, none of the steps looking back
/// further than `window` records. It ends if the frame is gone, if it may, and else goes on without one. The steps that it passes are
/// counted, and all of an instruction in which a pivot is missing.
pub fn propagate<D: Draw, C: Coins>(
    propagation: &mut Propagation,
    known: Known<D>,
    coins: &mut C,
    cursor: &mut Cursor,
    most: usize,
    window: u32,
    may_end: bool,
    by_frame: &mut u64,
) -> Result<Propagated, AllocError>
    requires may { MayPropagate known.strings.now known.free.now (D.ahead known.draw.now) cursor.old.left by_frame.old propagation.old }
    ensures most { by_frame.new ≤ by_frame.old + length (take most cursor.old.left) }
    ensures passed { IfOk result (HasPassed (length propagation.old.letters) window most known.entry.strings.now.strings known.entry.free.now propagation.old.coin cursor.old.left cursor.new.left by_frame.old by_frame.new propagation.new) }
    ensures all { cursor.new.all ≡ cursor.old.all }
    ensures length { length propagation.new.letters ≡ length propagation.old.letters }
    ensures same_coins { C.sequence coins.new ≡ C.sequence coins.old }
    ensures asks { AsksRandom known.entry.free.now propagation.old.coin (propagation.old.coin + all_coins_of (take most cursor.old.left)) (C.asks coins.old) (C.asks coins.new) }
    ensures goes { IfOk result (λ w. GoesOver (length propagation.old.letters) known.entry.strings.now.strings known.entry.free.now (D.changes known.entry.draw.now (C.sequence coins.old)) (take w.steps cursor.old.left) propagation.old propagation.new) }
    ensures gone { IfOk result (λ w. w.stop ≡ Gone → may_end ≡ true) }
{
    let window = window as usize;
    let mut steps = 0;
    while steps < most {
        if may_end && propagation.is_gone(window) {
            return Ok(Propagated {
                stop: Stop::Gone,
                steps,
            });
        }
        let Some(next) = cursor.next_steps(most - steps) else {
            return Ok(Propagated {
                stop: Stop::After,
                steps,
            });
        };
        let went = propagate_instruction(propagation, known, coins, next, by_frame)?;
        steps += went;
        if went < next.len() {
            return Ok(Propagated {
                stop: Stop::NoString,
                steps,
            });
        }
    }
    Ok(Propagated {
        stop: Stop::After,
        steps,
    })
}

/// Propagates a frame over the steps that a cursor has left, up to this many, of a run with these stored
/// strings and randomness, none of whose steps looks back further than `window` records. It ends if the frame is gone,
/// if it may, and else goes on without one. The steps are counted as `propagate` counts them.
pub fn propagate_steps(
    propagation: &mut Propagation,
    strings: &Pivots,
    free: &[bool],
    cursor: &mut Cursor,
    most: usize,
    window: u32,
    may_end: bool,
    by_frame: &mut u64,
) -> Result<Propagated, AllocError>
    requires may { MayPropagate strings.now free.now 0 cursor.old.left by_frame.old propagation.old }
    ensures most { by_frame.new ≤ by_frame.old + length (take most cursor.old.left) }
    ensures passed { IfOk result (HasPassed (length propagation.old.letters) window most strings.now.strings free.now propagation.old.coin cursor.old.left cursor.new.left by_frame.old by_frame.new propagation.new) }
    ensures all { cursor.new.all ≡ cursor.old.all }
    ensures length { length propagation.new.letters ≡ length propagation.old.letters }
    ensures placed { OnOk result (IsPlaced free.now propagation.new) }
    ensures propagated { IfOk result (λ w. PropagatesOver (length propagation.old.letters) (pivot_at strings.now.strings free.now) (take w.steps cursor.old.left) propagation.old propagation.new) }
    ensures enough { IfOk result (λ w. (coins : ℕ → Bool) (a : Point) (base : ℕ) → a.coin ≡ propagation.old.coin → AreTrue (length propagation.old.letters) coins (pivot_at strings.now.strings free.now) cursor.old.left a → (outputs (length propagation.old.letters) coins cursor.old.left a).free ≡ drop propagation.old.coin free.now → AreEnough (length propagation.old.letters) coins (same_coins (pivot_at strings.now.strings free.now)) (take w.steps cursor.old.left) (frame_at base propagation.old) a) }
{
    let known = Known {
        strings,
        free,
        draw: &SameCoins,
    };
    let mut none = ListCoins::new(&[]);
    propagate(
        propagation,
        known,
        &mut none,
        cursor,
        most,
        window,
        may_end,
        by_frame,
    )
}
