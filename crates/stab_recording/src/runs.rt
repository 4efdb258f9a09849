//! Runs of all steps of a circuit: replays from the first step on, which keep checkpoints in long blocks alone, while rounds of these are
//! carried out one by one to see whether they come again.

ghost use Rattle.std.specs.Prelude.{◌≡◌, ℕ, ◌+◌, ◌≤◌, Bool, [], None, All, length, OnOk, IfOk, IfErr};
ghost use Rattle.stab_io.specs.declared.refusal.Refusal.TheVariants.{OutOfMemory};
ghost use Rattle.stab_gates.specs.Limits.{most_qubits};
ghost use Rattle.stab_items.specs.Steps.{unroll, check_of, HasDistinctQubits};
ghost use Rattle.stab_items.specs.Views.{circuit_items};
ghost use Rattle.stab_recording.specs.FollowedRuns.{Costs};
ghost use Rattle.stab_recording.specs.inner.Progress.{IsFurther};
ghost use Rattle.stab_recording.specs.inner.Runs.{IsOwnRun, MayRunAll, MayRunBlock};

use crate::checkpoint_positions::end_of;
use crate::meeting::are_fixed;
use crate::replay::Replay;
use crate::round_grouping::{MOST_SINGLE, is_long, taken_together};
use stab_frames::{PivotRecorder, Pivots};
use stab_io::Refusal;
use stab_items::{Circuit, Cursor, Repeat};
use stab_pauli::Pauli;
use stab_run::{Coins, Outputs};
use stab_tableau::Tableau;
use std::alloc::Global;

/// How many rounds a block has at least for a frame to be propagated over some.
const LEAST_PROPAGATED: usize = 4;

/// If no coin decided, a run waits this many rounds for a state that comes again with its signs: what is repeated then costs
/// nothing.
const MOST_AWAITED: usize = 8;

/// Whether a frame can come to be propagated over rounds of a block.
fn can_have_frame(repeats: &[Repeat]) -> bool {
    for repeat in repeats {
        if is_long(*repeat) && repeat.rounds >= LEAST_PROPAGATED {
            return true;
        }
    }
    false
}

/// What strings a run on n qubits keeps before its first step, if only its own frames need some. If no frame can come to be propagated
/// over rounds of a block, none will be stored, since to find them costs up to a seventh of a run.
pub fn pivots_of_frames(alloc: Global, n: usize, repeats: &[Repeat]) -> Pivots
    ensures size { result.qubits ≡ n }
    ensures none { result.strings ≡ [] }
{
    let mut strings = Pivots::new(alloc, n);
    if !can_have_frame(repeats) {
        strings.close();
    }
    strings
}

impl<'a> Replay<'a> {
    /// A run on n qubits before the first step, with room for this many records.
    pub fn new(
        alloc: Global,
        circuit: &'a Circuit,
        n: usize,
        strings: Pivots,
        records: usize,
    ) -> Result<Replay<'a>, Refusal>
        requires in_range { n ≤ most_qubits }
        requires checked { check_of (circuit_items circuit.now) ≡ None }
        requires size { strings.qubits ≡ n }
        requires none { strings.strings ≡ [] }
        ensures own { (coins : ℕ → Bool) → IfOk result (IsOwnRun n coins (unroll (circuit_items circuit.now))) }
        ensures distinct { IfOk result (λ r. All HasDistinctQubits r.cursor.all) }
        ensures step { IfOk result (λ r. r.step ≡ 0) }
        ensures free { IfOk result (λ r. r.outputs.free.items ≡ []) }
        ensures strings { IfOk result (λ r. r.pivots.strings ≡ strings) }
        ensures err { IfErr result (λ r. r ≡ OutOfMemory) }
    {
        Ok(Replay {
            tableau: Tableau::new(alloc, n)?,
            string: Pauli::identity(alloc, n)?,
            outputs: Outputs::with_capacity(alloc, records)?,
            pivots: PivotRecorder {
                strings,
                window: 0,
                string: Pauli::identity(alloc, n)?,
            },
            cursor: Cursor::at(alloc, circuit, 0)?,
            step: 0,
            applied: 0,
            by_frame: 0,
            saved: Vec::new(alloc),
        })
    }

    /// Whether a frame may be propagated over rounds of a block, of which this many were carried out.
    fn may_frame(&self, round: usize) -> bool {
        let Some(first) = self.saved.first() else {
            return false;
        };
        round > MOST_AWAITED || !are_fixed(self.outputs.free.as_slice(), first.lengths.free)
    }

    /// Carries out a round of a block, with this number, if one is left, and repeats what the rounds after it give if their state comes
    /// again. It keeps a checkpoint of the state after the first, second, fourth, eighth round and so on.
    fn run_round<C: Coins>(
        &mut self,
        alloc: Global,
        circuit: &'a Circuit,
        block: Repeat,
        round: usize,
        coins: &mut C,
    ) -> Result<(), Refusal>
        requires ready { MayRunBlock (C.sequence coins.old) (circuit_items circuit.now) block self.old }
        ensures further { IsFurther (C.asks coins.old) (C.asks coins.new) self.old self.new }
        ensures same_coins { C.sequence coins.new ≡ C.sequence coins.old }
        ensures costs { OnOk result (Costs (C.asks coins.old) (C.asks coins.new) self.old self.new) }
        ensures own { OnOk result (IsOwnRun self.old.tableau.qubits (C.sequence coins.old) self.old.cursor.all self.new) }
        ensures err { IfErr result (λ r. r ≡ OutOfMemory) }
    {
        let end = end_of(block);
        if end.saturating_sub(self.step) < block.length {
            return Ok(());
        }
        self.run_to(alloc, coins, self.step + block.length)?;
        self.save(alloc)?;
        let by_frame = self.may_frame(round);
        self.fold(alloc, circuit, block, by_frame, 1, end, coins)?;
        let spare = usize::from(!round.is_power_of_two());
        self.saved.truncate(self.saved.len().saturating_sub(spare));
        Ok(())
    }

    /// Carries out the steps up to a long block, and its rounds one by one, until they come again or some were carried out.
    fn run_block<C: Coins>(
        &mut self,
        alloc: Global,
        circuit: &'a Circuit,
        block: Repeat,
        coins: &mut C,
    ) -> Result<(), Refusal>
        requires ready { MayRunBlock (C.sequence coins.old) (circuit_items circuit.now) block self.old }
        ensures further { IsFurther (C.asks coins.old) (C.asks coins.new) self.old self.new }
        ensures same_coins { C.sequence coins.new ≡ C.sequence coins.old }
        ensures costs { OnOk result (Costs (C.asks coins.old) (C.asks coins.new) self.old self.new) }
        ensures own { OnOk result (IsOwnRun self.old.tableau.qubits (C.sequence coins.old) self.old.cursor.all self.new) }
        ensures err { IfErr result (λ r. r ≡ OutOfMemory) }
    {
        if !is_long(block) || self.step > block.first {
            return Ok(());
        }
        self.run_to(alloc, coins, block.first)?;
        for round in 1..=MOST_SINGLE {
            self.run_round(alloc, circuit, block, round, coins)?;
        }
        self.saved.truncate(0);
        Ok(())
    }

    /// Carries out all steps of a circuit. Rounds of long blocks that come again are repeated, up to a frame if they come again so.
    ///
    /// Refusal `OutOfMemory` alone.
    pub fn run_all<C: Coins>(
        &mut self,
        alloc: Global,
        circuit: &'a Circuit,
        repeats: &[Repeat],
        coins: &mut C,
    ) -> Result<(), Refusal>
        requires ready { MayRunAll (C.sequence coins.old) (circuit_items circuit.now) repeats.now self.old }
        ensures further { IsFurther (C.asks coins.old) (C.asks coins.new) self.old self.new }
        ensures same_coins { C.sequence coins.new ≡ C.sequence coins.old }
        ensures costs { OnOk result (Costs (C.asks coins.old) (C.asks coins.new) self.old self.new) }
        ensures own { OnOk result (IsOwnRun self.old.tableau.qubits (C.sequence coins.old) self.old.cursor.all self.new) }
        ensures step { OnOk result (self.new.step ≡ length self.old.cursor.all) }
        ensures err { IfErr result (λ r. r ≡ OutOfMemory) }
    {
        for repeat in repeats {
            self.run_block(alloc, circuit, taken_together(*repeat), coins)?;
        }
        self.run_to(alloc, coins, circuit.steps())?;
        Ok(())
    }
}
