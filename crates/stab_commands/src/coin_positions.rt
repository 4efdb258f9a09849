//! The coins that decide, and the steps at which they do.
ghost use Rattle.std.specs.Prelude.{◌≡◌, ◌+◌, ◌<◌, ◌^◌, ◌++◌, All, drop, length, map, take, None, IfOk, IfErr, OnOk};
ghost use Rattle.stab_io.specs.declared.refusal.Refusal.TheVariants.{OutOfMemory};
ghost use Rattle.stab_items.specs.Steps.{check_of, unroll, HasDistinctQubits};
ghost use Rattle.stab_items.specs.StepValues.{step_shown};
ghost use Rattle.stab_items.specs.Views.{circuit_items};
ghost use Rattle.stab_run.specs.Points.{all_coins_of, coins_of};
ghost use Rattle.stab_results.specs.Formats.{one_positions, one_positions_from};
ghost use Rattle.stab_report.specs.ItemPaths.{step_of_coin};
ghost use Rattle.stab_commands.specs.inner.Groups.{coins_together};

use stab_circuit::{Circuit, Cursor, Step};
use stab_frames::bit_at;
use stab_io::Refusal;
use stab_items::Steps;
use stab_sampler::push_when;
use std::alloc::{AllocError, Global};

/// How many steps are passed together at most: no fewer than are given together.
const MOST_TOGETHER: usize = usize::MAX;

/// The coins that decide, in order.
#[derive(Drop)]
pub(crate) struct CoinPositions {
    /// Their numbers.
    pub numbers: Vec<u64>,
    /// How many steps are in front of the one that takes each.
    pub steps: Vec<usize>,
}

/// How many coins a step takes.
fn coins_of(step: Step) -> usize
    ensures value { result ≡ coins_of (step_shown step.entry) }
{
    match step {
        Step::Collapse { .. } | Step::Product { .. } => 1,
        _ => 0,
    }
}

/// How many coins steps take that are given together: one each, or none at all.
fn coins_of_all(steps: Steps) -> usize
    ensures value { result ≡ coins_together steps.entry }
{
    match steps {
        Steps::Measurements(_, targets) => targets.len(),
        Steps::Single(step) => coins_of(step),
        Steps::Gates(..) | Steps::Pairs(..) | Steps::Detectors(_) => 0,
    }
}

impl CoinPositions {
    /// Puts those of the next coins that decide after others, by a flag for each coin number. Steps from a number on take one of these
    /// coins each.
    fn push(
        &mut self,
        free: &[bool],
        coin: usize,
        number: usize,
        count: usize,
    ) -> Result<(), AllocError>
        requires few_coins { coin + count < 2 ^ 63 }
        requires few_steps { number + count < 2 ^ 63 }
        ensures numbers { OnOk result (self.new.numbers.items ≡ self.old.numbers.items ++ one_positions_from coin (take count (drop coin free.now))) }
        ensures steps { OnOk result (self.new.steps.items ≡ self.old.steps.items ++ one_positions_from number (take count (drop coin free.now))) }
    {
        for taken in 0..count {
            let here = bit_at(free, coin + taken);
            push_when(&mut self.numbers, here, (coin + taken) as u64)?;
            push_when(&mut self.steps, here, number + taken)?;
        }
        Ok(())
    }
}

/// The coins of a circuit that decide, by a flag for each of its coin numbers.
pub(crate) fn coin_positions(
    alloc: Global,
    circuit: &Circuit,
    free: &[bool],
) -> Result<CoinPositions, Refusal>
    requires checked { check_of (circuit_items circuit.now) ≡ None }
    requires randomness { length free.now ≡ all_coins_of (unroll (circuit_items circuit.now)) }
    ensures numbers { IfOk result (λ p. p.numbers.items ≡ one_positions free.now) }
    ensures steps { IfOk result (λ p. p.steps.items ≡ map (step_of_coin (unroll (circuit_items circuit.now))) (one_positions free.now)) }
    ensures distinct { IfOk result (λ p. All HasDistinctQubits (unroll (circuit_items circuit.now))) }
    ensures err { IfErr result (λ r. r ≡ OutOfMemory) }
{
    let mut positions = CoinPositions {
        numbers: Vec::new(alloc),
        steps: Vec::new(alloc),
    };
    let mut cursor = Cursor::at(alloc, circuit, 0)?;
    let mut coin = 0;
    let mut number = 0;
    'steps: while let Some(steps) = cursor.next_steps(MOST_TOGETHER) {
        let coins = coins_of_all(steps);
        positions.push(free, coin, number, coins)?;
        coin += coins;
        number += steps.len();
    }
    Ok(positions)
}
