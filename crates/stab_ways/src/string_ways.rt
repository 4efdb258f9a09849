//! The way of a string that is put in.

ghost use Rattle.std.specs.Prelude.{◌≡◌, ℕ, Bool, None, length, map, IfOk, IfErr};
ghost use Rattle.stab_io.specs.declared.refusal.Refusal.TheVariants.{OutOfMemory};
ghost use Rattle.stab_items.specs.Steps.{unroll, check_within};
ghost use Rattle.stab_items.specs.Views.{circuit_items};
ghost use Rattle.stab_ways.specs.PutIn.{string_after, string_flips};
ghost use Rattle.stab_ways.specs.Ways.{string_turns, turn_shown};
ghost use Rattle.stab_ways.specs.Laws.{FlipsRun, coins_with};

use crate::laws::strings_flip_runs;
use crate::rounds::over_items;
use crate::walk::{Walk, finish};
use crate::way::Way;
use stab_frames::{Pivots, Propagation};
use stab_io::Refusal;
use stab_items::Circuit;
use stab_pauli::Pauli;
use std::alloc::Global;

/// The way of a string that is put in after this many steps of a circuit, or at its end if it has no more, and that has a letter
/// for each of its qubits: after which instructions it is another one than before them, and what it is and has flipped at the end.
/// With `every` it is listed at every tick from there on, in each round, in place of that; of a block without a step the first round counts.
///
/// With exactly the coins of the random outcomes that it flips exchanged, the run of the circuit with the string put in is the
/// run without it, flipped as reported, and its state is that of the other with the string reported applied.
///
/// Refusal `OutOfMemory` alone.
pub fn way_of(
    alloc: Global,
    circuit: &Circuit,
    every: bool,
    position: usize,
    string: &Pauli,
) -> Result<Way, Refusal>
    requires checked { check_within (length string.now.letters) (circuit_items circuit.now) ≡ None }
    ensures turns { IfOk result (λ w. map turn_shown w.turns.items ≡ string_turns every (length string.now.letters) position string.now.letters (circuit_items circuit.now)) }
    ensures flips { IfOk result (λ w. w.end.flips ≡ string_flips (length string.now.letters) position string.now.letters (unroll (circuit_items circuit.now))) }
    ensures left { IfOk result (λ w. w.end.letters ≡ string_after (length string.now.letters) position string.now.letters (unroll (circuit_items circuit.now)) (length (unroll (circuit_items circuit.now)))) }
    ensures runs { IfOk result (λ w. (coins : ℕ → Bool) → FlipsRun (length string.now.letters) position string.now.letters (unroll (circuit_items circuit.now)) coins (coins_with (length string.now.letters) position string.now.letters (unroll (circuit_items circuit.now)) coins)) }
    ensures err { IfErr result (λ r. r ≡ OutOfMemory) }
{
    strings_flip_runs();
    let n = string.len();
    let mut walk = Walk {
        every,
        propagation: Propagation::new(alloc, n, &[], 0)?,
        turns: Vec::new(alloc),
        waits: Some(position),
        steps: 0,
        strings: Pivots::new(alloc, n),
    };
    over_items(alloc, &mut walk, string, circuit.items())?;
    finish(&mut walk, string);
    Ok(Way {
        turns: walk.turns,
        end: walk.propagation,
    })
}
