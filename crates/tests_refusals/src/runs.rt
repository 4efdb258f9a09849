//! Cursors of a circuit, and its runs, one or many.
use crate::circuits::NESTED;
use crate::one_drop::OneDrop;
use crate::sheet::{circuit_of, show_coins, show_shot};
use crate::stop::Stop;
use crate::trial::{Ending, Trial, print_ending, try_call};
use stab_circuit::{Circuit, Cursor};
use stab_io::write_all;
use stab_pauli::MemoryOutput;
use stab_recording::Sampler;
use stab_sampler::run_shots;
use stab_session::{ListCoins, Shot, run_once};
use std::alloc::Global;
use std::io;

/// The qubits of the circuit.
pub const QUBITS: usize = 3;

/// The step that cursors begin with.
const STEP: usize = 5;

/// How many shots run at once.
const SHOTS: usize = 3;

/// Coins, as far as they are not 0.
const COINS: [bool; 6] = [true, false, true, true, false, true];

/// A call on a circuit.
#[derive(Clone, Copy)]
enum Call {
    Cursor,
    Once,
    Sampler,
    Shot,
    Shots,
}

/// The calls.
const CALLS: &[(&str, Call)] = &[
    ("Cursor::at", Call::Cursor),
    ("run_once", Call::Once),
    ("Sampler::new", Call::Sampler),
    ("Sampler::shot", Call::Shot),
    ("run_shots", Call::Shots),
];

/// A cursor from `STEP` on; none if there are fewer steps.
fn cursor_of<'a>(alloc: Global, circuit: &'a Circuit) -> Result<OneDrop<Option<Cursor<'a>>>, Stop> {
    circuit.check(circuit.qubits())?;
    if circuit.steps() < STEP {
        return Ok(OneDrop(None));
    }
    Ok(OneDrop(Some(Cursor::at(alloc, circuit, STEP)?)))
}

/// Whether two cursors come to the same step, or both to the end; not if one is missing.
fn is_same_step(made: &mut Option<Cursor>, other: &mut Option<Cursor>) -> bool {
    match (made, other) {
        (Some(made), Some(other)) => made.next() == other.next(),
        _ => false,
    }
}

/// A sampler of a circuit.
fn sampler_of<'a>(
    alloc: Global,
    circuit: &'a Circuit,
) -> Result<OneDrop<Option<Sampler<'a>>>, Stop> {
    Ok(OneDrop(Some(Sampler::new(alloc, circuit, QUBITS)?)))
}

/// The shot of one run.
fn once_of(
    alloc: Global,
    circuit: &Circuit,
    coins: &mut ListCoins,
) -> Result<OneDrop<Option<Shot>>, Stop> {
    Ok(OneDrop(Some(run_once(alloc, circuit, QUBITS, coins)?)))
}

/// The shots of several runs.
fn shots_of(alloc: Global, circuit: &Circuit) -> Result<OneDrop<Vec<Shot>>, Stop> {
    let shots = run_shots(alloc, circuit, QUBITS, 7, 1, SHOTS)?;
    Ok(OneDrop(shots))
}

/// A shot of a sampler, if there is one.
fn shot_of(
    alloc: Global,
    sampler: &mut Option<Sampler>,
    coins: &mut ListCoins,
) -> Result<OneDrop<Option<Shot>>, Stop> {
    match sampler {
        None => Ok(OneDrop(None)),
        Some(sampler) => Ok(OneDrop(Some(sampler.shot(alloc, coins)?))),
    }
}

/// Writes a shot, if there is one.
fn show_slot(out: &mut MemoryOutput, shot: &Option<Shot>) -> Result<(), Stop> {
    match shot {
        Some(shot) => show_shot(out, shot),
        None => Ok(()),
    }
}

/// Writes shots.
fn show_shots(out: &mut MemoryOutput, shots: &[Shot]) -> Result<(), Stop> {
    for shot in shots {
        show_shot(out, shot)?;
    }
    Ok(())
}

/// A call on a circuit, with what it gave.
#[derive(Drop)]
struct Run<'a> {
    call: Call,
    circuit: &'a Circuit,
    coins: ListCoins<'a>,
    cursor: OneDrop<Option<Cursor<'a>>>,
    sampler: OneDrop<Option<Sampler<'a>>>,
    shot: OneDrop<Option<Shot>>,
    shots: OneDrop<Vec<Shot>>,
}

impl<'a> Run<'a> {
    /// Writes for this many steps and the end whether the cursor that was made comes to the same as
    /// another one. The cursor is then at the end.
    fn show_steps(&mut self, alloc: Global, out: &mut MemoryOutput) -> Result<(), Stop> {
        if self.cursor.0.is_none() {
            return Ok(());
        }
        let mut other = cursor_of(alloc, self.circuit)?;
        for _ in 0..=self.circuit.steps() {
            let same = is_same_step(&mut self.cursor.0, &mut other.0);
            write_all(out, &[u8::from(same)])?;
        }
        Ok(())
    }

    /// Writes the shot that a sampler gives that was made.
    fn show_sampler(&mut self, alloc: Global, out: &mut MemoryOutput) -> Result<(), Stop> {
        let shot = shot_of(alloc, &mut self.sampler.0, &mut ListCoins::new(&COINS))?;
        show_slot(out, &shot.0)
    }
}

impl<'a> Trial for Run<'a> {
    type Call = (Call, &'a Circuit);

    fn new(alloc: Global, (call, circuit): (Call, &'a Circuit)) -> Result<Run<'a>, Stop> {
        let sampler = match call {
            Call::Shot => sampler_of(alloc, circuit)?,
            _ => OneDrop(None),
        };
        Ok(Run {
            call,
            circuit,
            coins: ListCoins::new(&COINS),
            cursor: OneDrop(None),
            sampler,
            shot: OneDrop(None),
            shots: OneDrop(Vec::new(alloc)),
        })
    }

    fn call(&mut self, alloc: Global) -> Result<(), Stop> {
        match self.call {
            Call::Cursor => self.cursor = cursor_of(alloc, self.circuit)?,
            Call::Once => self.shot = once_of(alloc, self.circuit, &mut self.coins)?,
            Call::Sampler => self.sampler = sampler_of(alloc, self.circuit)?,
            Call::Shot => self.shot = shot_of(alloc, &mut self.sampler.0, &mut self.coins)?,
            Call::Shots => self.shots = shots_of(alloc, self.circuit)?,
        }
        Ok(())
    }

    fn show(&mut self, alloc: Global, out: &mut MemoryOutput) -> Result<(), Stop> {
        show_coins(out, &mut self.coins)?;
        show_slot(out, &self.shot.0)?;
        show_shots(out, self.shots.0.as_slice())?;
        match self.call {
            Call::Cursor => self.show_steps(alloc, out),
            Call::Sampler => self.show_sampler(alloc, out),
            _ => Ok(()),
        }
    }
}

/// Tries a call on `NESTED`.
fn try_run(alloc: Global, call: Call) -> Result<Ending, Stop> {
    let circuit = circuit_of(alloc, NESTED)?;
    try_call::<Run>(alloc, (call, &circuit.0))
}

/// Tries each call.
pub fn print_all<R: AllocGlobal + Print>(rt: &R) -> io::Result<()> {
    for (name, call) in CALLS {
        print_ending(rt, name, try_run(rt.alloc(), *call))?;
    }
    Ok(())
}
