//! The stabilisers of the state that a circuit leaves, from its text to the lines of reduced rows.
ghost use Rattle.std.specs.Prelude.{◌≡◌, None, IfOk, IfErr};
ghost use Rattle.stab_io.specs.Devices.{WritesAll};
ghost use Rattle.stab_io.specs.Refusals.{whole};
ghost use Rattle.stab_pauli.specs.Texts.{pauli_text};
ghost use Rattle.stab_io.specs.declared.refusal.Refusal.TheVariants.{OutOfMemory};
ghost use Rattle.stab_tableau.specs.Traces.{member};
ghost use Rattle.stab_tableau.specs.Reduced.{AreReduced};
ghost use Rattle.stab_items.specs.Steps.{check_of, qubits_of};
ghost use Rattle.stab_items.specs.Views.{circuit_items};
ghost use Rattle.stab_run.specs.Runs.{run_of};
ghost use Rattle.stab_report.specs.Rows.{line_of, lines_of};
ghost use Rattle.stab_report.specs.Sources.{run_of_shot};
ghost use Rattle.stab_commands.specs.Stabilisers.{EndsStabilisers};
ghost use Rattle.stab_commands.specs.inner.Rows.{SendsLines};

use stab_circuit::{Circuit, read_circuit};
use stab_io::{Fault, Input, Output, Refusal, write_all};
use stab_jobs::Source;
use stab_pauli::Pauli;
use stab_report::finish;
use stab_run::{Coins, ListCoins, SeedCoins};
use stab_session::Session;
use std::alloc::Global;

// The greatest stride: this session is never edited, so it needs no states on its way.
const STRIDE: usize = 65_536;

/// The reduced rows after a run of a circuit on its own qubits with these coins.
fn rows_after<C: Coins>(alloc: Global, circuit: Circuit, coins: C) -> Result<Vec<Pauli>, Fault>
    requires checked { check_of (circuit_items circuit) ≡ None }
    ensures rows { IfOk result (λ rows. AreReduced (qubits_of (circuit_items circuit)) (member (run_of (qubits_of (circuit_items circuit)) (C.sequence coins) (circuit_items circuit)).trace) rows.items) }
    ensures err { IfErr result (λ f. f ≡ whole OutOfMemory) }
{
    let qubits = circuit.qubits();
    match Session::open(alloc, circuit, qubits, STRIDE, coins) {
        Ok(session) => rows_of(alloc, session),
        Err(refused) => Err(refused.fault),
    }
}

/// The reduced rows of a session, which is let go.
fn rows_of<C: Coins>(alloc: Global, session: Session<C>) -> Result<Vec<Pauli>, Fault>
    ensures rows { IfOk result (λ rows. AreReduced session.qubits (member (run_of session.qubits (C.sequence session.coins) session.items).trace) rows.items) }
    ensures err { IfErr result (λ f. f ≡ whole OutOfMemory) }
{
    let mut session = session;
    match session.reduced_rows(alloc) {
        Ok(rows) => Ok(rows),
        Err(refusal) => Err(Fault::whole(refusal)),
    }
}

/// The reduced rows after shot 0 of a circuit, with coins from this source.
fn stabilisers_of(alloc: Global, circuit: Circuit, source: &Source) -> Result<Vec<Pauli>, Fault>
    requires checked { check_of (circuit_items circuit) ≡ None }
    ensures rows { IfOk result (λ rows. AreReduced (qubits_of (circuit_items circuit)) (member (run_of_shot source.now (circuit_items circuit) 0).trace) rows.items) }
    ensures err { IfErr result (λ f. f ≡ whole OutOfMemory) }
{
    match source {
        Source::Seed(seed) => rows_after(alloc, circuit, SeedCoins::new(*seed, 0)),
        Source::List(list) => rows_after(alloc, circuit, ListCoins::new(list.as_slice())),
    }
}

/// Writes a string and a line feed.
fn write_row<O: Output>(out: &mut O, row: &Pauli) -> Result<(), Refusal>
    ensures writes { WritesAll (O.seen out.old) (O.seen out.new) (line_of row.now) result }
{
    row.write_text(out)?;
    write_all(out, b"\n")?;
    Ok(())
}

/// Writes strings, a line each.
fn write_rows<O: Output>(out: &mut O, rows: &[Pauli]) -> Result<(), Refusal>
    ensures writes { WritesAll (O.seen out.old) (O.seen out.new) (lines_of rows.now) result }
{
    for row in rows {
        write_row(out, row)?;
    }
    Ok(())
}

/// Writes strings, a line each, and flushes.
fn send_rows<O: Output>(out: &mut O, rows: &[Pauli]) -> Result<(), Fault>
    ensures sends { SendsLines rows.now (O.seen out.old) (O.seen out.new) result }
{
    if let Err(refusal) = write_rows(out, rows) {
        return Err(Fault::whole(refusal));
    }
    finish(out)
}

/// Reads a circuit, runs shot 0 of it on as many qubits as it names, and writes the reduced rows of
/// the signed strings that then stabilise the state, a line each: as many lines as qubits.
///
/// The order of the rows is that of `Tableau::reduced_rows`, so two circuits that come to one state
/// are written in the same way, and only they. Reading, coins and the flush are those of `run_sample`, and so
/// are the faults, except that 20 comes before the first row, with nothing written.
pub fn run_stabilisers<I: Input, O: Output>(
    alloc: Global,
    input: &mut I,
    out: &mut O,
    source: &Source,
) -> Result<(), Fault>
    ensures ends { EndsStabilisers source.now (I.seen input.old) (I.seen input.new) (O.seen out.old) (O.seen out.new) result }
{
    let circuit = read_circuit(alloc, input)?;
    let rows = stabilisers_of(alloc, circuit, source)?;
    send_rows(out, rows.as_slice())
}
