//! What a circuit is, by its numbers, or what is wrong with it.
ghost use Rattle.std.specs.Prelude.{◌≡◌, false, None, IfOk, IfErr, length};
ghost use Rattle.std.specs.List.{flat_map};
ghost use Rattle.stab_io.specs.Devices.{WritesAll};
ghost use Rattle.stab_io.specs.Refusals.{whole};
ghost use Rattle.stab_io.specs.declared.refusal.Refusal.TheVariants.{OutOfMemory};
ghost use Rattle.stab_items.specs.StepValues.{step_shown};
ghost use Rattle.stab_items.specs.Steps.{check_of, unroll, detectors_of, detectors_in};
ghost use Rattle.stab_items.specs.Views.{circuit_items};
ghost use Rattle.stab_run.specs.Points.{all_coins_of, coins_of};
ghost use Rattle.stab_report.specs.DoubtLines.{ReportsIfOk, Warns, doubts_of};
ghost use Rattle.stab_report.specs.Endings.{Sends};
ghost use Rattle.stab_commands.specs.Checks.{EndsCheck, Explains, SendsSome, check_text, number_line, numbers_of, numbers_text};

use crate::doubts::doubts_of;
use stab_circuit::{Circuit, Cursor, Step, circuit_of_text, read_text, write_explanation};
use stab_io::{Fault, Input, Output, Refusal};
use stab_report::{finish, report_doubts, write_texts};
use std::alloc::Global;

/// The numbers of a circuit.
#[derive(Clone, Copy)]
pub(crate) struct Numbers {
    pub qubits: usize,
    /// Those of the outermost list, a block being one.
    pub items: usize,
    pub steps: usize,
    pub records: usize,
    pub detectors: usize,
    pub observables: usize,
    /// How many coin numbers a run uses up: one for each measured or reset target.
    pub coins: usize,
}

/// Those of a circuit's numbers that only its steps show.
#[derive(Clone, Copy)]
struct Tally {
    detectors: usize,
    coins: usize,
}

/// The tally of one step.
fn step_tally(step: Step) -> Tally
    ensures detectors { result.detectors ≡ detectors_in (step_shown step.entry) }
    ensures coins { result.coins ≡ coins_of (step_shown step.entry) }
{
    match step {
        Step::Detector(_) => Tally {
            detectors: 1,
            coins: 0,
        },
        Step::Collapse { .. } | Step::Product { .. } => Tally {
            detectors: 0,
            coins: 1,
        },
        _ => Tally {
            detectors: 0,
            coins: 0,
        },
    }
}

/// The tally of a circuit's steps, each passed once.
fn count_steps(alloc: Global, circuit: &Circuit) -> Result<Tally, Refusal>
    requires checked { check_of (circuit_items circuit.now) ≡ None }
    ensures detectors { IfOk result (λ t. t.detectors ≡ detectors_of (unroll (circuit_items circuit.now))) }
    ensures coins { IfOk result (λ t. t.coins ≡ all_coins_of (unroll (circuit_items circuit.now))) }
    ensures err { IfErr result (λ r. r ≡ OutOfMemory) }
{
    let mut all = Tally {
        detectors: 0,
        coins: 0,
    };
    let mut cursor = Cursor::at(alloc, circuit, 0)?;
    'steps: while let Some(step) = cursor.next() {
        let one = step_tally(step);
        all.detectors += one.detectors;
        all.coins += one.coins;
    }
    Ok(all)
}

/// How many items the outermost list has.
fn count_items(circuit: &Circuit) -> usize
    ensures value { result ≡ length circuit.now }
{
    let items = circuit.items();
    items.len()
}

/// The numbers of a circuit.
fn count(alloc: Global, circuit: &Circuit) -> Result<Numbers, Refusal>
    requires checked { check_of (circuit_items circuit.now) ≡ None }
    ensures value { IfOk result (λ n. n ≡ numbers_of (circuit_items circuit.now)) }
    ensures err { IfErr result (λ r. r ≡ OutOfMemory) }
{
    let tally = count_steps(alloc, circuit)?;
    Ok(Numbers {
        qubits: circuit.qubits(),
        items: count_items(circuit),
        steps: circuit.steps(),
        records: circuit.records(),
        detectors: tally.detectors,
        observables: circuit.observables(),
        coins: tally.coins,
    })
}

/// Writes the line of a number.
fn write_number<O: Output>(out: &mut O, name: &[u8], number: usize) -> Result<(), Refusal>
    ensures writes { WritesAll (O.seen out.old) (O.seen out.new) (number_line name.now number) result }
{
    let mut digits = itoa::Buffer::new();
    let digits = digits.format(number).as_bytes();
    write_texts(out, &[name, b": ", digits, b"\n"])
}

/// Writes the lines of numbers under their names.
fn write_lines<O: Output>(out: &mut O, numbers: &[(&[u8], usize)]) -> Result<(), Refusal>
    ensures writes { WritesAll (O.seen out.old) (O.seen out.new) (flat_map (λ l. number_line l.0.now l.1) numbers.now) result }
{
    for (name, number) in numbers {
        write_number(out, name, *number)?;
    }
    Ok(())
}

/// Writes the lines of a circuit's numbers.
fn write_numbers<O: Output>(out: &mut O, numbers: Numbers) -> Result<(), Refusal>
    ensures writes { WritesAll (O.seen out.old) (O.seen out.new) (numbers_text numbers) result }
{
    write_lines(
        out,
        &[
            (b"qubits", numbers.qubits),
            (b"items", numbers.items),
            (b"steps", numbers.steps),
            (b"records", numbers.records),
            (b"detectors", numbers.detectors),
            (b"observables", numbers.observables),
            (b"coins", numbers.coins),
        ],
    )
}

/// Writes the lines of a circuit's numbers, and flushes.
fn send_numbers<O: Output>(alloc: Global, out: &mut O, circuit: &Circuit) -> Result<(), Fault>
    requires checked { check_of (circuit_items circuit.now) ≡ None }
    ensures sends { Sends (check_text (circuit_items circuit.now)) (O.seen out.old) (O.seen out.new) result }
{
    let numbers = count(alloc, circuit).map_err(Fault::whole)?;
    write_numbers(out, numbers).map_err(Fault::whole)?;
    finish(out)
}

/// Writes the lines of a circuit's numbers, and flushes; and reports its doubtful marks.
fn send_check<O: Output, E: Output>(
    alloc: Global,
    out: &mut O,
    err: &mut E,
    circuit: &Circuit,
) -> Result<(), Fault>
    requires checked { check_of (circuit_items circuit.now) ≡ None }
    ensures sends { Sends (check_text (circuit_items circuit.now)) (O.seen out.old) (O.seen out.new) result }
    ensures reports { ReportsIfOk (circuit_items circuit.now) (doubts_of false (circuit_items circuit.now)) (E.seen err.old) (E.seen err.new) result }
{
    let doubts = doubts_of(alloc, circuit, false)?;
    send_numbers(alloc, out, circuit)?;
    report_doubts(err, circuit, doubts.as_slice());
    Ok(())
}

/// Writes what is wrong with a text that was refused with this fault, and flushes. It reports nothing
/// of a failure to do so, since the fault of the text is what the call answers.
fn send_explanation<O: Output>(alloc: Global, out: &mut O, text: &[u8], fault: Fault)
    ensures sends { SendsSome (O.seen out.old) (O.seen out.new) }
{
    if let Ok(()) = write_explanation(alloc, out, text, fault) {
        let _ = finish(out);
    }
}

/// Does so, unless the input failed or the answer is 20.
fn explain<O: Output>(alloc: Global, out: &mut O, text: &[u8], fault: Fault)
    ensures explains { Explains (O.seen out.old) (O.seen out.new) fault }
{
    match fault.refusal {
        Refusal::ReadFault | Refusal::OutOfMemory => {}
        _ => send_explanation(alloc, out, text, fault),
    }
}

/// Reads a circuit, and writes its numbers, a line each: `qubits: N`, then in the same form items,
/// steps, records, detectors, observables and coins.
///
/// The qubits are as many as a run has: one more than the greatest that is named, or 0; and
/// so are the observables. The items are those of the outermost list, if a block is one. The steps
/// are those of the unrolled circuit, and so are the records, detectors and coins: a coin for each
/// measured target or product, and for each reset, whether or not it decides.
///
/// If the text is refused, an explanation is written and flushed, and the fault is that of the
/// text, whether or not this failed; what the explanation says is no part of what is proved. If
/// the input fails, or the answer is 20 while the circuit is read, nothing is written. Reading, the flush and
/// the other faults are those of `run_sample`. Every step is passed once: there are at most 1,048,576.
///
/// Marks that may be meant in another way are reported on `err` after a call without a fault.
pub fn run_check<I: Input, O: Output, E: Output>(
    alloc: Global,
    input: &mut I,
    out: &mut O,
    err: &mut E,
) -> Result<(), Fault>
    ensures ends { EndsCheck (I.seen input.old) (I.seen input.new) (O.seen out.old) (O.seen out.new) result }
    ensures warns { Warns false (I.seen input.old) (I.seen input.new) (E.seen err.old) (E.seen err.new) result }
{
    let text = match read_text(alloc, input) {
        Ok(text) => text,
        Err(refusal) => {
            let fault = Fault::whole(refusal);
            explain(alloc, out, b"", fault);
            return Err(fault);
        }
    };
    match circuit_of_text(alloc, text.as_slice()) {
        Ok(circuit) => send_check(alloc, out, err, &circuit),
        Err(fault) => {
            explain(alloc, out, text.as_slice(), fault);
            Err(fault)
        }
    }
}
