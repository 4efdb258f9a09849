//! Callers that ensure what a public call does, if no other caller asks for it.
//!
//! They are proved, and never run: if a clause came to say less than it does, the proof of its
//! caller here would fail.

ghost use Rattle.std.specs.Prelude.{◌≡◌, ◌↔◌, ℕ, ◌+◌, ◌-◌, ◌*◌, ◌<◌, ◌≤◌, nat_le, [], length, take, min, slice_get, is_some, Some, None, Ok, true, IfOk, IfSome, IfErr, OnOk, OnErr};
ghost use Rattle.stab_gates.specs.Letters.{letter_phase};
ghost use Rattle.stab_pauli.specs.Paulis.{commute};
ghost use Rattle.stab_io.specs.MemoryDevices.{GivesWhatFits, GivesAPiece, TakesWhatFits, FlushesAsSet};
ghost use Rattle.stab_gates.specs.Limits.{most_qubits};
ghost use Rattle.stab_tableau.specs.Tableaus.{stabilises};
ghost use Rattle.stab_tableau.specs.Columns.{destabiliser_of};
ghost use Rattle.stab_tableau.specs.Groups.{SameGroup};
ghost use Rattle.stab_tableau.specs.Traces.{member};
ghost use Rattle.stab_items.specs.Paths.{numbers};
ghost use Rattle.stab_items.specs.Items.{entries};
ghost use Rattle.stab_items.specs.Edits.{edited, steps_before, verdict, put_item};
ghost use Rattle.stab_items.specs.declared.edit.Edit.TheVariants.{Insert as inserting};
ghost use Rattle.stab_items.specs.Repeats.{repeated_blocks};
ghost use Rattle.stab_items.specs.Steps.{unroll, records_of, steps_cap, check_of, check_within};
ghost use Rattle.stab_items.specs.StepPaths.{item_steps_left};
ghost use Rattle.stab_items.specs.Views.{circuit_items};
ghost use Rattle.stab_circuit.specs.Limits.{most_stride};
ghost use Rattle.stab_run.specs.Records.{ones};
ghost use Rattle.stab_run.specs.Runs.{run_of};
ghost use Rattle.stab_io.specs.Refusals.{Refuses, IsCallFault};
ghost use Rattle.stab_sampler.specs.Seeds.{shot_coins};
ghost use Rattle.stab_sampler.specs.Shots.{AreShots};
ghost use Rattle.stab_sampler.specs.References.{IsReference};
ghost use Rattle.stab_sampler.specs.RecordedPivots.{most_pivots};
ghost use Rattle.stab_run.specs.Coins.{zero_coins};
ghost use Rattle.stab_session.specs.Sessions.{IsSignIn};
ghost use Rattle.stab_session.specs.Bounds.{steps_from_change, steps_near_change, most_tried, most_refused_asks, most_checkpoints, AgreeAfter, IsCountOf};

use stab_circuit::{Circuit, Item, Path, Refused};
use stab_gates::Phase;
use stab_items::Repeat;
use stab_pauli::{
    CutInput, Device, DeviceFault, Input, Letter, MemoryInput, MemoryOutput, Output, Pauli, Refusal,
};
use stab_recording::is_long;
use stab_sampler::{Reference, run_shots};
use stab_session::{Coins, Edit, OpenRefused, Report, Session, Shot, run_once};
use stab_tableau::Tableau;
use std::alloc::Global;

/// The phase of a product of two letters is that of the letters' table.
fn phase_of_letters(letter: Letter, other: Letter) -> Phase
    ensures value { result ≡ letter_phase letter other }
{
    letter.product_phase(other)
}

/// Strings are said to commute if they do.
fn reported_to_commute(string: &Pauli, other: &Pauli) -> bool
    requires same_length { length string.now.letters ≡ length other.now.letters }
    ensures value { result ≡ commute string.now other.now }
{
    string.commutes(other)
}

/// What a device gives of a text is the beginning of it.
fn read_through(text: &[u8], buf: &mut [u8]) -> Result<usize, DeviceFault>
    ensures given { IfOk result (λ n. take n buf.new ≡ take n text.now) }
{
    Device::new(text).read(buf)
}

/// An input in memory gives all that fits.
fn read_at_once(input: &mut MemoryInput, buf: &mut [u8]) -> Result<usize, DeviceFault>
    ensures exact { GivesWhatFits input.old input.new result buf.new }
{
    input.read(buf)
}

/// An input in pieces gives a piece, and fails from its read on.
fn read_in_pieces(input: &mut CutInput, buf: &mut [u8]) -> Result<usize, DeviceFault>
    ensures exact { GivesAPiece input.old input.new result buf.new }
{
    input.read(buf)
}

/// An output in memory takes all that fits.
fn written_at_once(output: &mut MemoryOutput, bytes: &[u8]) -> Result<usize, DeviceFault>
    ensures exact { TakesWhatFits output.old output.new result bytes.now }
{
    output.write(bytes)
}

/// An output in memory fails a flush if it is set to, and nowhere else.
fn flushed_as_set(output: &mut MemoryOutput) -> Result<(), DeviceFault>
    ensures exact { FlushesAsSet output.old output.new result }
{
    output.flush()
}

/// An output in memory is set to fail its flushes, and is otherwise as before.
fn set_to_fail(output: &mut MemoryOutput)
    ensures set { output.new ≡ record output.old { flush_fails = true } }
{
    output.fail_flush();
}

/// A copy is the state.
fn copied(tableau: &Tableau, alloc: Global) -> Result<Tableau, Refusal>
    ensures ok { IfOk result (λ t. t ≡ tableau.now) }
{
    tableau.copy(alloc)
}

/// A stabiliser stabilises, with its sign.
fn stabiliser(tableau: &mut Tableau, alloc: Global, k: usize) -> Result<Pauli, Refusal>
    requires in_range { k < tableau.old.qubits }
    ensures member { IfOk result (λ p. stabilises tableau.old p ≡ true) }
{
    tableau.stabiliser(alloc, k)
}

/// Two states are said to have one group exactly if they do.
fn reported_to_be_of_one_group(one: &mut Tableau, other: &mut Tableau) -> bool
    requires same_length { other.old.qubits ≡ one.old.qubits }
    ensures value { (result ≡ true) ↔ SameGroup one.old.qubits (stabilises one.old) (stabilises other.old) }
{
    one.same_group(other)
}

/// A destabiliser is the one of its number.
fn destabiliser(tableau: &Tableau, alloc: Global, k: usize) -> Result<Pauli, Refusal>
    requires in_range { k < tableau.now.qubits }
    ensures value { IfOk result (λ p. p ≡ destabiliser_of tableau.now k) }
{
    tableau.destabiliser(alloc, k)
}

/// A circuit begins empty.
fn empty_circuit(alloc: Global) -> Circuit
    ensures empty { result ≡ [] }
{
    Circuit::new(alloc)
}

/// An insertion that answers ok has put its item in.
fn inserted(circuit: &mut Circuit, path: Path, item: Item) -> Result<(), Refused>
    ensures ok { OnOk result (edited (inserting path item) circuit.old ≡ Ok circuit.new) }
{
    circuit.insert(path, item)
}

/// The number of records is that of the unrolled steps.
fn records_counted(circuit: &Circuit) -> usize
    ensures value { result ≡ min (records_of (unroll (circuit_items circuit.now))) steps_cap }
{
    circuit.records()
}

/// The steps before a path are counted up to its item in the first rounds.
fn steps_counted(circuit: &Circuit, path: Path) -> usize
    ensures value { result ≡ min (length (steps_before path circuit.now)) steps_cap }
{
    circuit.steps_before(path)
}

/// This many steps of a step's item are left in the same round.
fn steps_left_of_item(circuit: &Circuit, step: usize) -> usize
    requires checked { check_of (circuit_items circuit.now) ≡ None }
    requires in_range { step < length (unroll (circuit_items circuit.now)) }
    ensures steps { result ≡ item_steps_left (circuit_items circuit.now) step }
{
    circuit.item_of_step(step).steps
}

/// There is a repeat for each outermost block that has a step and more than one round.
fn counted_blocks(alloc: Global, circuit: &Circuit) -> Result<usize, Refusal>
    requires checked { check_of (circuit_items circuit.now) ≡ None }
    ensures count { IfOk result (λ blocks. blocks ≡ repeated_blocks (circuit_items circuit.now)) }
{
    let repeats = circuit.repeats(alloc)?;
    Ok(repeats.len())
}

/// The first number of a path is the position in the outermost list.
fn outermost_place(path: &Path) -> usize
    ensures value { slice_get (numbers path.now) 0 ≡ Some result }
{
    path.first()
}

/// One run gives the circuit's detectors.
fn run_with_detectors<C: Coins>(
    alloc: Global,
    circuit: &Circuit,
    n: usize,
    coins: &mut C,
) -> Result<Shot, stab_pauli::Fault>
    requires in_range { n ≤ most_qubits }
    ensures detectors { IfOk result (λ s. s.detectors.items ≡ (run_of n (C.sequence coins.old) (circuit_items circuit.now)).detectors) }
{
    run_once(alloc, circuit, n, coins)
}

/// Shots at once are as many as were asked for, each the run with the coins of its number, or are refused as one run is.
fn runs_at_once(
    alloc: Global,
    circuit: &Circuit,
    n: usize,
    seed: u64,
    first: u64,
    number: usize,
) -> Result<Vec<Shot>, stab_pauli::Fault>
    requires in_range { n ≤ most_qubits }
    ensures number { IfOk result (λ s. length s.items ≡ number) }
    ensures shots { IfOk result (λ s. AreShots n (shot_coins seed first) (circuit_items circuit.now) s.items) }
    ensures refused { Refuses result (check_within n (circuit_items circuit.now)) }
{
    run_shots(alloc, circuit, n, seed, first, number)
}

/// A reference is the run with all coins 0, and there is one if no more outcomes are random than may be noted.
fn recorded_reference(
    alloc: Global,
    circuit: &Circuit,
    n: usize,
) -> Result<Option<Reference>, stab_pauli::Fault>
    requires in_range { n ≤ most_qubits }
    ensures reference { IfOk result (λ found. IfSome found (λ r. IsReference n (circuit_items circuit.now) r)) }
    ensures preserved { IfOk result (λ found. ones (run_of n zero_coins (circuit_items circuit.now)).free ≤ most_pivots n → is_some found ≡ true) }
    ensures refused { Refuses result (check_within n (circuit_items circuit.now)) }
{
    Reference::of(alloc, circuit, n)
}

/// A block is said to be long if it has 2,048 steps.
fn reported_to_be_long(repeat: Repeat) -> bool
    ensures value { result ≡ nat_le 2048 (repeat.rounds * repeat.length) }
{
    is_long(repeat)
}

/// A refused opening gives the circuit back.
fn opened<C: Coins>(
    alloc: Global,
    circuit: Circuit,
    n: usize,
    stride: usize,
    coins: C,
) -> Result<Session<C>, OpenRefused<C>>
    requires in_range { n ≤ most_qubits }
    requires stride_above { 1 ≤ stride }
    requires stride_within { stride ≤ most_stride }
    ensures refused_circuit { IfErr result (λ r. r.circuit ≡ circuit) }
{
    Session::open(alloc, circuit, n, stride, coins)
}

/// A session says the sign with which a string stabilises the state after the run.
fn sign_after_run<C: Coins>(session: &mut Session<C>, pauli: &Pauli) -> Option<bool>
    requires same_length { length pauli.now.letters ≡ session.old.qubits }
    ensures sign { IsSignIn (member (run_of session.old.qubits (C.sequence session.old.coins) session.old.items).trace) pauli.now result }
{
    session.sign_of(pauli)
}

/// An edit carries out no more steps than there are from the change on. A refused one reports its first fault, and gives its item back.
fn edited_or_given_back<C: Coins>(session: &mut Session<C>, edit: Edit) -> Result<Report, Refused>
    ensures applied { IfOk result (λ r. r.applied ≤ steps_from_change edit session.old session.new) }
    ensures refused { IfErr result (λ r. IsCallFault (verdict session.old.qubits edit (entries session.old.items)) r.fault) }
    ensures item { IfErr result (λ r. r.item ≡ put_item edit) }
{
    session.apply(edit)
}

/// A report bounds and counts the steps that an edit carried out and those that it went past in another way, or in vain. An edit asks for no more coins
/// than it carried out steps, and a refused one for few. The report says how many checkpoints are stored, and these are few.
fn edited_with_counts<C: Coins>(session: &mut Session<C>, edit: Edit) -> Result<Report, Refused>
    ensures by_frame { IfOk result (λ r. r.applied + r.by_frame ≤ steps_from_change edit session.old session.new + r.tried) }
    ensures tried { IfOk result (λ r. r.tried ≤ most_tried edit session.old session.new) }
    ensures early { IfOk result (λ r. (far : ℕ) → AgreeAfter C.sequence edit session.old session.new far → r.applied + (r.by_frame - r.tried) ≤ steps_near_change edit session.new + far) }
    ensures counted { IfOk result (λ r. IsCountOf C.sequence edit session.old session.new (r.applied + (r.by_frame - r.tried))) }
    ensures asks { IfOk result (λ r. C.asks session.new.coins ≤ C.asks session.old.coins + r.applied) }
    ensures refused_asks { OnErr result (C.asks session.new.coins ≤ C.asks session.old.coins + most_refused_asks edit session.old) }
    ensures checkpoints { IfOk result (λ r. r.checkpoints ≡ length session.new.checkpoints) }
    ensures few_checkpoints { OnOk result (length session.new.checkpoints ≤ most_checkpoints session.new) }
{
    session.apply(edit)
}
