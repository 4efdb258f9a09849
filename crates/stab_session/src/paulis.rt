ghost use Rattle.std.specs.Prelude.{◌≡◌, ◌<◌, ◌∷◌, false, [], List, All, length, None, IfOk, IfErr, IfSome, IfNone};
ghost use Rattle.std.specs.List.{AllByRecursion};
ghost use Rattle.stab_io.specs.declared.refusal.Refusal.TheVariants.{OutOfMemory};
ghost use Rattle.stab_pauli.specs.Paulis.{string_product};
ghost use Rattle.stab_instructions.specs.declared.operation.Kind.TheVariants.{Gate as gates_of_kind};
ghost use Rattle.stab_items.specs.Items.{OneItem, listed};
ghost use Rattle.stab_items.specs.Steps.{unroll};
ghost use Rattle.stab_items.specs.declared.edit.Edit.{Edit};
ghost use Rattle.stab_items.specs.declared.edit.Span.{Span};
ghost use Rattle.stab_run.specs.Runs.{gate_of};
ghost use Rattle.stab_frames.specs.Starts.{letters_on};
ghost use Rattle.stab_session.specs.PauliSpans.{DifferByPaulis};
ghost use Rattle.stab_session.specs.inner.Pendings.{pending_path, IsBegun};
ghost use Rattle.stab_session.specs.inner.PauliItems.{ArePauliItems, AreAccepted, IsPauliItem, IsPauliEdit, is_pauli_gate, is_pauli_kind, taken_items};

use crate::past_sites::PauliChange;
use crate::pending::Pending;
use stab_circuit::{Circuit, Item, Path};
use stab_gates::{Gate, Letter};
use stab_instructions::{Kind, Qubit};
use stab_io::Refusal;
use stab_items::Part;
use stab_pauli::Pauli;
use stab_tableau::GateImages;
use std::alloc::Global;

/// A Pauli gate on each of some qubits, one after another.
#[derive(Clone, Copy)]
struct PauliGates<'a> {
    letter: Letter,
    qubits: &'a [Qubit],
}

/// No gates.
fn no_gates() -> PauliGates<'static>
    ensures none { result.qubits.now ≡ [] }
{
    PauliGates {
        letter: Letter::I,
        qubits: &[],
    }
}

/// The letter of a Pauli gate, which changes signs alone.
fn gate_letter(gate: Gate) -> Option<Letter>
    ensures some { IfSome result (λ l. gate_of l ≡ gate) }
    ensures none { IfNone result (is_pauli_gate gate ≡ false) }
{
    let images = GateImages::of(gate);
    if images.of_x.letter != Letter::X || images.of_z.letter != Letter::Z {
        return None;
    }
    match (images.of_x.negative, images.of_z.negative) {
        (false, false) => Some(Letter::I),
        (false, true) => Some(Letter::X),
        (true, true) => Some(Letter::Y),
        (true, false) => Some(Letter::Z),
    }
}

/// The gates of an instruction, if it is of Pauli gates.
fn kind_gates(kind: &Kind) -> Option<PauliGates<'_>>
    ensures some { IfSome result (λ g. kind.now ≡ gates_of_kind (gate_of g.letter) g.qubits.now) }
    ensures none { IfNone result (is_pauli_kind kind.now ≡ false) }
{
    match kind {
        Kind::Gate(gate, qubits) => match gate_letter(*gate) {
            Some(letter) => Some(PauliGates {
                letter,
                qubits: qubits.as_slice(),
            }),
            None => None,
        },
        Kind::Controlled(_, _) | Kind::Swap(_) | Kind::Measure(_, _) => None,
        Kind::Reset(_, _) | Kind::MeasureProducts(_) | Kind::Detector(_) => None,
        Kind::ObservableInclude(_, _) | Kind::Tick => None,
        Kind::QubitCoords(_) | Kind::ShiftCoords(_) => None,
    }
}

/// The gates of an item, if it makes no step, or is an instruction of Pauli gates.
fn item_gates(item: &Item) -> Option<PauliGates<'_>>
    ensures some { IfSome result (λ g. ArePauliItems g.letter g.qubits.now (item.now ∷ [])) }
    ensures none { IfNone result (IsPauliItem item.now → ⊥) }
{
    if item.summary().steps == 0 {
        return Some(no_gates());
    }
    match item.part() {
        Part::Operation { kind, .. } => kind_gates(kind),
        Part::Tick => None,
        Part::Block { .. } => None,
    }
}

/// The gates that an edit took out, if what it took out is of such gates alone.
fn taken_gates(pending: &Pending) -> Option<PauliGates<'_>>
    ensures some { IfSome result (λ g. ArePauliItems g.letter g.qubits.now (taken_items pending.now)) }
    ensures none { IfNone result (AllByRecursion IsPauliItem (taken_items pending.now) → ⊥) }
{
    match pending {
        Pending::Inserted(_) => Some(no_gates()),
        Pending::Replaced(_, old) | Pending::Deleted(_, old) => item_gates(old),
    }
}

/// Where an edit was made.
fn path_of(pending: &Pending) -> Path
    ensures value { result ≡ pending_path pending.now }
{
    match pending {
        Pending::Inserted(path) | Pending::Replaced(path, _) | Pending::Deleted(path, _) => *path,
    }
}

/// Multiplies a letter at each of some qubits onto a string. If a qubit is named twice it cancels.
fn multiply_letter(string: &mut Pauli, letter: Letter, qubits: &[Qubit])
    requires fit { All (λ q. q < length string.old.letters) qubits.now }
    ensures length { length string.new.letters ≡ length string.old.letters }
    ensures letters { string.new.letters ≡ string_product (letters_on (length string.old.letters) letter qubits.now) string.old.letters }
{
    for qubit in qubits {
        let index = qubit.number();
        let product = letter.times(string.letter(index));
        string.set(index, product);
    }
}

/// The string on n qubits of some gates and of others.
///
/// Refusal `OutOfMemory` alone.
fn gates_string(
    alloc: Global,
    n: usize,
    taken: PauliGates,
    put: PauliGates,
) -> Result<Pauli, Refusal>
    requires taken_fit { All (λ q. q < n) taken.qubits.now }
    requires put_fit { All (λ q. q < n) put.qubits.now }
    ensures length { IfOk result (λ p. length p.letters ≡ n) }
    ensures letters { IfOk result (λ p. p.letters ≡ string_product (letters_on n taken.entry.letter taken.entry.qubits.now) (letters_on n put.entry.letter put.entry.qubits.now)) }
    ensures err { IfErr result (λ r. r ≡ OutOfMemory) }
{
    let mut string = Pauli::identity(alloc, n)?;
    multiply_letter(&mut string, put.letter, put.qubits);
    multiply_letter(&mut string, taken.letter, taken.qubits);
    Ok(string)
}

/// The change of Pauli gates by which the old run and the new one differ at an edit that was begun on n
/// qubits, in each round of the blocks around its place; or `None` if they may differ by more than such
/// gates, since what it took out or put in makes other steps, or if it makes none and blocks have more
/// than 1,048,576 rounds of it.
///
/// Refusal `OutOfMemory` alone.
pub fn difference(
    alloc: Global,
    circuit: &Circuit,
    n: usize,
    pending: &Pending,
) -> Result<Option<PauliChange>, Refusal>
    requires accepted { AreAccepted n pending.now circuit.now }
    ensures length { IfOk result (λ found. IfSome found (λ p. length p.string.letters ≡ n)) }
    ensures differs { IfOk result (λ found. IfSome found (λ p. (edit : Edit) (old : List OneItem) (s : Span) → IsBegun n edit old circuit.now pending.now s → DifferByPaulis n (unroll (listed old)) (unroll (listed circuit.now)) s p.string.letters p.old p.new p.gaps.items)) }
    ensures found { IfOk result (λ found. found ≡ None → IsPauliEdit pending.now circuit.now → ⊥) }
    ensures err { IfErr result (λ r. r ≡ OutOfMemory) }
{
    let place = path_of(pending);
    let Ok(item) = circuit.item(place) else {
        return Ok(None);
    };
    let (Some(taken), Some(put)) = (taken_gates(pending), item_gates(item)) else {
        return Ok(None);
    };
    let Some(gaps) = circuit.gaps(alloc, place)? else {
        return Ok(None);
    };
    Ok(Some(PauliChange {
        string: gates_string(alloc, n, taken, put)?,
        old: taken.qubits.len(),
        new: put.qubits.len(),
        gaps,
    }))
}
