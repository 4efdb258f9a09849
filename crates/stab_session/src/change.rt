//! What an edit changes in the run of a circuit.
ghost use Rattle.std.specs.Prelude.{◌≡◌, None, List, length, IfOk, IfErr, IfSome};
ghost use Rattle.stab_io.specs.declared.refusal.Refusal.TheVariants.{OutOfMemory};
ghost use Rattle.stab_items.specs.Items.{OneItem, listed};
ghost use Rattle.stab_items.specs.Steps.{unroll, check_within, Step};
ghost use Rattle.stab_items.specs.Views.{circuit_items};
ghost use Rattle.stab_items.specs.Repeats.{AreRepeats};
ghost use Rattle.stab_items.specs.declared.edit.Edit.{Edit};
ghost use Rattle.stab_items.specs.declared.edit.Span.{Span as span_type};
ghost use Rattle.stab_run.specs.Spans.{IsEditOf};
ghost use Rattle.stab_session.specs.PauliSpans.{DifferByPaulis};
ghost use Rattle.stab_session.specs.inner.Pendings.{IsBegun};
ghost use Rattle.stab_session.specs.inner.PauliItems.{AreAccepted};

use crate::past_sites::PauliChange;
use crate::paulis::difference;
use crate::pending::Pending;
use stab_circuit::Circuit;
use stab_io::Refusal;
use stab_items::{Repeat, Span};
use stab_run::edited_rounds;
use std::alloc::Global;

/// What an edit changes.
#[derive(Drop)]
pub struct Change {
    /// The Pauli gates by which the runs differ, if they differ by such gates alone.
    pub paulis: Option<PauliChange>,
    /// Where the steps of the edited circuit come again.
    pub rounds: Vec<Repeat>,
}

/// What an edit changes that was begun on n qubits, and changed the steps within a span; those of the old circuit came again as is
/// said.
///
/// Refusal `OutOfMemory` alone.
pub fn change_of(
    alloc: Global,
    circuit: &Circuit,
    n: usize,
    pending: &Pending,
    span: Span,
    rounds: &[Repeat],
) -> Result<Change, Refusal>
    requires accepted { AreAccepted n pending.now circuit.now }
    requires checked { check_within n (circuit_items circuit.now) ≡ None }
    requires old { (xs : List Step) × AreRepeats 0 xs rounds.now × IsEditOf xs (unroll (circuit_items circuit.now)) span }
    ensures length { IfOk result (λ c. IfSome c.paulis (λ p. length p.string.letters ≡ n)) }
    ensures differs { IfOk result (λ c. IfSome c.paulis (λ p. (edit : Edit) (old : List OneItem) (s : span_type) → IsBegun n edit old circuit.now pending.now s → DifferByPaulis n (unroll (listed old)) (unroll (listed circuit.now)) s p.string.letters p.old p.new p.gaps.items)) }
    ensures rounds { IfOk result (λ c. AreRepeats 0 (unroll (circuit_items circuit.now)) c.rounds.items) }
    ensures err { IfErr result (λ r. r ≡ OutOfMemory) }
{
    let paulis = difference(alloc, circuit, n, pending)?;
    let rounds = edited_rounds(alloc, circuit, rounds, span)?;
    Ok(Change { paulis, rounds })
}
