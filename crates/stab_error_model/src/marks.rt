//! The instructions of a circuit that mark sites for errors, in the order in which they are carried out.
ghost use Rattle.std.specs.Prelude.{◌≡◌, ◌≤◌, ◌+◌, ◌*◌, ◌++◌, [], map, length, OnOk, IfOk};
ghost use Rattle.stab_items.specs.Items.{before, done, listed};
ghost use Rattle.stab_items.specs.Steps.{unroll, steps_of, most_steps};
ghost use Rattle.stab_error_model.specs.Errors.{instruction_rounds, instructions, is_idle, marks_by, marks_from, marks_of};
ghost use Rattle.stab_error_model.specs.inner.Marked.{marks_shown};

use stab_circuit::Item;
use stab_gates::Gate;
use stab_instructions::{Kind, Qubit};
use stab_items::Part;
use std::alloc::AllocError;

/// An instruction `I`: its tag, its targets, and the number of its first step.
#[derive(Clone, Copy)]
pub(crate) struct Marks<'a> {
    pub tag: &'a [u8],
    pub qubits: &'a [Qubit],
    pub step: usize,
}

/// Whether a gate does nothing.
pub(crate) fn is_idle(gate: Gate) -> bool
    ensures value { result ≡ is_idle gate }
{
    match gate {
        Gate::I => true,
        _ => false,
    }
}

/// Puts an instruction on these targets after others, if it has any.
fn mark_targets<'a>(
    marks: &mut Vec<Marks<'a>>,
    qubits: &'a [Qubit],
    tag: &'a [u8],
    step: usize,
) -> Result<(), AllocError>
    ensures marks { OnOk result (map marks_shown marks.new.items ≡ map marks_shown marks.old.items ++ marks_of step tag.now qubits.now) }
{
    if qubits.is_empty() {
        return Ok(());
    }
    marks.push(Marks { tag, qubits, step })?;
    Ok(())
}

/// Puts an instruction after others, if it marks sites.
fn mark_kind<'a>(
    marks: &mut Vec<Marks<'a>>,
    kind: &'a Kind,
    tag: &'a [u8],
    step: usize,
) -> Result<(), AllocError>
    ensures marks { OnOk result (map marks_shown marks.new.items ≡ map marks_shown marks.old.items ++ marks_by step tag.now kind.now) }
{
    match kind {
        Kind::Gate(gate, qubits) if is_idle(*gate) => {
            mark_targets(marks, qubits.as_slice(), tag, step)
        }
        _ => Ok(()),
    }
}

/// Puts the marks of an item after others, and gives the number of the step after it.
#[cycle(marking)]
fn mark_item<'a>(
    marks: &mut Vec<Marks<'a>>,
    item: &'a Item,
    step: usize,
) -> Result<usize, AllocError>
    requires few { step + length (unroll (before item.now done)) ≤ most_steps }
    ensures marks { OnOk result (map marks_shown marks.new.items ≡ map marks_shown marks.old.items ++ marks_from step (instructions (before item.now done))) }
    ensures next { IfOk result (λ next. next ≡ step + length (unroll (before item.now done))) }
{
    match item.part() {
        Part::Tick => Ok(step),
        Part::Operation { kind, tag } => {
            mark_kind(marks, kind, tag, step)?;
            Ok(step + item.summary().steps as usize)
        }
        Part::Block { count, body, .. } => mark_rounds(marks, body, count.number(), step),
    }
}

/// Puts the marks of this many rounds of items after others, and gives the number of the step after them.
#[cycle(marking)]
fn mark_rounds<'a>(
    marks: &mut Vec<Marks<'a>>,
    body: &'a [Item],
    count: u64,
    step: usize,
) -> Result<usize, AllocError>
    requires few { step + count * length (unroll (listed body.now)) ≤ most_steps }
    ensures marks { OnOk result (map marks_shown marks.new.items ≡ map marks_shown marks.old.items ++ marks_from step (instruction_rounds count (instructions (listed body.now)))) }
    ensures next { IfOk result (λ next. next ≡ step + count * length (unroll (listed body.now))) }
{
    let mut site = step;
    'rounds: for _ in 0..count {
        let next = mark_items(marks, body, site)?;
        // A round without a step marks nothing, however often it comes.
        if next == site {
            return Ok(step);
        }
        site = next;
    }
    Ok(site)
}

/// Puts the marks of items after others, and gives the number of the step after them.
#[cycle(marking)]
pub(crate) fn mark_items<'a>(
    marks: &mut Vec<Marks<'a>>,
    items: &'a [Item],
    step: usize,
) -> Result<usize, AllocError>
    requires few { step + length (unroll (listed items.now)) ≤ most_steps }
    ensures marks { OnOk result (map marks_shown marks.new.items ≡ map marks_shown marks.old.items ++ marks_from step (instructions (listed items.now))) }
    ensures next { IfOk result (λ next. next ≡ step + length (unroll (listed items.now))) }
{
    let mut site = step;
    'items: for item in items {
        site = mark_item(marks, item, site)?;
    }
    Ok(site)
}
