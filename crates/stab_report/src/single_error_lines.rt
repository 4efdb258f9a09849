//! A table of single errors as lines: where each single error is, and what it flips.
ghost use Rattle.std.specs.Prelude.{◌≡◌, ◌≤◌, ◌<◌, ◌+◌, ◌*◌, ◌++◌, None, codes, length, drop, IfOk};
ghost use Rattle.std.specs.List.{flat_map};
ghost use Rattle.stab_io.specs.Devices.{WritesAll};
ghost use Rattle.stab_gates.specs.declared.letter.Letter.TheVariants as letter;
ghost use Rattle.stab_items.specs.Steps.{check_of, most_steps, unroll};
ghost use Rattle.stab_items.specs.StepValues.{step_shown};
ghost use Rattle.stab_items.specs.Views.{circuit_items};
ghost use Rattle.stab_results.specs.Formats.{entry};
ghost use Rattle.stab_regions.specs.SingleErrors.{single_error_on, single_errors_of, single_errors_on, sites_at};
ghost use Rattle.stab_report.specs.SingleErrorTables.{single_error_text, table_line, table_lines};
ghost use Rattle.stab_report.specs.ItemPaths.{path_at};
ghost use Rattle.stab_report.specs.inner.SingleErrorSites.{IsItemStretch, site_shown};

use crate::single_error_sites::{Site, site_at};
use crate::writing::write_head;
use stab_circuit::{Circuit, Cursor, Path, Step};
use stab_io::{Output, Refusal, write_all};
use stab_items::StepItem;
use stab_pauli::Letter;
use stab_regions::SingleErrorTable;
use stab_results::{Kinds, write_entries};

/// Writes where a single error is: how many steps are in front of it, the path of its item, its letter and qubit.
pub fn write_single_error<O: Output>(
    out: &mut O,
    before: usize,
    path: &Path,
    letter: Letter,
    qubit: usize,
) -> Result<(), Refusal>
    ensures writes { WritesAll (O.seen out.old) (O.seen out.new) (single_error_text before path.now letter qubit) result }
{
    write_head(out, before, path, &[letter.symbol()], qubit)
}

/// Writes the line of a single error, by what it flips.
fn write_line<O: Output>(
    out: &mut O,
    kinds: Kinds,
    before: usize,
    path: &Path,
    letter: Letter,
    qubit: usize,
    row: &[u32],
) -> Result<(), Refusal>
    ensures writes { WritesAll (O.seen out.old) (O.seen out.new) (single_error_text before path.now letter qubit ++ (flat_map (entry kinds) row.now ++ codes "\n")) result }
{
    write_single_error(out, before, path, letter, qubit)?;
    write_entries(out, kinds, row)?;
    write_all(out, b"\n")
}

/// How many steps are in front of a single error at a site of step number `step`.
fn steps_before(step: usize, site: Site) -> usize
    requires few { step ≤ most_steps }
    ensures value { result ≡ (single_error_on step (site_shown site) letter.X).before }
{
    if site.following { step + 1 } else { step }
}

/// Writes the lines of X and of Z at a site of step number `step`, by what each flips.
fn write_site<O: Output>(
    out: &mut O,
    kinds: Kinds,
    step: usize,
    path: &Path,
    site: Site,
    by_x: &[u32],
    by_z: &[u32],
) -> Result<(), Refusal>
    requires few { step ≤ most_steps }
    ensures writes { WritesAll (O.seen out.old) (O.seen out.new) (table_line kinds path.now (single_error_on step (site_shown site) letter.X) by_x.now ++ table_line kinds path.now (single_error_on step (site_shown site) letter.Z) by_z.now) result }
{
    let before = steps_before(step, site);
    write_line(out, kinds, before, path, Letter::X, site.qubit, by_x)?;
    write_line(out, kinds, before, path, Letter::Z, site.qubit, by_z)
}

/// Writes the lines of the single errors at a step, of this number and path, from this row of the table on;
/// and gives the row after them.
fn write_step<O: Output>(
    out: &mut O,
    kinds: Kinds,
    table: &SingleErrorTable,
    everywhere: bool,
    step: Step,
    number: usize,
    path: &Path,
    row: usize,
) -> Result<usize, Refusal>
    requires few { number ≤ most_steps }
    requires rows { row + 2 * length (sites_at everywhere (step_shown step)) ≤ length table.now.rows }
    ensures writes { WritesAll (O.seen out.old) (O.seen out.new) (table_lines kinds (λ _. path.now) (flat_map (single_errors_on number) (sites_at everywhere (step_shown step.entry))) (drop row table.now.rows)) result }
    ensures next { IfOk result (λ next. next ≡ row + 2 * length (sites_at everywhere (step_shown step.entry))) }
{
    // Rows are numbered by a usize, so no sum below is too great.
    let _ = table.len();
    let mut next = row;
    let mut position = 0;
    'positions: while let Some(site) = site_at(step, everywhere, position) {
        let (by_x, by_z) = (table.row(next), table.row(next + 1));
        write_site(out, kinds, number, path, site, by_x, by_z)?;
        next += 2;
        position += 1;
    }
    Ok(next)
}

/// The item of a step, and how many steps from there on are its: this one, or the one found for the
/// steps before.
fn item_at(circuit: &Circuit, step: usize, found: StepItem) -> StepItem
    requires checked { check_of (circuit_items circuit.now) ≡ None }
    requires in_range { step < length (unroll (circuit_items circuit.now)) }
    requires found { IsItemStretch (circuit_items circuit.now) step found }
    ensures some { 0 < result.steps }
    ensures found { IsItemStretch (circuit_items circuit.now) step result }
{
    if found.steps > 0 {
        found
    } else {
        circuit.item_of_step(step)
    }
}

/// Writes a table, a line for each single error, while a cursor passes all steps of its circuit.
pub fn write_lines<O: Output>(
    out: &mut O,
    circuit: &Circuit,
    cursor: Cursor,
    kinds: Kinds,
    table: &SingleErrorTable,
    everywhere: bool,
) -> Result<(), Refusal>
    requires checked { check_of (circuit_items circuit.now) ≡ None }
    requires all { cursor.left ≡ unroll (circuit_items circuit.now) }
    requires rows { length table.now.rows ≡ length (single_errors_of everywhere (unroll (circuit_items circuit.now))) }
    ensures writes { WritesAll (O.seen out.old) (O.seen out.new) (table_lines kinds (path_at (circuit_items circuit.now)) (single_errors_of everywhere (unroll (circuit_items circuit.now))) table.now.rows) result }
{
    let mut cursor = cursor;
    let mut item = StepItem {
        path: Path::new(&[0]),
        steps: 0,
    };
    let mut number = 0;
    let mut row = 0;
    'steps: while let Some(step) = cursor.next() {
        item = item_at(circuit, number, item);
        row = write_step(out, kinds, table, everywhere, step, number, &item.path, row)?;
        item.steps -= 1;
        number += 1;
    }
    Ok(())
}
