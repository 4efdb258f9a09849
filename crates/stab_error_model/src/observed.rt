//! Tables of errors in which one observable alone counts.
ghost use Rattle.std.specs.Prelude.{◌≡◌, ◌<◌, [], ◌∷◌, ◌++◌, length, Some, IfOk, IfErr, OnOk};
ghost use Rattle.stab_io.specs.declared.refusal.Refusal.TheVariants.{OutOfMemory};
ghost use Rattle.stab_parities.specs.Ascending.{IsAscending};
ghost use Rattle.stab_parities.specs.OddNumbers.{row};
ghost use Rattle.stab_error_model.specs.inner.Observed.{is_searched_number, retained_row, with_observable};

use crate::rows::copied;
use stab_io::Refusal;
use stab_search::Table;
use std::alloc::{AllocError, Global};

/// Whether a number is that of a detector, or of this observable.
fn is_searched_number(detectors: usize, observable: usize, number: u32) -> bool
    ensures value { result ≡ is_searched_number detectors observable number }
{
    let number = number as usize;
    number < detectors || number - detectors == observable
}

/// The numbers of a row that are those of detectors, or of this observable.
fn retained_row(
    alloc: Global,
    row: &[u32],
    detectors: usize,
    observable: usize,
) -> Result<Vec<u32>, AllocError>
    requires ascending { IsAscending row.now }
    ensures value { IfOk result (λ v. v.items ≡ retained_row detectors observable row.now) }
    ensures ascending { IfOk result (λ v. IsAscending v.items) }
{
    let mut numbers = copied(alloc, row)?;
    numbers.retain(|number| is_searched_number(detectors, observable, *number));
    Ok(numbers)
}

/// Adds the row of a table's error without its other observables.
fn add_retained_row(
    alloc: Global,
    table: &Table,
    observable: usize,
    number: usize,
    retained: &mut Table,
) -> Result<(), Refusal>
    requires inside { number < length table.now.rows }
    ensures value { OnOk result (retained.new ≡ record retained.old { rows = retained.old.rows ++ retained_row table.now.detectors observable (row table.now.rows number) ∷ [] }) }
    ensures err { IfErr result (λ r. r ≡ OutOfMemory) }
{
    let numbers = retained_row(alloc, table.row(number), table.detectors(), observable)?;
    retained.push(numbers.as_slice())
}

/// The table whose rows name this observable and no other. The only refusal is `OutOfMemory`.
pub(crate) fn with_observable(
    alloc: Global,
    table: &Table,
    observable: usize,
) -> Result<Table, Refusal>
    ensures value { IfOk result (λ t. t ≡ with_observable (Some observable) table.now) }
    ensures err { IfErr result (λ r. r ≡ OutOfMemory) }
{
    let mut retained = Table::new(alloc, table.detectors());
    'errors: for number in 0..table.len() {
        add_retained_row(alloc, table, observable, number, &mut retained)?;
    }
    Ok(retained)
}
