//! The least number of a circuit's errors that flip an observable and no detector.
ghost use Rattle.std.specs.Prelude.{◌≡◌, ℕ, true, false, Option, IfOk, IfErr};
ghost use Rattle.stab_io.specs.declared.refusal.Refusal.TheVariants.{OutOfMemory};
ghost use Rattle.stab_items.specs.Items.{Items};
ghost use Rattle.stab_error_model.specs.ErrorTables.{IsErrorTable};
ghost use Rattle.stab_error_model.specs.Unseen.{IsDistance, IsSetCount, ReportsUnseen};
ghost use Rattle.stab_search.specs.Counts.{HasNoneBelow, IsCountOfSets};
ghost use Rattle.stab_error_model.specs.inner.Observed.{with_observable};

use crate::error_table::ErrorTable;
use crate::observed::with_observable;
use stab_io::Refusal;
use stab_search::{Answer, Progress, count_least, least_graphlike_error, least_logical_error};
use std::alloc::Global;

/// A least set of a circuit's errors that are unseen together, if there is one; of at most `most` errors, if that is
/// given. `progress` hears of the number of errors, and then of each number of them that no such set has; of nothing
/// if memory was refused before the search for one observable began.
///
/// Errors are unseen together if the run with all of them put in has, whatever the coins, the deterministic
/// detectors of the run without, and differs from it in a deterministic observable: in this one, if one is given.
///
/// The only refusal is `OutOfMemory`.
pub fn distance<P: Progress>(
    alloc: Global,
    errors: &ErrorTable,
    observable: Option<usize>,
    most: Option<usize>,
    progress: &mut P,
) -> Result<Answer, Refusal>
    ensures distance { IfOk result (λ a. (n : ℕ) (items : Items) → IsErrorTable n items errors.now → IsDistance false observable n items errors.now.errors most a) }
    ensures err { IfErr result (λ r. r ≡ OutOfMemory) }
    ensures reported { (n : ℕ) (items : Items) → IsErrorTable n items errors.now → ReportsUnseen false observable n items errors.now.errors most (P.heard progress.old) (P.heard progress.new) result }
{
    let table = errors.table();
    let bound = most.unwrap_or(table.len());
    match observable {
        None => least_logical_error(alloc, table, bound, progress),
        Some(observable) => {
            let retained = with_observable(alloc, table, observable)?;
            least_logical_error(alloc, &retained, bound, progress)
        }
    }
}

/// The same of those errors alone that flip at most two deterministic detectors, by shortest paths in the graph whose edges
/// they are: fast on large circuits. `progress` hears of the number of errors, and, once the answer is found, of each number that it excludes.
///
/// The only refusal is `OutOfMemory`.
pub fn graphlike_distance<P: Progress>(
    alloc: Global,
    errors: &ErrorTable,
    observable: Option<usize>,
    most: Option<usize>,
    progress: &mut P,
) -> Result<Answer, Refusal>
    ensures distance { IfOk result (λ a. (n : ℕ) (items : Items) → IsErrorTable n items errors.now → IsDistance true observable n items errors.now.errors most a) }
    ensures err { IfErr result (λ r. r ≡ OutOfMemory) }
    ensures reported { (n : ℕ) (items : Items) → IsErrorTable n items errors.now → ReportsUnseen true observable n items errors.now.errors most (P.heard progress.old) (P.heard progress.new) result }
{
    let table = errors.table();
    let bound = most.unwrap_or(table.len());
    match observable {
        None => least_graphlike_error(alloc, table, bound, progress),
        Some(observable) => {
            let retained = with_observable(alloc, table, observable)?;
            least_graphlike_error(alloc, &retained, bound, progress)
        }
    }
}

/// How many logical errors of this many errors there are, if none has fewer.
fn count_sets(
    alloc: Global,
    errors: &ErrorTable,
    observable: Option<usize>,
    size: usize,
) -> Result<Option<u64>, Refusal>
    requires least { HasNoneBelow (with_observable observable errors.now.table) size }
    ensures count { IfOk result (IsCountOfSets (with_observable observable errors.now.table) size) }
    ensures err { IfErr result (λ r. r ≡ OutOfMemory) }
{
    let table = errors.table();
    match observable {
        None => count_least(alloc, table, size),
        Some(observable) => {
            let retained = with_observable(alloc, table, observable)?;
            count_least(alloc, &retained, size)
        }
    }
}

/// How many least sets of a circuit's errors are unseen together, of which `distance` answers one; 0 if it answers that there is none;
/// `None` if the number takes more than 64 bits. The time grows with the number of sets.
///
/// The only refusal is `OutOfMemory`.
pub fn count_distance(
    alloc: Global,
    errors: &ErrorTable,
    observable: Option<usize>,
    answer: &Answer,
) -> Result<Option<u64>, Refusal>
    requires answer { (n : ℕ) × (items : Items) × (most : Option ℕ) × IsErrorTable n items errors.now × IsDistance false observable n items errors.now.errors most answer.now }
    ensures count { IfOk result (λ c. (n : ℕ) (items : Items) (most : Option ℕ) → IsErrorTable n items errors.now → IsDistance false observable n items errors.now.errors most answer.now → IsSetCount observable n items errors.now.errors most c) }
    ensures err { IfErr result (λ r. r ≡ OutOfMemory) }
{
    match answer {
        Answer::Least(numbers) => count_sets(alloc, errors, observable, numbers.len()),
        Answer::NoneWithin => Ok(Some(0)),
        Answer::NoneAtAll => Ok(Some(0)),
    }
}
