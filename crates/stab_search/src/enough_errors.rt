//! Errors that are enough: if for each error and each class of detectors another error flips just what it flips of that class, those errors
//! are enough that flip detectors of one class.
ghost use Rattle.std.specs.Prelude.{◌≡◌, ◌≢◌, ℕ, ◌<◌, true, false, List, length, map, slice_index, IfOk, IfErr, OnOk};
ghost use Rattle.stab_io.specs.declared.refusal.Refusal.TheVariants.{OutOfMemory};
ghost use Rattle.stab_parities.specs.Ascending.{IsAscending};
ghost use Rattle.stab_search.specs.Tables.{ErrorTable};
ghost use Rattle.stab_parities.specs.OddNumbers.{odd, row};
ghost use Rattle.stab_search.specs.inner.Classes.{class_of, AreOfClass, HaveClasses, CountsNumber, AreParts, Splits, ErrorsAreEnough};
ghost use Rattle.stab_search.specs.inner.Errors.{AreRowsOf};

use crate::classes::{classes_of, parts_of};
use crate::distinct::{Distinct, distinct_rows, rows_in_order};
use crate::errors::Errors;
use crate::index::entry;
use crate::logical::flipped_by;
use crate::steps::{find_step, order_by};
use crate::table::Table;
use stab_io::Refusal;
use stab_parities::merge_into;
use std::alloc::{AllocError, Global};

/// Errors that are enough, and their numbers in a table.
#[derive(Drop)]
pub struct EnoughErrors {
    pub errors: Errors,
    pub numbers: Vec<usize>,
}

/// The errors of a table that are enough, in an order in which few can be first.
///
/// The only refusal is `OutOfMemory`.
pub fn enough_of(alloc: Global, table: &Table) -> Result<EnoughErrors, Refusal>
    ensures enough { IfOk result (λ k. ErrorsAreEnough table.now k.errors.table k.numbers.items) }
    ensures refusal { IfErr result (λ e. e ≡ OutOfMemory) }
{
    let distinct = distinct_rows(alloc, table)?;
    let errors = Errors::new(alloc, table.detectors(), distinct.rows)?;
    let numbers = distinct.numbers;
    let retained = keep_one_class(EnoughErrors { errors, numbers })?;
    Ok(put_firsts(retained)?)
}

/// The errors with those first that no step moves down, if there is a step that moves down most of them.
fn put_firsts(retained: EnoughErrors) -> Result<EnoughErrors, AllocError>
    ensures enough { IfOk result (λ k. (t : ErrorTable) → ErrorsAreEnough t retained.errors.table retained.numbers.items → ErrorsAreEnough t k.errors.table k.numbers.items) }
{
    match find_step(&retained.errors)? {
        None => Ok(retained),
        Some(lower) => Ok(put_in_order(&retained, lower.as_slice())?),
    }
}

/// The errors with those first that this step does not move down.
fn put_in_order(retained: &EnoughErrors, lower: &[u32]) -> Result<EnoughErrors, AllocError>
    ensures enough { IfOk result (λ k. (t : ErrorTable) → ErrorsAreEnough t retained.now.errors.table retained.now.numbers.items → ErrorsAreEnough t k.errors.table k.numbers.items) }
{
    let alloc = retained.errors.alloc();
    let order = order_by(&retained.errors, lower)?;
    let chosen = rows_in_order(alloc, retained.errors.rows(), order.as_slice())?;
    let numbers = numbers_at(
        alloc,
        retained.numbers.as_slice(),
        chosen.numbers.as_slice(),
    )?;
    let mut errors = Errors::new(alloc, retained.errors.detectors(), chosen.rows)?;
    errors.begin_unmoved(lower);
    Ok(EnoughErrors { errors, numbers })
}

/// The numbers at these positions, 0 if there is none.
fn numbers_at(
    alloc: Global,
    numbers: &[usize],
    positions: &[usize],
) -> Result<Vec<usize>, AllocError>
    ensures count { IfOk result (λ v. length v.items ≡ length positions.now) }
    ensures each { IfOk result (λ v. (k : ℕ) → k < length positions.now → slice_index v.items k ≡ slice_index numbers.now (slice_index positions.now k)) }
{
    let mut found = Vec::new(alloc);
    'positions: for k in 0..positions.len() {
        found.push(entry(numbers, positions[k]))?;
    }
    Ok(found)
}

/// Those of these errors that flip detectors of one class, if they are enough; else all.
fn keep_one_class(retained: EnoughErrors) -> Result<EnoughErrors, AllocError>
    ensures enough { IfOk result (λ k. (t : ErrorTable) → ErrorsAreEnough t retained.errors.table retained.numbers.items → ErrorsAreEnough t k.errors.table k.numbers.items) }
{
    let classes = classes_of(&retained.errors)?;
    let chosen = of_one_class(&retained, classes.as_slice())?;
    let errors = Errors::new(
        retained.errors.alloc(),
        retained.errors.detectors(),
        chosen.rows,
    )?;
    let numbers = chosen.numbers;
    let fewer = errors.len() < retained.errors.len();
    if fewer && all_split(&retained.errors, &errors, classes.as_slice())? {
        Ok(EnoughErrors { errors, numbers })
    } else {
        Ok(retained)
    }
}

/// The errors that flip detectors of one class.
fn of_one_class(retained: &EnoughErrors, classes: &[usize]) -> Result<Distinct, AllocError>
    ensures rows { IfOk result (λ x. (rows : List (List ℕ)) → AreRowsOf rows retained.now.errors.table.rows retained.now.numbers.items → AreRowsOf rows x.rows.items x.numbers.items) }
    ensures classes { IfOk result (λ x. HaveClasses (record { detectors = retained.now.errors.table.detectors; rows = x.rows.items }) classes.now) }
{
    let (errors, numbers) = (&retained.errors, retained.numbers.as_slice());
    let mut chosen = Distinct::new(errors.alloc());
    'rows: for r in 0..errors.len().min(numbers.len()) {
        add_if_of_one_class(
            errors.alloc(),
            &mut chosen,
            errors.row(r),
            numbers[r],
            classes,
            errors.detectors(),
        )?;
    }
    Ok(chosen)
}

/// Adds row r of the table, which has these numbers, if its detectors have one class.
fn add_if_of_one_class(
    alloc: Global,
    chosen: &mut Distinct,
    numbers: &[u32],
    r: usize,
    classes: &[usize],
    detectors: usize,
) -> Result<(), AllocError>
    requires ascending { IsAscending numbers.now }
    ensures rows { OnOk result ((rows : List (List ℕ)) → r < length rows → row rows r ≡ numbers.now → AreRowsOf rows chosen.old.rows.items chosen.old.numbers.items → AreRowsOf rows chosen.new.rows.items chosen.new.numbers.items) }
    ensures classes { OnOk result (HaveClasses (record { detectors = detectors; rows = chosen.old.rows.items }) classes.now → HaveClasses (record { detectors = detectors; rows = chosen.new.rows.items }) classes.now) }
{
    if is_of_one_class(numbers, classes, detectors) {
        chosen.add(alloc, numbers, r)?;
    }
    Ok(())
}

/// Whether all detectors among these numbers have the class of the first number, and it is not 0.
fn is_of_one_class(numbers: &[u32], classes: &[usize], detectors: usize) -> bool
    ensures yes { result ≡ true → AreOfClass classes.now detectors numbers.now (class_of classes.now numbers.now) }
{
    let class = class_of(numbers, classes);
    'each: for d in numbers {
        if !is_of_class(*d, classes, detectors, class) {
            return false;
        }
    }
    true
}

/// Whether a number has this class, which is not 0, if it is a detector.
fn is_of_class(d: u32, classes: &[usize], detectors: usize, class: usize) -> bool
    ensures yes { result ≡ true → d < detectors → (slice_index classes.now d ≡ class) × (class ≢ 0) }
{
    d as usize >= detectors || (class != 0 && entry(classes, d as usize) == class)
}

/// The class of the first of these numbers, 0 if there is none.
fn class_of(numbers: &[u32], classes: &[usize]) -> usize
    ensures value { result ≡ class_of classes.now numbers.now }
{
    if numbers.is_empty() {
        0
    } else {
        entry(classes, numbers[0] as usize)
    }
}

/// Whether each of the errors splits into some of those retained.
fn all_split(errors: &Errors, retained: &Errors, classes: &[usize]) -> Result<bool, AllocError>
    ensures all { IfOk result (λ b. b ≡ true → (r : ℕ) → r < length errors.now.table.rows → Splits retained.now.table classes.now (row errors.now.table.rows r)) }
{
    'rows: for r in 0..errors.len() {
        let numbers = errors.row(r);
        let parts = parts_of(retained, classes, numbers)?;
        if !are_parts(retained, classes, numbers, parts.as_slice())? {
            return Ok(false);
        }
    }
    Ok(true)
}

/// Whether these errors flip together the observables among these numbers and the detectors that are not ignored, and have different classes.
fn are_parts(
    retained: &Errors,
    classes: &[usize],
    numbers: &[u32],
    parts: &[usize],
) -> Result<bool, AllocError>
    requires ascending { IsAscending numbers.now }
    ensures yes { IfOk result (λ b. b ≡ true → AreParts retained.now.table classes.now numbers.now parts.now) }
{
    let flipped = match flipped_by(retained.alloc(), retained.rows(), parts)? {
        None => return Ok(false),
        Some(flipped) => flipped,
    };
    let mut rest = Vec::new(retained.alloc());
    merge_into(&mut rest, flipped.as_slice(), numbers)?;
    Ok(
        none_counts(rest.as_slice(), classes, retained.detectors())
            && are_distinct(retained, classes, parts),
    )
}

/// Whether each of these numbers is a detector that is ignored.
fn none_counts(numbers: &[u32], classes: &[usize], detectors: usize) -> bool
    ensures yes { result ≡ true → (i : ℕ) → CountsNumber classes.now detectors i → odd i numbers.now ≡ false }
{
    'each: for d in numbers {
        if !is_ignored(*d, classes, detectors) {
            return false;
        }
    }
    true
}

/// Whether a number is a detector of class 0.
fn is_ignored(d: u32, classes: &[usize], detectors: usize) -> bool
    ensures yes { result ≡ true → (d < detectors) × (slice_index classes.now d ≡ 0) }
{
    (d as usize) < detectors && entry(classes, d as usize) == 0
}

/// Whether the classes of these errors ascend.
fn are_distinct(retained: &Errors, classes: &[usize], parts: &[usize]) -> bool
    ensures yes { result ≡ true → IsAscending (map (λ r. class_of classes.now (row retained.now.table.rows r)) parts.now) }
{
    let mut from = 0;
    'parts: for r in parts {
        if *r >= retained.len() {
            return false;
        }
        let class = class_of(retained.row(*r), classes);
        if class < from || class == usize::MAX {
            return false;
        }
        from = class + 1;
    }
    true
}
