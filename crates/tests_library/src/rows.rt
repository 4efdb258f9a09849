//! Rows of signed Pauli strings: made, changed, stored in little memory and compared.
use crate::texts::{both, prints, read, repeated};
use stab_pauli::{CompactRows, Letter, Pauli, PauliRows, Refusal};
use std::alloc::Global;
use std::test::Fail;

// Sets a row, if there is one of that length.
fn set_row(rows: &mut PauliRows, a: usize, pauli: &Pauli) {
    if a < rows.len() && pauli.len() == rows.qubits() {
        rows.set_row(a, pauli);
    }
}

// The rows that texts of n letters each stand for, of which there are 16 at most.
fn rows_of(alloc: Global, n: usize, texts: &[&str]) -> Result<PauliRows, Refusal> {
    let mut rows = PauliRows::new(alloc, texts.len().min(16), n.min(1024))?;
    for (a, text) in texts.iter().enumerate() {
        set_row(&mut rows, a, &read(alloc, text)?);
    }
    Ok(rows)
}

// Whether a row is printed as a text.
fn is(alloc: Global, rows: &PauliRows, a: usize, text: &str) -> Result<bool, Refusal> {
    let mut pauli = Pauli::identity(alloc, rows.qubits())?;
    if a < rows.len() && pauli.len() == rows.qubits() {
        rows.copy_row(a, &mut pauli);
        prints(alloc, &pauli, text)
    } else {
        Ok(false)
    }
}

// Whether the rows are printed as the texts.
fn are(alloc: Global, rows: &PauliRows, texts: &[&str]) -> Result<bool, Refusal> {
    let mut same = rows.len() == texts.len();
    for (a, text) in texts.iter().enumerate() {
        same &= is(alloc, rows, a, text)?;
    }
    Ok(same)
}

// A change of rows.
#[derive(Clone, Copy)]
enum RowChange {
    Set(usize, usize, Letter),
    NegateIf(usize, bool),
    Swap(usize, usize),
    Clear(usize),
}

fn make(rows: &mut PauliRows, change: RowChange) {
    match change {
        RowChange::Set(a, qubit, letter) => {
            if a < rows.len() && qubit < rows.qubits() {
                rows.set(a, qubit, letter);
            }
        }
        RowChange::NegateIf(a, bit) => {
            if a < rows.len() {
                rows.negate_if(a, bit);
            }
        }
        RowChange::Swap(a, b) => {
            if a != b && a < rows.len() && b < rows.len() {
                rows.swap(a, b);
            }
        }
        RowChange::Clear(a) => {
            if a < rows.len() {
                rows.clear(a);
            }
        }
    }
}

// Whether new rows are identities, three of them, on two qubits.
fn are_new_identities(alloc: Global) -> Result<bool, Refusal> {
    let rows = PauliRows::new(alloc, 3, 2)?;
    let made = rows.len() == 3 && rows.qubits() == 2;
    both(Ok(made), are(alloc, &rows, &["+__", "+__", "+__"]))
}

// The letter at a qubit of a row, and whether it has an X part, whether the row is negative, and its first X or Y.
type Seen = (Letter, bool, bool, Option<usize>);

fn seen(rows: &PauliRows, a: usize, qubit: usize) -> Option<Seen> {
    if a < rows.len() && qubit < rows.qubits() {
        let (letter, has_x) = (rows.letter(a, qubit), rows.has_x(a, qubit));
        Some((letter, has_x, rows.is_negative(a), rows.first_x(a)))
    } else {
        None
    }
}

// Whether this is seen at a qubit of a row.
fn shows(rows: &PauliRows, (a, qubit): (usize, usize), wanted: Seen) -> bool {
    seen(rows, a, qubit) == Some(wanted)
}

// Whether rows that are changed are then these, and this is seen at a qubit of one of them.
fn changed(
    alloc: Global,
    old: &[&str],
    change: RowChange,
    new: &[&str],
    position: (usize, usize),
    wanted: Seen,
) -> Result<bool, Refusal> {
    let mut rows = rows_of(alloc, 2, old)?;
    make(&mut rows, change);
    let shown = shows(&rows, position, wanted);
    both(Ok(shown), are(alloc, &rows, new))
}

// Changes of rows, what they make of them, and what is then seen at a qubit of a row.
const CHANGES: &[(&[&str], RowChange, &[&str], (usize, usize), Seen)] = &[
    // X in the first row.
    (
        &["+__", "+__", "+__"],
        RowChange::Set(0, 0, Letter::X),
        &["+X_", "+__", "+__"],
        (0, 0),
        (Letter::X, true, false, Some(0)),
    ),
    // Z in the second row.
    (
        &["+X_", "+__", "+__"],
        RowChange::Set(1, 1, Letter::Z),
        &["+X_", "+_Z", "+__"],
        (0, 1),
        (Letter::I, false, false, Some(0)),
    ),
    (
        &["+X_", "+_Z", "+__"],
        RowChange::NegateIf(1, true),
        &["+X_", "-_Z", "+__"],
        (1, 0),
        (Letter::I, false, true, None),
    ),
    (
        &["+X_", "-_Z", "+__"],
        RowChange::NegateIf(0, false),
        &["+X_", "-_Z", "+__"],
        (1, 1),
        (Letter::Z, false, true, None),
    ),
    // Y in the third row.
    (
        &["+X_", "-_Z", "+__"],
        RowChange::Set(2, 0, Letter::Y),
        &["+X_", "-_Z", "+Y_"],
        (2, 0),
        (Letter::Y, true, false, Some(0)),
    ),
    (
        &["+X_", "-_Z", "+Y_"],
        RowChange::Swap(0, 1),
        &["-_Z", "+X_", "+Y_"],
        (0, 1),
        (Letter::Z, false, true, None),
    ),
    (
        &["-_Z", "+X_", "+Y_"],
        RowChange::Clear(2),
        &["-_Z", "+X_", "+__"],
        (2, 0),
        (Letter::I, false, false, None),
    ),
];

#[test]
fn rows_are_made_and_changed(rt: HostRuntime) -> Result<(), Fail> {
    let made = are_new_identities(rt.alloc())?;
    assert!(rt; made, "new rows");
    for (number, &(old, change, new, position, seen)) in CHANGES.iter().enumerate() {
        let hold = changed(rt.alloc(), old, change, new, position, seen)?;
        assert!(rt; hold, "change {number}");
    }
    Ok(())
}

// Rows of their own, from little memory.
fn again(alloc: Global, rows: &PauliRows) -> Result<PauliRows, Refusal> {
    let compact = rows.compact(alloc)?;
    compact.rows(alloc)
}

// Rows with two letters, of which the second is negated; between them lie 791 words 0, more than one gap can
// hold, and after them 403.
fn distant(alloc: Global) -> Result<PauliRows, Refusal> {
    let mut rows = PauliRows::new(alloc, 150, 2)?;
    make(&mut rows, RowChange::Set(0, 0, Letter::X));
    make(&mut rows, RowChange::Set(99, 1, Letter::Y));
    make(&mut rows, RowChange::NegateIf(99, true));
    Ok(rows)
}

// Whether rows that came back are those with letters far from each other.
fn are_distant(rows: &PauliRows, again: &PauliRows) -> bool {
    again.len() == 150
        && again.qubits() == 2
        && again.same(rows)
        && shows(again, (0, 0), (Letter::X, true, false, Some(0)))
        && shows(again, (98, 0), (Letter::I, false, false, None))
        && shows(again, (99, 1), (Letter::Y, true, true, Some(1)))
}

// Whether rows with letters far from each other come back in rows of their own.
fn distant_come_back(alloc: Global) -> Result<bool, Refusal> {
    let rows = distant(alloc)?;
    match again(alloc, &rows) {
        Ok(again) => Ok(are_distant(&rows, &again)),
        Err(refusal) => Err(refusal),
    }
}

// Whether rows are distinguished, by little memory, from those with one letter more after them.
fn are_reported_from(compact: &CompactRows, rows: &mut PauliRows) -> bool {
    let same = compact.qubits() == 2 && compact.are(rows);
    make(rows, RowChange::Set(149, 1, Letter::Z));
    same && !compact.are(rows)
}

// Whether rows with letters far from each other are distinguished from rows with one letter more after them.
fn are_reported(alloc: Global) -> Result<bool, Refusal> {
    let mut rows = distant(alloc)?;
    match rows.compact(alloc) {
        Ok(compact) => Ok(are_reported_from(&compact, &mut rows)),
        Err(refusal) => Err(refusal),
    }
}

#[test]
fn distant_letters_come_back_from_little_memory(rt: HostRuntime) -> Result<(), Fail> {
    let back = distant_come_back(rt.alloc())?;
    let reported = are_reported(rt.alloc())?;
    assert!(rt; back && reported);
    Ok(())
}

// Rows of this many letters, and whether they are those of the test, with their signs and without.
const OTHERS: &[(usize, &[&str], bool, bool)] = &[
    (3, &["+X_Z", "-_YZ"], true, true),
    (3, &["+X_Z", "+_YZ"], false, true),
    (3, &["+X_Z", "-_YY"], false, false),
    (3, &["-_YZ", "+X_Z"], false, false),
    (3, &["+X_Z"], false, false),
    (2, &["+X_", "-_Y"], false, false),
];

// Whether it is found if rows are those of the test, with their signs and without.
fn are_compared(
    alloc: Global,
    n: usize,
    texts: &[&str],
    same: bool,
    letters: bool,
) -> Result<bool, Refusal> {
    let rows = rows_of(alloc, 3, &["+X_Z", "-_YZ"])?;
    let others = rows_of(alloc, n, texts)?;
    Ok(rows.same(&others) == same && rows.same_letters(&others) == letters)
}

#[test]
fn rows_are_compared_with_and_without_signs(rt: HostRuntime) -> Result<(), Fail> {
    for &(n, texts, same, letters) in OTHERS {
        let right = are_compared(rt.alloc(), n, texts, same, letters)?;
        assert!(rt; right, "{n} letters, {same}, {letters}");
    }
    Ok(())
}

// Whether the third of four rows alone has letters, which are Y, and a sign, as the first qubit shows.
fn is_third_alone(rows: &PauliRows) -> bool {
    let none = (Letter::I, false, false, None);
    shows(rows, (0, 0), none)
        && shows(rows, (1, 0), none)
        && shows(rows, (2, 0), (Letter::Y, true, true, Some(0)))
        && shows(rows, (3, 0), none)
}

// Whether that holds of rows of n letters, the third of which is set to -YY and so on.
fn are_others_stored(alloc: Global, n: usize) -> Result<bool, Refusal> {
    let mut rows = PauliRows::new(alloc, 4, n.min(1024))?;
    let mut other = repeated(alloc, n, Letter::Y)?;
    other.negate();
    set_row(&mut rows, 2, &other);
    Ok(is_third_alone(&rows))
}

#[test]
fn a_row_after_many_keeps_the_others(rt: HostRuntime) -> Result<(), Fail> {
    for n in [1, 255, 256, 257, 1024] {
        let preserved = are_others_stored(rt.alloc(), n)?;
        assert!(rt; preserved, "{n}");
    }
    Ok(())
}
