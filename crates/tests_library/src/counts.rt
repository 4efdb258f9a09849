//! How many sets of errors are a logical error: worked examples, and tables at random beside all sets of their errors.
use crate::distances::{numbers_of, table_of};
use stab_io::Refusal;
use stab_search::{Answer, Table, Unwatched, count_least, least_logical_error};
use std::alloc::{AllocError, Global};
use std::test::Fail;

/// How many detectors the table has, what each error flips, and how many least logical errors there are of how many errors. An error has a
/// bit for each detector, the lowest first, and above them one for each observable.
type Case = (usize, &'static [u32], usize, u64);

const CASES: &[Case] = &[
    // A repetition code has one, of all its errors.
    (2, &[0b1_01, 0b11, 0b10], 3, 1),
    // Errors that flip the same: two times three times one.
    (2, &[0b1_01, 0b11, 0b10, 0b11, 0b1_01, 0b11], 3, 6),
    // Two paths between two ends, one of which has two errors for a step.
    (3, &[0b1_001, 0b011, 0b101, 0b010, 0b100, 0b010], 3, 3),
    // Errors that no detector sees: one for each observable, and one of them twice.
    (2, &[0b1_00, 0b10_00, 0b1_00, 0b11, 0, 0b1_01], 1, 3),
    // Two errors that differ by observables alone, and each two of three do.
    (2, &[0b01_11, 0b10_11, 0b11_11, 0b11_11], 2, 5),
    // Two errors that flip three detectors, with one that flips all of them, or three that flip one each.
    (3, &[0b1_111, 0b001, 0b010, 0b100], 4, 1),
    // There is none without errors, and none of one that is seen.
    (2, &[], 0, 0),
    (2, &[0b1_01], 0, 0),
    // A shortest path across a square lattice of two by three detectors, straight: one for each of two rows.
    (
        4,
        &[
            0b1_0001, 0b0011, 0b0010, 0b1_0100, 0b1100, 0b1000, 0b0101, 0b1010,
        ],
        3,
        2,
    ),
];

/// How many errors the least logical error has, 0 if there is none, and how many such sets there are.
fn counted(alloc: Global, table: &Table) -> Result<(usize, Option<u64>), Refusal> {
    match least_logical_error(alloc, table, table.len(), &mut Unwatched)? {
        Answer::Least(errors) => {
            let count = count_least(alloc, table, errors.len())?;
            Ok((errors.len(), count))
        }
        _ => Ok((0, Some(0))),
    }
}

#[test]
fn sets_of_worked_tables_are_counted(rt: HostRuntime) -> Result<(), Fail> {
    for (number, &(detectors, rows, size, wanted)) in CASES.iter().enumerate() {
        let table = table_of(rt.alloc(), detectors, rows)?;
        let found = counted(rt.alloc(), &table)?;
        let right = found.0 == size && found.1 == Some(wanted);
        assert!(rt; right, "case {number}");
    }
    Ok(())
}

/// A line of this many steps between detectors, with `times` errors for each: the sets are `times` to the power of the steps.
fn sets_of_a_line(alloc: Global, steps: u32, times: usize) -> Result<Option<u64>, Refusal> {
    let mut table = Table::new(alloc, 31);
    let mut here: u32 = 1 << 31;
    let mut next: u32 = 1;
    for step in 1..=steps {
        let bits = if step == steps { here } else { here | next };
        for _ in 0..times {
            table.push(numbers_of(alloc, bits)?.as_slice())?;
        }
        here = next;
        next = next.wrapping_mul(2);
    }
    let (_, count) = counted(alloc, &table)?;
    Ok(count)
}

#[test]
fn a_count_is_exact_up_to_64_bits(rt: HostRuntime) -> Result<(), Fail> {
    let below = sets_of_a_line(rt.alloc(), 31, 4)?;
    let three = sets_of_a_line(rt.alloc(), 13, 3)?;
    let last = sets_of_a_line(rt.alloc(), 16, 15)?;
    let above = sets_of_a_line(rt.alloc(), 16, 16)?;
    assert!(rt; below == Some(1 << 62));
    assert!(rt; three == Some(1_594_323));
    assert!(rt; last == Some(6_568_408_355_712_890_625));
    assert!(rt; above.is_none());
    Ok(())
}

/// How many detectors and how many bits the tables at random have, and how many errors.
const DETECTORS: u32 = 4;

const NUMBERS: u32 = 6;

const ROWS: u32 = 9;

/// The errors of the next table at random.
fn drawn(alloc: Global, state: &mut u64) -> Result<Vec<u32>, AllocError> {
    let mut rows = Vec::new(alloc);
    for _ in 0..ROWS {
        *state = state
            .wrapping_mul(6364136223846793005)
            .wrapping_add(1442695040888963407);
        rows.push((*state >> 40) as u32 % (1 << NUMBERS))?;
    }
    Ok(rows)
}

/// The same, of few different rows.
fn drawn_alike(alloc: Global, state: &mut u64) -> Result<Vec<u32>, AllocError> {
    let rows = drawn(alloc, state)?;
    let kinds = (*state >> 20) as usize % 5 + 2;
    let mut alike = Vec::new(alloc);
    for r in 0..rows.len() {
        let k = r % kinds;
        if k < rows.len() {
            alike.push(rows[k])?;
        }
    }
    Ok(alike)
}

/// What the errors with these bits flip together.
fn flipped(rows: &[u32], chosen: u32) -> u32 {
    let mut bits = 0;
    for (r, row) in rows.iter().enumerate() {
        if r < 32 && chosen >> r & 1 == 1 {
            bits ^= *row;
        }
    }
    bits
}

fn is_logical(bits: u32) -> bool {
    bits % (1 << DETECTORS) == 0 && bits != 0
}

/// How many errors the least logical error has, 0 if there is none, and how many such sets there are, by trying all sets of errors.
fn counted_by_trying(rows: &[u32]) -> (usize, u64) {
    let mut fewest: u32 = 0;
    let mut count: u64 = 0;
    for chosen in 1..1 << ROWS {
        let chosen: u32 = chosen;
        let size = chosen.count_ones();
        if is_logical(flipped(rows, chosen)) && (fewest == 0 || size <= fewest) {
            count = if size == fewest {
                count.saturating_add(1)
            } else {
                1
            };
            fewest = size;
        }
    }
    (fewest as usize, count)
}

#[test]
fn tables_at_random_are_counted_as_all_sets_of_their_errors(rt: HostRuntime) -> Result<(), Fail> {
    let mut state = 5;
    for number in 0..400 {
        let rows = if number % 2 == 0 {
            drawn(rt.alloc(), &mut state)?
        } else {
            drawn_alike(rt.alloc(), &mut state)?
        };
        let (size, count) = counted_by_trying(rows.as_slice());
        let table = table_of(rt.alloc(), DETECTORS as usize, rows.as_slice())?;
        let found = counted(rt.alloc(), &table)?;
        let right = found.0 == size && found.1 == Some(count);
        assert!(rt; right, "table {number}");
    }
    Ok(())
}
