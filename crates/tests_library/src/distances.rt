//! The search for a least logical error in a table of errors: worked examples, and tables at random beside all sets of their errors.
ghost use Rattle.std.specs.Prelude.{IfOk, None};
ghost use Rattle.stab_parities.specs.Ascending.{IsAscending};

use stab_io::Refusal;
use stab_search::{Answer, Progress, Table, Unwatched, least_graphlike_error, least_logical_error};
use std::alloc::{AllocError, Global};
use std::test::Fail;

/// Whether a search takes all errors of a table, or only those that flip at most two detectors.
#[derive(Clone, Copy)]
enum Search {
    All,
    Graphlike,
}

/// What a search answers: a least logical error of these errors, or of this many, or none.
#[derive(Clone, Copy)]
enum Wanted {
    Least(&'static [usize]),
    Number(usize),
    NoneWithin,
    NoneAtAll,
}

/// The search, how many detectors the table has, what each error flips, the most errors, and the answer. An
/// error has a bit for each detector, the lowest first, and above them one for each observable.
type Case = (Search, usize, &'static [u32], usize, Wanted);

/// Repetition codes: an error between each two neighbours of a line of detectors, and one at each end, of
/// which the first flips the observable.
const LINE_OF_2: &[u32] = &[0b1_01, 0b11, 0b10];

const LINE_OF_4: &[u32] = &[0b1_0001, 0b0011, 0b0110, 0b1100, 0b1000];

/// An error between each two neighbours of nine squares on a torus. Those over one edge flip the observable.
const TORUS: &[u32] = &[
    0b000001001,
    0b000000011,
    0b000010010,
    0b000000110,
    0b000100100,
    0b000000101,
    0b001001000,
    0b000011000,
    0b010010000,
    0b000110000,
    0b100100000,
    0b000101000,
    0b1_001000001,
    0b011000000,
    0b1_010000010,
    0b110000000,
    0b1_100000100,
    0b101000000,
];

const CASES: &[Case] = &[
    // A repetition code of distance 3 takes three errors, and one of distance 5 five.
    (Search::All, 2, LINE_OF_2, 9, Wanted::Least(&[0, 1, 2])),
    (Search::All, 2, LINE_OF_2, 2, Wanted::NoneWithin),
    (Search::All, 2, LINE_OF_2, 0, Wanted::NoneWithin),
    (
        Search::All,
        4,
        LINE_OF_4,
        5,
        Wanted::Least(&[0, 1, 2, 3, 4]),
    ),
    (Search::All, 4, LINE_OF_4, 4, Wanted::NoneWithin),
    // An error that no detector sees is a logical error.
    (
        Search::All,
        2,
        &[0b1_01, 0b11, 0b10, 0, 0b100000_00],
        9,
        Wanted::Least(&[4]),
    ),
    // Without observables there is none.
    (Search::All, 2, &[], 0, Wanted::NoneAtAll),
    (Search::All, 2, &[0b01, 0b11, 0b10], 0, Wanted::NoneAtAll),
    // Observables that detectors add up to are never flipped unseen.
    (
        Search::All,
        3,
        &[0b01_011, 0b11_110, 0b10_101, 0b01_010],
        0,
        Wanted::NoneAtAll,
    ),
    (
        Search::All,
        3,
        &[0b01_011, 0b11_110, 0b10_101, 0b01_010, 0b10_010],
        9,
        Wanted::Least(&[3, 4]),
    ),
    // Of errors that flip the same the first is given.
    (
        Search::All,
        8,
        &[0x80, 0x88, 0x88, 0x80, 0x288],
        9,
        Wanted::Least(&[1, 4]),
    ),
    // An error that three detectors see is left out.
    (
        Search::All,
        3,
        &[0b1_001, 0b011, 0b110, 0b100, 0b111, 0b1_111],
        9,
        Wanted::Least(&[4, 5]),
    ),
    (
        Search::Graphlike,
        3,
        &[0b1_001, 0b011, 0b110, 0b100, 0b111, 0b1_111],
        9,
        Wanted::Least(&[0, 1, 2, 3]),
    ),
    // A chain goes from end to end.
    (
        Search::Graphlike,
        4,
        LINE_OF_4,
        5,
        Wanted::Least(&[0, 1, 2, 3, 4]),
    ),
    (Search::Graphlike, 4, LINE_OF_4, 4, Wanted::NoneWithin),
    (Search::Graphlike, 4, LINE_OF_4, 0, Wanted::NoneWithin),
    // A ring without a boundary takes all of its errors, up to one across it.
    (
        Search::Graphlike,
        6,
        &[0b11, 0b110, 0b1100, 0b11000, 0b110000, 0b1_100001],
        9,
        Wanted::Least(&[0, 1, 2, 3, 4, 5]),
    ),
    (
        Search::Graphlike,
        6,
        &[0b11, 0b110, 0b1100, 0b11000, 0b110000, 0b1_100001, 0b010010],
        9,
        Wanted::Least(&[0, 4, 5, 6]),
    ),
    // An error that only an observable sees is graphlike.
    (
        Search::Graphlike,
        4,
        &[0b1_0001, 0b0011, 0b0110, 0b1100, 0b1000, 0b100_0010, 0b0010],
        9,
        Wanted::Least(&[5, 6]),
    ),
    (
        Search::Graphlike,
        4,
        &[
            0b1_0001, 0b0011, 0b0110, 0b1100, 0b1000, 0b100_0010, 0b0010, 0b10_0000,
        ],
        9,
        Wanted::Least(&[7]),
    ),
    // Two colours show that none is logical.
    (Search::Graphlike, 5, &[], 0, Wanted::NoneAtAll),
    (
        Search::Graphlike,
        5,
        &[
            0b01_00011, 0b00110, 0b01_00101, 0b00100, 0b10_11000, 0b10_11100,
        ],
        0,
        Wanted::NoneAtAll,
    ),
    (
        Search::Graphlike,
        5,
        &[
            0b01_00011, 0b00110, 0b01_00101, 0b00100, 0b10_11000, 0b10_11100, 0b11000,
        ],
        0,
        Wanted::NoneWithin,
    ),
    (
        Search::Graphlike,
        5,
        &[
            0b01_00011, 0b00110, 0b01_00101, 0b00100, 0b10_11000, 0b10_11100, 0b11000,
        ],
        9,
        Wanted::Least(&[4, 6]),
    ),
    // A torus of three by three has distance 3.
    (Search::Graphlike, 9, TORUS, 9, Wanted::Number(3)),
    (Search::Graphlike, 9, TORUS, 2, Wanted::NoneWithin),
];

/// The numbers of the bits that are set.
pub fn numbers_of(alloc: Global, bits: u32) -> Result<Vec<u32>, AllocError>
    ensures ascending { IfOk result (λ v. IsAscending v.items) }
{
    let mut numbers = Vec::new(alloc);
    'bits: for n in 0..32 {
        if bits >> n & 1 == 1 {
            numbers.push(n)?;
        }
    }
    Ok(numbers)
}

/// The table of these errors.
pub fn table_of(alloc: Global, detectors: usize, rows: &[u32]) -> Result<Table, Refusal> {
    let mut table = Table::new(alloc, detectors);
    for row in rows {
        table.push(numbers_of(alloc, *row)?.as_slice())?;
    }
    Ok(table)
}

/// What a search of the table of these errors answers.
fn answer_of(
    alloc: Global,
    search: Search,
    detectors: usize,
    rows: &[u32],
    most: usize,
) -> Result<Answer, Refusal> {
    let table = table_of(alloc, detectors, rows)?;
    match search {
        Search::All => least_logical_error(alloc, &table, most, &mut Unwatched),
        Search::Graphlike => least_graphlike_error(alloc, &table, most, &mut Unwatched),
    }
}

fn is_wanted(answer: &Answer, wanted: Wanted) -> bool {
    match (answer, wanted) {
        (Answer::Least(errors), Wanted::Least(wanted)) => errors.as_slice() == wanted,
        (Answer::Least(errors), Wanted::Number(number)) => errors.len() == number,
        (Answer::NoneWithin, Wanted::NoneWithin) => true,
        (Answer::NoneAtAll, Wanted::NoneAtAll) => true,
        _ => false,
    }
}

#[test]
fn a_search_finds_a_least_logical_error(rt: HostRuntime) -> Result<(), Fail> {
    for (number, &(search, detectors, rows, most, wanted)) in CASES.iter().enumerate() {
        let answer = answer_of(rt.alloc(), search, detectors, rows, most)?;
        let right = is_wanted(&answer, wanted);
        assert!(rt; right, "case {number}");
    }
    Ok(())
}

/// The last number of errors that was reported as excluded, and how many were.
#[derive(Drop)]
struct Reported {
    last: usize,
    times: usize,
}

impl Progress for Reported {
    ghost heard = { λ _. None };

    fn begins(&mut self, _errors: usize) {}

    fn none_within(&mut self, errors: usize) {
        self.last = errors;
        self.times = self.times.saturating_add(1);
    }
}

/// What a search of a repetition code of distance 5 reports.
fn reports(alloc: Global, search: Search, most: usize) -> Result<Reported, Refusal> {
    let table = table_of(alloc, 4, LINE_OF_4)?;
    let mut reported = Reported { last: 0, times: 0 };
    match search {
        Search::All => least_logical_error(alloc, &table, most, &mut reported)?,
        Search::Graphlike => least_graphlike_error(alloc, &table, most, &mut reported)?,
    };
    Ok(reported)
}

#[test]
fn each_number_of_errors_that_is_excluded_is_reported(rt: HostRuntime) -> Result<(), Fail> {
    for search in [Search::All, Search::Graphlike] {
        for (most, last) in [(9, 4), (4, 4), (2, 2), (0, 0)] {
            let reported = reports(rt.alloc(), search, most)?;
            assert!(rt; reported.last == last && reported.times == last);
        }
    }
    Ok(())
}

/// How many detectors and how many bits the tables at random have, and how many errors.
const DETECTORS: u32 = 3;

const NUMBERS: u32 = 5;

const ROWS: u32 = 7;

/// The errors of the next table at random.
fn drawn(alloc: Global, state: &mut u64) -> Result<Vec<u32>, AllocError> {
    let mut rows = Vec::new(alloc);
    for _ in 0..ROWS {
        *state = state
            .wrapping_mul(6364136223846793005)
            .wrapping_add(1442695040888963407);
        rows.push((*state >> 40) as u32 % (1 << NUMBERS))?;
    }
    Ok(rows)
}

/// What an error flips if a search takes it, and otherwise nothing.
fn taken(search: Search, bits: u32) -> u32 {
    match search {
        Search::All => bits,
        Search::Graphlike => if (bits % (1 << DETECTORS)).count_ones() > 2 {
            0
        } else {
            bits
        },
    }
}

/// What the errors with these bits flip together.
fn flipped(search: Search, rows: &[u32], chosen: u32) -> u32 {
    let mut bits = 0;
    for (r, row) in rows.iter().enumerate() {
        if r < 32 && chosen >> r & 1 == 1 {
            bits ^= taken(search, *row);
        }
    }
    bits
}

fn is_logical(bits: u32) -> bool {
    bits % (1 << DETECTORS) == 0 && bits != 0
}

/// How many errors the least logical error has, by trying all sets of errors; 0 if there is none.
fn least_by_trying(search: Search, rows: &[u32]) -> u32 {
    let mut fewest = 0;
    for chosen in 1..1 << ROWS {
        let chosen: u32 = chosen;
        let logical = is_logical(flipped(search, rows, chosen));
        if logical && (fewest == 0 || chosen.count_ones() < fewest) {
            fewest = chosen.count_ones();
        }
    }
    fewest
}

/// What a least logical error flips, by the numbers of its errors.
fn flipped_by(search: Search, rows: &[u32], errors: &[usize]) -> u32 {
    let mut bits = 0;
    for r in errors {
        if *r < rows.len() {
            bits ^= taken(search, rows[*r]);
        }
    }
    bits
}

/// Whether a search answers as all sets of the errors do.
fn agrees(alloc: Global, search: Search, rows: &[u32]) -> Result<bool, Refusal> {
    let fewest = least_by_trying(search, rows);
    match answer_of(alloc, search, DETECTORS as usize, rows, ROWS as usize)? {
        Answer::Least(errors) => Ok(
            errors.len() == fewest as usize
                && is_logical(flipped_by(search, rows, errors.as_slice())),
        ),
        Answer::NoneWithin => Ok(false),
        Answer::NoneAtAll => Ok(fewest == 0),
    }
}

/// How many of 300 tables at random are answered as all sets of their errors.
fn agreeing(alloc: Global, search: Search, seed: u64) -> Result<usize, Refusal> {
    let mut state = seed;
    let mut right: usize = 0;
    for _ in 0..300 {
        let rows = drawn(alloc, &mut state)?;
        if agrees(alloc, search, rows.as_slice())? {
            right = right.saturating_add(1);
        }
    }
    Ok(right)
}

#[test]
fn tables_at_random_answer_as_all_sets_of_their_errors(rt: HostRuntime) -> Result<(), Fail> {
    let all = agreeing(rt.alloc(), Search::All, 1)?;
    let graphlike = agreeing(rt.alloc(), Search::Graphlike, 7)?;
    assert!(rt; all == 300 && graphlike == 300, "{all}, {graphlike}");
    Ok(())
}
