//! Parts of a search: of all parts together comes what one search answers.

use crate::distances::numbers_of;
use stab_io::Refusal;
use stab_search::{
    Answer, PartAnswer, SearchPart, Table, Unwatched, least_in_part, least_logical_error,
};
use std::alloc::Global;
use std::test::Fail;

/// The next number below `bits` at random; 0 if there is none.
fn below(bits: u32, state: &mut u64) -> u32 {
    *state = state
        .wrapping_mul(6364136223846793005)
        .wrapping_add(1442695040888963407);
    ((*state >> 40) as u32).checked_rem(bits).unwrap_or(0)
}

/// A table at random.
fn drawn(
    alloc: Global,
    detectors: u32,
    bits: u32,
    rows: u32,
    letters: u32,
    state: &mut u64,
) -> Result<Table, Refusal> {
    let mut table = Table::new(alloc, detectors as usize);
    for _ in 0..rows {
        let mut row = 0;
        for _ in 0..letters {
            row |= 1u32.wrapping_shl(below(bits, state));
        }
        table.push(numbers_of(alloc, row)?.as_slice())?;
    }
    Ok(table)
}

/// What is merged of parts: the least number of errors of which a part has a set, the least first error of these sets, and the set.
#[derive(Drop)]
struct Merged {
    size: usize,
    first: usize,
    set: Vec<usize>,
    none_within: bool,
    none_at_all: bool,
    digests: bool,
    digest: u64,
}

/// Takes the answer of a part in.
fn merge(merged: &mut Merged, answer: PartAnswer) {
    let PartAnswer {
        digest,
        last,
        first,
        answer,
    } = answer;
    merged.digests = merged.digests && (merged.digest == 0 || merged.digest == digest);
    merged.digest = digest;
    match answer {
        Answer::Least(set) => {
            let size = last.saturating_add(1);
            if size < merged.size || size == merged.size && first < merged.first {
                merged.size = size;
                merged.first = first;
                merged.set = set;
            }
        }
        Answer::NoneWithin => merged.none_within = true,
        Answer::NoneAtAll => merged.none_at_all = true,
    }
}

/// Whether all parts give what one search answers.
fn agrees(alloc: Global, table: &Table, most: usize, count: usize) -> Result<bool, Refusal> {
    let answer = least_logical_error(alloc, table, most, &mut Unwatched)?;
    let most = match &answer {
        Answer::Least(set) => set.len(),
        _ => most,
    };
    let mut merged = Merged {
        size: usize::MAX,
        first: 0,
        set: Vec::new(alloc),
        none_within: false,
        none_at_all: false,
        digests: true,
        digest: 0,
    };
    for before in 0..count {
        match SearchPart::new(before.saturating_add(1), count) {
            Some(part) => merge(&mut merged, least_in_part(alloc, table, part, most)?),
            None => return Ok(false),
        }
    }
    let right = match answer {
        Answer::Least(set) => merged.size == set.len() && merged.set.as_slice() == set.as_slice(),
        Answer::NoneWithin => merged.size == usize::MAX
            && merged.none_within
            && !merged.none_at_all,
        Answer::NoneAtAll => merged.size == usize::MAX && merged.none_at_all && !merged.none_within,
    };
    Ok(right && merged.digests)
}

/// How many of some tables at random have parts that agree, for 1 to 4 parts.
fn agreeing(
    alloc: Global,
    detectors: u32,
    bits: u32,
    rows: u32,
    letters: u32,
    most: usize,
    seed: u64,
) -> Result<usize, Refusal> {
    let mut state = seed;
    let mut right: usize = 0;
    for _ in 0..40 {
        let table = drawn(alloc, detectors, bits, rows, letters, &mut state)?;
        for count in 1..5 {
            if agrees(alloc, &table, most, count)? {
                right = right.saturating_add(1);
            }
        }
    }
    Ok(right)
}

#[test]
fn all_parts_give_what_one_search_answers(rt: HostRuntime) -> Result<(), Fail> {
    let small = agreeing(rt.alloc(), 3, 5, 7, 3, 7, 1)?;
    let sparse = agreeing(rt.alloc(), 8, 10, 12, 2, 12, 2)?;
    let dense = agreeing(rt.alloc(), 8, 9, 12, 4, 12, 3)?;
    let bounded = agreeing(rt.alloc(), 10, 11, 14, 3, 3, 4)?;
    assert!(rt;
        small == 160 && sparse == 160 && dense == 160 && bounded == 160,
        "{small}, {sparse}, {dense}, {bounded}"
    );
    Ok(())
}
