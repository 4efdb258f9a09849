ghost use Rattle.std.specs.Prelude.{◌≡◌, true, false, length, min, slice_index_or, IfOk, IfSome};
ghost use Rattle.stab_parities.specs.Ascending.{IsAscending};
ghost use Rattle.stab_parities.specs.OddNumbers.{odd};
ghost use Rattle.stab_search.specs.Graphlike.{IsGraphlike};
ghost use Rattle.stab_search.specs.inner.Graphs.{IsEdge, AreEdges, RowsFlip};

use crate::row::{Row, flips};
use std::alloc::{AllocError, Global};

/// The two nodes of a row that flips at most two detectors: its detectors, or the boundary, whose number is
/// that of the detectors.
#[derive(Clone, Copy)]
pub struct Edge {
    pub first: usize,
    pub second: usize,
}

/// Whether a row flips at most two detectors.
pub fn is_graphlike(numbers: &[u32], detectors: usize) -> bool
    requires ascending { IsAscending numbers.now }
    ensures yes { result ≡ true → IsGraphlike detectors numbers.now }
    ensures not { result ≡ false → IsGraphlike detectors numbers.now → ⊥ }
{
    numbers.len() < 3 || numbers[2] as usize >= detectors
}

/// The node of number k of a row: the boundary if that is an observable, or if there is none.
fn node_of(numbers: &[u32], k: usize, detectors: usize) -> usize
    ensures value { result ≡ min (slice_index_or numbers.now k detectors) detectors }
{
    if k < numbers.len() {
        (numbers[k] as usize).min(detectors)
    } else {
        detectors
    }
}

/// The edge of a row, if it flips at most two detectors.
fn edge_of(numbers: &[u32], detectors: usize) -> Option<Edge>
    requires ascending { IsAscending numbers.now }
    ensures edge { IfSome result (IsEdge detectors numbers.now) }
{
    if !is_graphlike(numbers, detectors) {
        return None;
    }
    Some(Edge {
        first: node_of(numbers, 0, detectors),
        second: node_of(numbers, 1, detectors),
    })
}

/// The edges of rows, if each flips at most two detectors.
pub fn edges_of(
    alloc: Global,
    detectors: usize,
    rows: &[Row],
) -> Result<Option<Vec<Edge>>, AllocError>
    ensures edges { IfOk result (λ a. IfSome a (λ v. AreEdges (record { detectors = detectors; rows = rows.now }) v.items)) }
{
    let mut edges = Vec::new(alloc);
    'rows: for r in 0..rows.len() {
        let row = &rows[r];
        match edge_of(row.numbers(), detectors) {
            None => return Ok(None),
            Some(edge) => edges.push(edge)?,
        }
    }
    Ok(Some(edges))
}

/// For each row whether it flips a number.
pub fn bits_of(alloc: Global, rows: &[Row], i: usize) -> Result<Vec<bool>, AllocError>
    ensures bits { IfOk result (λ v. RowsFlip rows.now i v.items) }
{
    let mut bits = Vec::new(alloc);
    'rows: for r in 0..rows.len() {
        let row = &rows[r];
        bits.push(flips(row.numbers(), i))?;
    }
    Ok(bits)
}
