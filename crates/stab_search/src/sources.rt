ghost use Rattle.std.specs.Prelude.{◌≡◌, ◌⊎◌, true, false, slice_index_or};
ghost use Rattle.stab_search.specs.inner.Labels.{AreCovered};

use crate::edges::Edge;
use crate::graph::Graph;
use crate::index::bit_at;
use std::alloc::{AllocError, Global};

/// Nodes from which to search: of each edge that flips the observable one node, if it can be the boundary.
///
/// No proof rests on it: that it covers these edges is checked.
pub(crate) fn sources_of(
    alloc: Global,
    graph: &Graph,
    bits: &[bool],
) -> Result<Vec<bool>, AllocError> {
    let mut sources = vec![in alloc; false; graph.detectors().saturating_add(1)]?;
    let edges = graph.edges();
    for r in 0..edges.len() {
        let edge = edges[r];
        if bit_at(bits, r) && !is_covered(edge, sources.as_slice()) && edge.second < sources.len() {
            sources[edge.second] = true;
        }
    }
    Ok(sources)
}

/// Whether each edge that flips the observable has a node that is a source.
pub fn are_covered(edges: &[Edge], bits: &[bool], sources: &[bool]) -> bool
    ensures yes { result ≡ true → AreCovered edges.now bits.now sources.now }
{
    'edges: for r in 0..edges.len() {
        if bit_at(bits, r) && !is_covered(edges[r], sources) {
            return false;
        }
    }
    true
}

/// Whether a node of an edge is a source.
fn is_covered(edge: Edge, sources: &[bool]) -> bool
    ensures yes { result ≡ true → (slice_index_or sources.now edge.first false ≡ true) ⊎ (slice_index_or sources.now edge.second false ≡ true) }
{
    bit_at(sources, edge.first) || bit_at(sources, edge.second)
}
