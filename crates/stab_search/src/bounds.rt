ghost use Rattle.std.specs.Prelude.{◌≡◌, ℕ, true, false, slice_index_or, IfOk};
ghost use Rattle.stab_search.specs.inner.Graphs.{HasAtLeast, HasBound};
ghost use Rattle.stab_search.specs.inner.Labels.{IsFar};

use crate::certificate::Members;
use crate::edges::bits_of;
use crate::graph::Graph;
use crate::index::bit_at;
use crate::labels::{Labels, are_labels, labels_from};
use crate::row::end_of_rows;
use crate::sources::{are_covered, sources_of};
use std::alloc::{AllocError, Global};

/// Whether labels show that each logical error has at least this many rows.
pub fn has_bound(alloc: Global, graph: &Graph, bound: usize) -> Result<bool, AllocError>
    ensures yes { IfOk result (λ b. b ≡ true → HasBound graph.now.table bound) }
{
    'observables: for o in graph.detectors()..end_of_rows(graph.rows()) {
        if !has_bound_for(alloc, graph, o, bound)? {
            return Ok(false);
        }
    }
    Ok(true)
}

/// Whether labels show that each logical error that flips observable `o` has at least this many rows.
fn has_bound_for(alloc: Global, graph: &Graph, o: usize, bound: usize) -> Result<bool, AllocError>
    ensures yes { IfOk result (λ b. b ≡ true → HasAtLeast graph.now.table o bound) }
{
    let bits = bits_of(alloc, graph.rows(), o)?;
    let sources = sources_of(alloc, graph, bits.as_slice())?;
    if !are_covered(graph.edges(), bits.as_slice(), sources.as_slice()) {
        return Ok(false);
    }
    are_far(alloc, graph, bits.as_slice(), sources.as_slice(), bound)
}

/// Whether labels from each source show that an odd cycle through it has at least this many edges.
fn are_far(
    alloc: Global,
    graph: &Graph,
    bits: &[bool],
    sources: &[bool],
    bound: usize,
) -> Result<bool, AllocError>
    ensures yes { IfOk result (λ b. b ≡ true → (s : ℕ) → slice_index_or sources.now s false ≡ true → IsFar graph.now.edges bits.now s bound) }
{
    'sources: for s in 0..sources.len() {
        if !is_far(alloc, graph, bits, sources, s, bound)? {
            return Ok(false);
        }
    }
    Ok(true)
}

/// Whether labels from this node show that an odd cycle through it has at least this many edges; true if it is no source.
fn is_far(
    alloc: Global,
    graph: &Graph,
    bits: &[bool],
    sources: &[bool],
    node: usize,
    bound: usize,
) -> Result<bool, AllocError>
    ensures yes { IfOk result (λ b. b ≡ true → slice_index_or sources.now node false ≡ true → IsFar graph.now.edges bits.now node bound) }
{
    if !bit_at(sources, node) {
        return Ok(true);
    }
    let labels = labels_from(alloc, graph, bits, node, bound)?;
    Ok(are_labels(&labels, graph.edges(), bits, node, bound))
}

/// Two colours of the nodes, so that the edges between nodes of two colours are those that flip the observable,
/// if there are such colours. The members are the nodes that do not have the colour of the boundary.
impl Members for Graph {
    fn members(&self, alloc: Global, observable: usize) -> Result<Vec<bool>, AllocError> {
        let bits = bits_of(alloc, self.rows(), observable)?;
        let boundary = self.detectors();
        let nodes = boundary.saturating_add(1);
        let mut labels = Labels::new(alloc, nodes, usize::MAX)?;
        labels.spread(alloc, self, bits.as_slice(), boundary)?;
        for node in 0..boundary {
            if labels.label(node, false).min(labels.label(node, true)) == usize::MAX {
                labels.spread(alloc, self, bits.as_slice(), node)?;
            }
        }
        let mut members = Vec::new(alloc);
        for i in 0..observable {
            members.push(i < boundary && labels.label(i, true) < labels.label(i, false))?;
        }
        members.push(true)?;
        Ok(members)
    }
}
