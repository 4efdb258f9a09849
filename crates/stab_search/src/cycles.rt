use crate::edges::bits_of;
use crate::graph::{Graph, Labelled};
use crate::labels::{Labels, labels_from};
use crate::row::end_of_rows;
use crate::sources::sources_of;
use std::alloc::{AllocError, Global};

/// The rows of a shortest cycle that flips an observable, if it has at most `most`; else those of any such cycle, if there is one.
///
/// No proof rests on it: what it finds is checked.
pub(crate) fn shortest_or_any(
    alloc: Global,
    graph: &Graph,
    most: usize,
) -> Result<Vec<usize>, AllocError> {
    let all = graph.rows().len();
    let found = shortest_cycle(alloc, graph, most.min(all))?;
    if found.is_empty() {
        shortest_cycle(alloc, graph, all)
    } else {
        Ok(found)
    }
}

/// The rows of a shortest cycle that flips an observable, if it has at most `most`; else no rows.
fn shortest_cycle(alloc: Global, graph: &Graph, most: usize) -> Result<Vec<usize>, AllocError> {
    let mut best = Vec::new(alloc);
    let mut bound = most.saturating_add(1);
    for o in graph.detectors()..end_of_rows(graph.rows()) {
        let bits = bits_of(alloc, graph.rows(), o)?;
        let shorter = shortest_cycle_by(alloc, graph, bits.as_slice(), bound)?;
        if !shorter.is_empty() {
            bound = shorter.len();
            best = shorter;
        }
    }
    Ok(best)
}

/// The same for the observable that the edges with these bits flip, if it has fewer rows than the bound.
fn shortest_cycle_by(
    alloc: Global,
    graph: &Graph,
    bits: &[bool],
    bound: usize,
) -> Result<Vec<usize>, AllocError> {
    let mut best = Vec::new(alloc);
    let mut bound = bound;
    let sources = sources_of(alloc, graph, bits)?;
    for source in 0..sources.len() {
        if sources[source] {
            let labels = labels_from(alloc, graph, bits, source, bound)?;
            if labels.label(source, true) < bound {
                bound = labels.label(source, true);
                best = way_back(alloc, graph, bits, &labels, source)?;
            }
        }
    }
    Ok(best)
}

/// The rows of the way back to the source, from the source at the other parity.
fn way_back(
    alloc: Global,
    graph: &Graph,
    bits: &[bool],
    labels: &Labels,
    source: usize,
) -> Result<Vec<usize>, AllocError> {
    let mut rows = Vec::new(alloc);
    let mut position = Labelled {
        node: source,
        parity: true,
    };
    for _ in 0..labels.label(source, true) {
        if let Some(r) = edge_back(graph, bits, labels, position) {
            rows.push(r)?;
            position = graph.across(r, position, bits);
        }
    }
    Ok(rows)
}

/// An edge to where the label is less.
fn edge_back(graph: &Graph, bits: &[bool], labels: &Labels, position: Labelled) -> Option<usize> {
    let here = labels.label(position.node, position.parity);
    for r in graph.edges_at(position.node) {
        let next = graph.across(*r, position, bits);
        if labels.label(next.node, next.parity) < here {
            return Some(*r);
        }
    }
    None
}
