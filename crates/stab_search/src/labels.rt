ghost use Rattle.std.specs.Prelude.{◌≡◌, ℕ, ◌<◌, true, false, length, slice_index_or};
ghost use Rattle.stab_search.specs.inner.Graphs.{edge};
ghost use Rattle.stab_search.specs.inner.Labels.{AreNear, AreNearAlong, AreLabels};

use crate::edges::Edge;
use crate::graph::{Graph, Labelled};
use crate::index::{bit_at, entry};
use std::alloc::{AllocError, Global};

/// For each node the number of edges that lead there from a source, of which an even or an odd number flip an
/// observable; or a bound, if there are no fewer.
///
/// No proof rests on how they are found: they are checked.
pub struct Labels {
    pub even: Vec<usize>,
    pub odd: Vec<usize>,
}

// Written out, so that a proof sees the drop of a value as one call, and not one for each of its parts.
impl Drop for Labels {
    fn drop(self) {
        let Labels { even: _, odd: _ } = self;
    }
}

impl Labels {
    ghost use Rattle.std.specs.Prelude.{◌≡◌};
    ghost use Rattle.stab_search.specs.inner.Labels.{label};

    /// The bound at each node.
    pub(crate) fn new(alloc: Global, nodes: usize, bound: usize) -> Result<Labels, AllocError> {
        Ok(Labels {
            even: vec![in alloc; bound; nodes]?,
            odd: vec![in alloc; bound; nodes]?,
        })
    }

    /// The label of a node at a parity.
    pub fn label(&self, node: usize, parity: bool) -> usize
        ensures value { result ≡ label self.now node parity }
    {
        if parity {
            entry(self.odd.as_slice(), node)
        } else {
            entry(self.even.as_slice(), node)
        }
    }

    /// Labels each node and parity that is nearer to the source by edges than its label says: a search in breadth.
    pub(crate) fn spread(
        &mut self,
        alloc: Global,
        graph: &Graph,
        bits: &[bool],
        source: usize,
    ) -> Result<(), AllocError> {
        let positions = self.even.len().saturating_mul(2);
        let mut queue = Vec::new(alloc);
        let start = Labelled {
            node: source,
            parity: false,
        };
        self.lower(start, 0);
        queue.push(start)?;
        for k in 0..positions {
            if k >= queue.len() {
                break;
            }
            let position = queue[k];
            self.spread_from(graph, bits, position, &mut queue)?;
        }
        Ok(())
    }

    /// Labels the neighbours of a node at a parity, and puts those whose label it lowers at the end of the queue.
    fn spread_from(
        &mut self,
        graph: &Graph,
        bits: &[bool],
        position: Labelled,
        queue: &mut Vec<Labelled>,
    ) -> Result<(), AllocError> {
        let next = self.label(position.node, position.parity).saturating_add(1);
        for r in graph.edges_at(position.node) {
            let neighbour = graph.across(*r, position, bits);
            if next < self.label(neighbour.node, neighbour.parity) {
                self.lower(neighbour, next);
                queue.push(neighbour)?;
            }
        }
        Ok(())
    }

    fn lower(&mut self, position: Labelled, label: usize) {
        let side = if position.parity {
            self.odd.as_mut_slice()
        } else {
            self.even.as_mut_slice()
        };
        if position.node < side.len() {
            side[position.node] = label;
        }
    }
}

/// The labels from a source, none greater than a bound.
pub(crate) fn labels_from(
    alloc: Global,
    graph: &Graph,
    bits: &[bool],
    source: usize,
    bound: usize,
) -> Result<Labels, AllocError> {
    let nodes = graph.detectors().saturating_add(1);
    let mut labels = Labels::new(alloc, nodes, bound)?;
    labels.spread(alloc, graph, bits, source)?;
    Ok(labels)
}

/// Whether labels from a source show that an odd cycle through it has at least this many edges.
pub fn are_labels(
    labels: &Labels,
    edges: &[Edge],
    bits: &[bool],
    source: usize,
    bound: usize,
) -> bool
    ensures yes { result ≡ true → AreLabels edges.now bits.now source bound labels.now }
{
    labels.label(source, false) == 0
        && labels.label(source, true) >= bound
        && are_near_along(labels, edges, bits)
}

/// Whether the labels of the two nodes of each edge differ by at most 1.
fn are_near_along(labels: &Labels, edges: &[Edge], bits: &[bool]) -> bool
    ensures yes { result ≡ true → (r : ℕ) → r < length edges.now → AreNearAlong labels.now (edge edges.now r) (slice_index_or bits.now r false) }
{
    'edges: for r in 0..edges.len() {
        if !is_near_along(labels, edges[r], bit_at(bits, r)) {
            return false;
        }
    }
    true
}

/// Whether those of this edge do.
fn is_near_along(labels: &Labels, edge: Edge, flips: bool) -> bool
    ensures yes { result ≡ true → AreNearAlong labels.now edge flips }
{
    let even = labels.label(edge.first, false);
    let odd = labels.label(edge.first, true);
    are_near(even, labels.label(edge.second, flips))
        && are_near(odd, labels.label(edge.second, !flips))
}

/// Whether numbers differ by at most 1.
fn are_near(x: usize, y: usize) -> bool
    ensures yes { result ≡ true → AreNear x y }
{
    x.abs_diff(y) <= 1
}
