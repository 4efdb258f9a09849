use crate::edges::{Edge, edges_of};
use crate::index::{list, rows_at};
use crate::row::Row;
use std::alloc::{AllocError, Global};
use std::marker::Model;

/// Rows that flip at most two detectors each, as the edges of a graph.
pub struct Graph {
    detectors: usize,
    rows: Vec<Row>,
    edges: Vec<Edge>,
    index: Vec<Vec<usize>>,
}

// Written out, so that a proof sees the drop of a value as one call, and not one for each of its parts.
impl Drop for Graph {
    fn drop(self) {
        let Graph {
            detectors: _,
            rows: _,
            edges: _,
            index: _,
        } = self;
    }
}

/// A node, and the parity of the edges on the way to it that flip an observable.
#[derive(Clone, Copy)]
pub struct Labelled {
    pub node: usize,
    pub parity: bool,
}

impl Model for Graph {
    ghost use Rattle.stab_search.specs.inner.Graphs.{GraphState, AreEdges};

    ghost Value = { GraphState };

    ghost view = { λ g. record { table = record { detectors = g.detectors; rows = g.rows.items }; edges = g.edges.items } };

    ghost invariant = { λ g. AreEdges (record { detectors = g.detectors; rows = g.rows.items }) g.edges.items };
}

impl Graph {
    ghost use Rattle.std.specs.Prelude.{◌≡◌, IfOk, IfSome};
    ghost use Rattle.stab_search.specs.inner.Graphs.{AreEdges};

    /// The graph of these rows, if each flips at most two detectors.
    pub fn new(alloc: Global, detectors: usize, rows: Vec<Row>) -> Result<Option<Graph>, AllocError>
        ensures table { IfOk result (λ a. IfSome a (λ g. g.table ≡ record { detectors = detectors; rows = rows.items })) }
    {
        match edges_of(alloc, detectors, rows.as_slice())? {
            None => Ok(None),
            Some(edges) => {
                let index = edges_by_node(alloc, edges.as_slice())?;
                Ok(Some(Graph {
                    detectors,
                    rows,
                    edges,
                    index,
                }))
            }
        }
    }

    /// The number of detectors, which is the number of the boundary.
    pub fn detectors(&self) -> usize
        ensures value { result ≡ self.now.table.detectors }
    {
        self.detectors
    }

    /// The rows.
    pub fn rows(&self) -> &[Row]
        ensures value { result.now ≡ self.now.table.rows }
    {
        self.rows.as_slice()
    }

    /// The edge of each row.
    pub fn edges(&self) -> &[Edge]
        ensures value { result.now ≡ self.now.edges }
        ensures edges { AreEdges self.now.table self.now.edges }
    {
        self.edges.as_slice()
    }

    /// The edges of a node.
    pub(crate) fn edges_at(&self, node: usize) -> &[usize] {
        rows_at(self.index.as_slice(), node)
    }

    /// Where edge r goes from a node at a parity; bit r is whether it flips the observable.
    pub(crate) fn across(&self, r: usize, position: Labelled, bits: &[bool]) -> Labelled {
        if r >= self.edges.len() || r >= bits.len() {
            return position;
        }
        let edge = self.edges[r];
        let node = if edge.first == position.node {
            edge.second
        } else {
            edge.first
        };
        Labelled {
            node,
            parity: position.parity ^ bits[r],
        }
    }
}

/// For each node the edges that have it.
fn edges_by_node(alloc: Global, edges: &[Edge]) -> Result<Vec<Vec<usize>>, AllocError> {
    let mut index = Vec::new(alloc);
    for r in 0..edges.len() {
        let edge = edges[r];
        list(alloc, &mut index, edge.first, r)?;
        if edge.second != edge.first {
            list(alloc, &mut index, edge.second, r)?;
        }
    }
    Ok(index)
}
