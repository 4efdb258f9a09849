ghost use Rattle.std.specs.Prelude.{◌≡◌, length, IfOk, IfErr, IfSome};
ghost use Rattle.stab_io.specs.declared.refusal.Refusal.TheVariants.{OutOfMemory};
ghost use Rattle.stab_search.specs.LogicalErrors.{IsLeastAnswer, HasNoneWithin};
ghost use Rattle.stab_search.specs.Tables.{ErrorTable};
ghost use Rattle.stab_search.specs.inner.ReportedProgress.{HearsOn};
ghost use Rattle.stab_search.specs.Graphlike.{IsGraphlikeAnswer, HasNoGraphlikeWithin};
ghost use Rattle.stab_search.specs.Progress.{ReportsSearch, IsExcludedBy};

use crate::answer::{Answer, Progress};
use crate::bounds::has_bound;
use crate::certificate::are_certified;
use crate::cycles::shortest_or_any;
use crate::distinct::distinct_rows;
use crate::graph::Graph;
use crate::least::least_of;
use crate::logical::logical_set;
use crate::parts::graphlike_part;
use crate::table::Table;
use stab_io::Refusal;
use std::alloc::{AllocError, Global};

/// The least logical error of a table made only of errors that flip at most two detectors, if it has at most
/// `most` errors.
///
/// `progress` hears of the number of errors, and, once the answer is found, of each number of them that was excluded. The time grows
/// with the rows, and with the number of detectors besides an observable; the memory grows with the rows, and with the greatest number
/// in them.
///
/// The only refusal is `OutOfMemory`.
pub fn least_graphlike_error<P: Progress>(
    alloc: Global,
    table: &Table,
    most: usize,
    progress: &mut P,
) -> Result<Answer, Refusal>
    ensures answer { IfOk result (IsGraphlikeAnswer table.now most) }
    ensures refusal { IfErr result (λ e. e ≡ OutOfMemory) }
    ensures reported { ReportsSearch (length table.now.rows) most (HasNoGraphlikeWithin table.now) (P.heard progress.old) (P.heard progress.new) result }
{
    progress.begins(table.len());
    let part = graphlike_part(alloc, table)?;
    match by_cycles(alloc, &part, most)? {
        Some(answer) => {
            report(progress, excluded_by(&answer, most));
            Ok(answer)
        }
        None => least_of(alloc, &part, most, progress),
    }
}

/// The last number of errors that an answer excludes.
fn excluded_by(answer: &Answer, most: usize) -> usize
    ensures none { (t : ErrorTable) → IsLeastAnswer t most answer.now → HasNoneWithin t result }
    ensures all { (t : ErrorTable) → IsLeastAnswer t most answer.now → IsExcludedBy most answer.now result }
{
    match answer {
        Answer::Least(errors) => errors.len().saturating_sub(1),
        Answer::NoneWithin => most,
        Answer::NoneAtAll => 0,
    }
}

/// Reports each number of errors up to this one.
fn report<P: Progress>(progress: &mut P, last: usize)
    ensures reported { HearsOn 0 last (P.heard progress.old) (P.heard progress.new) }
{
    'sizes: for k in 0..last {
        progress.none_within(k + 1);
    }
}

/// The answer for a table whose rows are graph-like, if cycles of its graph show it.
fn by_cycles(alloc: Global, part: &Table, most: usize) -> Result<Option<Answer>, AllocError>
    ensures answer { IfOk result (λ a. IfSome a (IsLeastAnswer part.now most)) }
{
    let distinct = distinct_rows(alloc, part)?;
    let graph = match Graph::new(alloc, part.detectors(), distinct.rows)? {
        None => return Ok(None),
        Some(graph) => graph,
    };
    let certified = are_certified(alloc, graph.detectors(), graph.rows(), &graph)?;
    if certified {
        return Ok(Some(Answer::NoneAtAll));
    }
    let found = shortest_or_any(alloc, &graph, most)?;
    let set = match logical_set(alloc, part, found.as_slice(), distinct.numbers.as_slice())? {
        None => return Ok(None),
        Some(set) => set,
    };
    let bound = set.len().min(most.saturating_add(1));
    let shown = has_bound(alloc, &graph, bound)?;
    if !shown {
        return Ok(None);
    }
    if set.len() > most {
        return Ok(Some(Answer::NoneWithin));
    }
    Ok(Some(Answer::Least(set)))
}
