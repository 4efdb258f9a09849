//! The problem of a table of errors.
ghost use Rattle.std.specs.Prelude.{◌≡◌, ◌<◌, ◌≤◌, ◌+◌, ◌^◌, length, IfOk, IfErr, min, take, drop};
ghost use Rattle.stab_io.specs.declared.refusal.Refusal.TheVariants.{OutOfMemory};
ghost use Rattle.stab_search.specs.Made.{IsCountable, clauses_of};
ghost use Rattle.stab_search.specs.inner.Sums.{one_of, variables_of};
ghost use Rattle.stab_search.specs.Questions.{Asks};

use crate::literal::Literal;
use crate::sums::{MOST, Parities, Sum, parities_of};
use crate::table::Table;
use stab_io::Refusal;
use std::alloc::{AllocError, Global};

/// A problem for MaxSAT solvers, whose solution is a least set of errors that flip an observable and no detector.
///
/// Its first variables are the errors, in order; the next one says that an observable is flipped, and the others are sums.
pub struct Problem {
    pub(crate) errors: usize,
    pub(crate) sums: Vec<Sum>,
    pub(crate) undetected: Vec<usize>,
    pub(crate) observed: Vec<Literal>,
}

// Written out, so that a proof sees the drop of a value as one call, and not one for each of its parts.
impl Drop for Problem {
    fn drop(self) {
        let Problem {
            errors: _,
            sums: _,
            undetected: _,
            observed: _,
        } = self;
    }
}

/// A copy of some numbers.
fn copied(alloc: Global, numbers: &[usize]) -> Result<Vec<usize>, AllocError>
    ensures value { IfOk result (λ v. v.items ≡ numbers.now) }
{
    let mut copy = Vec::with_capacity(alloc, numbers.len())?;
    copy.extend_from_slice(numbers)?;
    Ok(copy)
}

/// Those of some parities that are variables.
fn variables_of(alloc: Global, parities: &[usize]) -> Result<Vec<usize>, AllocError>
    ensures value { IfOk result (λ v. v.items ≡ variables_of parities.now) }
{
    let mut variables = copied(alloc, parities)?;
    variables.retain(|variable| 0 < *variable);
    Ok(variables)
}

/// The clause that this variable is true only if one of those is that stand for some parities.
fn one_of(alloc: Global, variable: usize, parities: &[usize]) -> Result<Vec<Literal>, AllocError>
    ensures value { IfOk result (λ c. c.items ≡ one_of variable (variables_of parities.now)) }
{
    let others = variables_of(alloc, parities)?;
    let mut clause = vec![in alloc; Literal::IsNot(variable); 1]?;
    'each: for other in others.as_slice() {
        clause.push(Literal::Is(*other))?;
    }
    Ok(clause)
}

impl Problem {
    /// The problem of a table. Refused with `OutOfMemory` alone, also if it would have 2^60 errors or more.
    pub fn of(alloc: Global, table: &Table) -> Result<Problem, Refusal>
        ensures asks { IfOk result (λ p. Asks table.now (clauses_of p)) }
        ensures countable { IfOk result IsCountable }
        ensures refusal { IfErr result (λ e. e ≡ OutOfMemory) }
    {
        if table.len() >= MOST {
            return Err(Refusal::OutOfMemory);
        }
        let Parities {
            first: _,
            sums,
            parities,
        } = parities_of(alloc, table)?;
        let parities = parities.as_slice();
        let (detectors, observables) = parities.split_at(table.detectors().min(parities.len()));
        let undetected = variables_of(alloc, detectors)?;
        let observed = one_of(alloc, table.len() + 1, observables)?;
        if undetected.len() >= MOST {
            return Err(Refusal::OutOfMemory);
        }
        Ok(Problem {
            errors: table.len(),
            sums,
            undetected,
            observed,
        })
    }
}
