//! The text of a problem.
ghost use Rattle.std.specs.Prelude.{◌≡◌, ◌++◌, ◌+◌, ◌<◌, ◌^◌, codes, decimal, map, length};
ghost use Rattle.std.specs.List.{flat_map, range_with_len};
ghost use Rattle.stab_io.specs.Devices.{WritesAll};
ghost use Rattle.stab_search.specs.Problems.{clause_text, problem_head, literal_text, problem_text};
ghost use Rattle.stab_search.specs.Questions.{without};
ghost use Rattle.stab_search.specs.Made.{IsCountable, clauses_of, is_false, sum_clauses};

use crate::literal::Literal;
use crate::literal::Literal::{Is, IsNot};
use crate::problem::Problem;
use crate::sums::Sum;
use itoa::Buffer;
use stab_io::{Output, Refusal, write_all};

/// Writes a number.
fn write_number<O: Output>(out: &mut O, number: usize) -> Result<(), Refusal>
    ensures writes { WritesAll (O.seen out.old) (O.seen out.new) (decimal number) result }
{
    let mut digits = Buffer::new();
    write_all(out, digits.format(number).as_bytes())
}

/// Writes a text, and a number after it.
fn write_with<O: Output>(out: &mut O, text: &[u8], number: usize) -> Result<(), Refusal>
    ensures writes { WritesAll (O.seen out.old) (O.seen out.new) (text.now ++ decimal number) result }
{
    write_all(out, text)?;
    write_number(out, number)
}

/// Writes a literal, after a space.
fn write_literal<O: Output>(out: &mut O, literal: Literal) -> Result<(), Refusal>
    ensures writes { WritesAll (O.seen out.old) (O.seen out.new) (literal_text literal) result }
{
    match literal {
        Is(variable) => write_with(out, b" ", variable),
        IsNot(variable) => write_with(out, b" -", variable),
    }
}

/// Writes literals.
fn write_literals<O: Output>(out: &mut O, literals: &[Literal]) -> Result<(), Refusal>
    ensures writes { WritesAll (O.seen out.old) (O.seen out.new) (flat_map literal_text literals.now) result }
{
    'each: for literal in literals {
        write_literal(out, *literal)?;
    }
    Ok(())
}

/// Writes the line of a clause.
fn write_clause<O: Output>(out: &mut O, weight: usize, clause: &[Literal]) -> Result<(), Refusal>
    ensures writes { WritesAll (O.seen out.old) (O.seen out.new) (clause_text weight clause.now) result }
{
    write_number(out, weight)?;
    write_literals(out, clause)?;
    write_all(out, b" 0\n")
}

/// Writes the lines of clauses.
fn write_clauses<O: Output>(
    out: &mut O,
    weight: usize,
    clauses: &[&[Literal]],
) -> Result<(), Refusal>
    ensures writes { WritesAll (O.seen out.old) (O.seen out.new) (flat_map (clause_text weight) (map (λ c. c.now) clauses.now)) result }
{
    'each: for clause in clauses {
        write_clause(out, weight, clause)?;
    }
    Ok(())
}

/// Writes the clauses of a sum.
fn write_sum<O: Output>(out: &mut O, weight: usize, sum: Sum) -> Result<(), Refusal>
    ensures writes { WritesAll (O.seen out.old) (O.seen out.new) (flat_map (clause_text weight) (sum_clauses sum)) result }
{
    let Sum { left, right, both } = sum;
    write_clauses(
        out,
        weight,
        &[
            &[IsNot(left), IsNot(right), IsNot(both)],
            &[Is(left), Is(right), IsNot(both)],
            &[Is(left), IsNot(right), Is(both)],
            &[IsNot(left), Is(right), Is(both)],
        ],
    )
}

/// Writes the clauses of sums.
fn write_sums<O: Output>(out: &mut O, weight: usize, sums: &[Sum]) -> Result<(), Refusal>
    ensures writes { WritesAll (O.seen out.old) (O.seen out.new) (flat_map (clause_text weight) (flat_map sum_clauses sums.now)) result }
{
    'each: for sum in sums {
        write_sum(out, weight, *sum)?;
    }
    Ok(())
}

/// Writes that these variables are false.
fn write_false<O: Output>(out: &mut O, weight: usize, variables: &[usize]) -> Result<(), Refusal>
    ensures writes { WritesAll (O.seen out.old) (O.seen out.new) (flat_map (clause_text weight) (map is_false variables.now)) result }
{
    'each: for variable in variables {
        write_clause(out, weight, &[IsNot(*variable)])?;
    }
    Ok(())
}

/// Writes a clause for each error, which it breaks.
fn write_errors<O: Output>(out: &mut O, errors: usize) -> Result<(), Refusal>
    requires countable { errors < 2 ^ 60 }
    ensures writes { WritesAll (O.seen out.old) (O.seen out.new) (flat_map (clause_text 1) (map without (range_with_len 0 errors))) result }
{
    'errors: for number in 0..errors {
        write_clause(out, 1, &[IsNot(number + 1)])?;
    }
    Ok(())
}

/// Writes the first line.
fn write_head<O: Output>(
    out: &mut O,
    variables: usize,
    clauses: usize,
    top: usize,
) -> Result<(), Refusal>
    ensures writes { WritesAll (O.seen out.old) (O.seen out.new) (problem_head variables clauses top) result }
{
    write_with(out, b"p wcnf ", variables)?;
    write_with(out, b" ", clauses)?;
    write_with(out, b" ", top)?;
    write_all(out, b"\n")
}

/// Writes the clauses that have to be met.
fn write_hard<O: Output>(out: &mut O, top: usize, problem: &Problem) -> Result<(), Refusal>
    requires countable { IsCountable problem.now }
    ensures writes { WritesAll (O.seen out.old) (O.seen out.new) (flat_map (clause_text top) (clauses_of problem.now).hard) result }
{
    write_sums(out, top, problem.sums.as_slice())?;
    write_false(out, top, problem.undetected.as_slice())?;
    let flipped = [Is(problem.errors + 1)];
    write_clauses(out, top, &[&flipped, problem.observed.as_slice()])
}

/// Writes a problem in the format `p wcnf`.
///
/// The only refusal is `WriteFault`, after a prefix of the text.
pub fn write_problem<O: Output>(out: &mut O, problem: &Problem) -> Result<(), Refusal>
    requires countable { IsCountable problem.now }
    ensures writes { WritesAll (O.seen out.old) (O.seen out.new) (problem_text (clauses_of problem.now)) result }
{
    let errors = problem.errors;
    let variables = errors + 1 + problem.sums.len();
    let hard = problem.sums.len() * 4 + problem.undetected.len() + 2;
    write_head(out, variables, errors + hard, errors + 1)?;
    write_errors(out, errors)?;
    write_hard(out, errors + 1, problem)
}
