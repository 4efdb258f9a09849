//! The command that answers a question about the errors of a circuit.
ghost use Rattle.stab_report.specs.SingleErrorTables.{fault_of, random_of};
ghost use Rattle.stab_report.specs.Questions.{EndsQuestion, ReportsQuestion, WarnsOfQuestion};

use crate::counted_distance::run_counted_distance;
use crate::distance::run_distance;
use crate::each_distance::run_each_distance;
use crate::part_distance::run_part_distance;
use crate::searched::run_searched_errors;
use stab_io::{Input, Output};
use stab_jobs::{DistanceOptions, Question};
use stab_report::FaultsRefused;
use stab_search::Progress;
use std::alloc::Global;

/// Reads a circuit, and writes the answer to a question about its errors, as the call for that question does.
pub fn run_question<I: Input, O: Output, E: Output, P: Progress>(
    alloc: Global,
    input: &mut I,
    out: &mut O,
    err: &mut E,
    question: Question,
    options: DistanceOptions,
    progress: &mut P,
) -> Result<(), FaultsRefused>
    ensures ends { EndsQuestion question options (I.seen input.old) (I.seen input.new) (O.seen out.old) (O.seen out.new) (fault_of result) (random_of result) }
    ensures reported { ReportsQuestion question options (I.seen input.old) (I.seen input.new) (P.heard progress.old) (P.heard progress.new) (fault_of result) }
    ensures warns { WarnsOfQuestion question options (I.seen input.old) (I.seen input.new) (E.seen err.old) (E.seen err.new) (fault_of result) }
{
    match question {
        Question::Least => run_distance(alloc, input, out, err, options, progress),
        Question::Counted => run_counted_distance(alloc, input, out, err, options, progress),
        Question::Each => run_each_distance(alloc, input, out, err, options, progress),
        Question::Part(part) => run_part_distance(alloc, input, out, err, part, options, progress),
        Question::Errors(layout) => {
            run_searched_errors(alloc, input, out, err, layout, options, progress)
        }
    }
}
