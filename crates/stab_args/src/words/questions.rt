//! What the words ask about errors.
ghost use Rattle.std.specs.Prelude.{◌≡◌, Some, None, IfOk, IfErr, codes, false};
ghost use Rattle.clap.specs.Words.{first_of, found_of, one_of, rows_of};
ghost use Rattle.stab_args.specs.Asked.{IsAskedDistance, IsCommand, IsQuestion, IsSet, RefusesDistance, is_about_search, is_beside_count, is_beside_each, is_beside_part, is_beside_problem};
ghost use Rattle.stab_args.specs.declared.words.Usage.{Usage};

use crate::part_word::part_of;
use crate::words::Usage;
use crate::words::app::{LAST_OBSERVABLE, MOST_ERRORS};
use crate::words::options::{flag, letters, number_up_to, text};
use clap::ArgMatches;
use stab_jobs::{Command, DistanceOptions, Question, SearchedLayout};
use std::alloc::Global;

// What is said of each observable beside what is not asked of each.
const EACH_BESIDE: &str =
    "stabsim: --each is for all observables, and is not beside --observable, --table or --progress\n";

// What is said of the errors as a problem beside what is not asked with it.
const PROBLEM_BESIDE: &str =
    "stabsim: --wcnf searches nothing, and is not beside --table, --each, --graphlike, --observable, --most or --progress\n";

// What is said of the number of least sets beside what is not asked with it.
const COUNT_BESIDE: &str =
    "stabsim: --count is of one answer about all errors, and is not beside --wcnf, --table, --each or --graphlike\n";

// What is said of a word that is of no part.
const NO_PART: &str = "stabsim: --part is K/N, of which K is from 1 to N, and N at most 1000000\n";

// What is said of a part of a search beside what is not asked with it.
const PART_BESIDE: &str =
    "stabsim: --part is of one search among all errors, and is not beside --wcnf, --table, --each, --count, --graphlike, --observable or --progress\n";

// What is said of a table of errors beside what is about a search.
const TABLE_BESIDE_SEARCH: &str =
    "stabsim: --table searches nothing, and is not beside --observable, --most or --progress\n";

/// What a distance is asked for.
fn distance_options(options: &ArgMatches) -> DistanceOptions
    ensures asked { IsAskedDistance (rows_of (found_of options.now)) result }
{
    DistanceOptions {
        everywhere: flag(options, "everywhere"),
        letters: letters(options),
        graphlike: flag(options, "graphlike"),
        observable: number_up_to(options, "observable", LAST_OBSERVABLE),
        most: number_up_to(options, "most", MOST_ERRORS),
        deterministic_only: flag(options, "deterministic_only"),
        progress: flag(options, "progress"),
    }
}

/// Whether something is asked about a search: for one observable, up to a number of errors, or with its progress.
fn is_about_search(asked: DistanceOptions) -> bool
    ensures value { result ≡ is_about_search asked }
{
    asked.observable.is_some() || asked.most.is_some() || asked.progress
}

/// Whether something is asked that is not asked of each observable: the table of errors, one observable, or the
/// progress of one search.
fn is_beside_each(table: bool, asked: DistanceOptions) -> bool
    ensures value { result ≡ is_beside_each table asked }
{
    table || asked.observable.is_some() || asked.progress
}

/// Whether something is asked beside the errors as a problem: their table, each observable, only some errors, or what
/// is about a search.
fn is_beside_problem(table: bool, each: bool, asked: DistanceOptions) -> bool
    ensures value { result ≡ is_beside_problem table each asked }
{
    table || each || asked.graphlike || is_about_search(asked)
}

/// Whether something is asked beside the number of least sets: the errors themselves, each observable, or only some errors.
fn is_beside_count(wcnf: bool, table: bool, each: bool, asked: DistanceOptions) -> bool
    ensures value { result ≡ is_beside_count wcnf table each asked }
{
    wcnf || table || each || asked.graphlike
}

/// Whether something is asked beside a part of a search: the errors themselves, each observable, the number of least sets, only some
/// errors, one observable, or progress.
fn is_beside_part(wcnf: bool, table: bool, each: bool, count: bool, asked: DistanceOptions) -> bool
    ensures value { result ≡ is_beside_part wcnf table each count asked }
{
    wcnf || table
        || each
        || count
        || asked.graphlike
        || asked.observable.is_some()
        || asked.progress
}

/// The question of `distance`, if it is not of a part, how many least sets there are, or the errors as a problem.
fn search_or_table(
    alloc: Global,
    options: &ArgMatches,
    asked: DistanceOptions,
) -> Result<Question, Usage>
    requires asked { IsAskedDistance (rows_of (found_of options.now)) asked }
    requires whole { first_of (codes "part") (rows_of (found_of options.now)) ≡ None }
    requires no_problem { IsSet (one_of (codes "wcnf") (rows_of (found_of options.now))) false }
    requires no_count { IsSet (one_of (codes "count") (rows_of (found_of options.now))) false }
    ensures question { IfOk result (IsQuestion (rows_of (found_of options.now)) asked) }
    ensures refused { IfErr result (RefusesDistance (rows_of (found_of options.now))) }
{
    let table = flag(options, "table");
    if flag(options, "each") {
        if is_beside_each(table, asked) {
            let reported = String::from_str(alloc, EACH_BESIDE)?;
            return Err(Usage::Fault(reported));
        }
        return Ok(Question::Each);
    }
    if !table {
        return Ok(Question::Least);
    }
    if is_about_search(asked) {
        let reported = String::from_str(alloc, TABLE_BESIDE_SEARCH)?;
        return Err(Usage::Fault(reported));
    }
    Ok(Question::Errors(SearchedLayout::Table))
}

/// The question of `distance`, if it is not of a part, or how many least sets there are.
fn uncounted(alloc: Global, options: &ArgMatches, asked: DistanceOptions) -> Result<Question, Usage>
    requires asked { IsAskedDistance (rows_of (found_of options.now)) asked }
    requires whole { first_of (codes "part") (rows_of (found_of options.now)) ≡ None }
    requires no_count { IsSet (one_of (codes "count") (rows_of (found_of options.now))) false }
    ensures question { IfOk result (IsQuestion (rows_of (found_of options.now)) asked) }
    ensures refused { IfErr result (RefusesDistance (rows_of (found_of options.now))) }
{
    if !flag(options, "wcnf") {
        return search_or_table(alloc, options, asked);
    }
    if is_beside_problem(flag(options, "table"), flag(options, "each"), asked) {
        let reported = String::from_str(alloc, PROBLEM_BESIDE)?;
        return Err(Usage::Fault(reported));
    }
    Ok(Question::Errors(SearchedLayout::Wcnf))
}

/// The question of `distance`, if it is not of a part.
fn whole_question(
    alloc: Global,
    options: &ArgMatches,
    asked: DistanceOptions,
) -> Result<Question, Usage>
    requires asked { IsAskedDistance (rows_of (found_of options.now)) asked }
    requires whole { first_of (codes "part") (rows_of (found_of options.now)) ≡ None }
    ensures question { IfOk result (IsQuestion (rows_of (found_of options.now)) asked) }
    ensures refused { IfErr result (RefusesDistance (rows_of (found_of options.now))) }
{
    if !flag(options, "count") {
        return uncounted(alloc, options, asked);
    }
    let wcnf = flag(options, "wcnf");
    let table = flag(options, "table");
    if is_beside_count(wcnf, table, flag(options, "each"), asked) {
        let reported = String::from_str(alloc, COUNT_BESIDE)?;
        return Err(Usage::Fault(reported));
    }
    Ok(Question::Counted)
}

/// The question about the part of a search that a word names.
fn part_question(
    alloc: Global,
    options: &ArgMatches,
    asked: DistanceOptions,
    word: &str,
) -> Result<Question, Usage>
    requires asked { IsAskedDistance (rows_of (found_of options.now)) asked }
    requires word { first_of (codes "part") (rows_of (found_of options.now)) ≡ Some word.now }
    ensures question { IfOk result (IsQuestion (rows_of (found_of options.now)) asked) }
    ensures refused { IfErr result (RefusesDistance (rows_of (found_of options.now))) }
{
    let wcnf = flag(options, "wcnf");
    let table = flag(options, "table");
    let each = flag(options, "each");
    if is_beside_part(wcnf, table, each, flag(options, "count"), asked) {
        let reported = String::from_str(alloc, PART_BESIDE)?;
        return Err(Usage::Fault(reported));
    }
    match part_of(word) {
        Some(part) => Ok(Question::Part(part)),
        None => Err(Usage::Fault(String::from_str(alloc, NO_PART)?)),
    }
}

/// What `distance` is asked for.
pub(crate) fn distance(alloc: Global, options: &ArgMatches) -> Result<Command, Usage>
    ensures command { IfOk result (IsCommand (codes "distance") (rows_of (found_of options.now))) }
    ensures refused { IfErr result (RefusesDistance (rows_of (found_of options.now))) }
{
    let asked = distance_options(options);
    let question = match text(options, "part") {
        Some(word) => part_question(alloc, options, asked, word)?,
        None => whole_question(alloc, options, asked)?,
    };
    Ok(Command::Distance {
        question,
        options: asked,
    })
}
