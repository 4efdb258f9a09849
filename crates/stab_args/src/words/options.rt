//! What the words say to each option.
ghost use Rattle.std.specs.Prelude.{◌≡◌, ◌≤◌, ℕ, Option, Some, None, IfOk, IfErr, IfSome, IfNone, option_map, codes, string_bytes};
ghost use Rattle.clap.specs.Words.{IsUnsignedIn, first_of, found_of, has_subcommand, one_of, rows_of, subcommand_rows_of};
ghost use Rattle.stab_gates.specs.Limits.{most_qubits};
ghost use Rattle.stab_jobs.specs.Limits.{last_shot, most_shots, shots_of_seed, stride_at_most};
ghost use Rattle.stab_args.specs.Asked.{AreLetters, AreAskedShots, IsCommand, IsFirstShot, IsJob, IsLayout, IsNamed, IsSet, IsSource, IsWritten, IsWrittenIfGiven, RefusesCoins, RefusesCommand, RefusesOptions, RefusesShots, first_beside_coins, text_or_none};
ghost use Rattle.stab_args.specs.Options.{last_observable, most_errors, most_seed};
ghost use Rattle.stab_args.specs.declared.words.Usage.{Usage};
ghost use Rattle.stab_args.specs.inner.Parts.{IsCommandName};

use crate::coins::{NO_COINS, coins_of};
use crate::words::Usage;
use crate::words::questions::distance;
use clap::ArgMatches;
use stab_jobs::{Command, ErrorLetters, FaultLayout, Job, QubitCount, Shots, Source, Stride};
use stab_results::Format;
use std::alloc::{AllocError, Global};

// What is said of coins that are given twice.
const COINS_TWICE: &str = "stabsim: coins are given by --coins or by --coins_in, and not by both\n";

// What is said of shots that go beyond the last of a seed.
const SHOTS_BEYOND: &str = "stabsim: the last shot of a seed is shot 18446744073709551615\n";

// What is said of a first shot beside coins.
const FIRST_BESIDE_COINS: &str =
    "stabsim: --first_shot is of a seed, and not beside --coins or --coins_in\n";

/// What the words say to an option, or its default.
pub(crate) fn text<'a>(options: &ArgMatches<'a>, id: &str) -> Option<&'a str>
    ensures text { option_map (λ t. t.now) result ≡ first_of id.now (rows_of (found_of options.now)) }
{
    options.get_str(id)
}

/// The number that the words give to an option, or its default.
fn number(options: &ArgMatches, id: &str) -> Option<u64>
    ensures number { IfSome result (λ n. IsWritten 0 most_seed (one_of id.now (rows_of (found_of options.now))) n) }
    ensures absent { one_of id.now (rows_of (found_of options.now)) ≡ None → result ≡ None }
    ensures none { IfNone result (IfSome (one_of id.now (rows_of (found_of options.now))) (λ t. IsUnsignedIn 0 most_seed t → ⊥)) }
{
    options.get_one(id)
}

/// Whether the words set a flag.
pub(crate) fn flag(options: &ArgMatches, id: &str) -> bool
    ensures set { IsSet (one_of id.now (rows_of (found_of options.now))) result }
{
    options.get_flag(id)
}

/// The format that `--out_format` names. The command line reader takes no other name.
fn format(options: &ArgMatches) -> Format
    ensures named { IsNamed (first_of (codes "out_format") (rows_of (found_of options.now))) result }
{
    match text(options, "out_format") {
        Some("b8") => Format::B8,
        Some("r8") => Format::R8,
        Some("hits") => Format::Hits,
        Some("dets") => Format::Dets,
        _ => Format::F01,
    }
}

/// The layout of single errors or coins: shots in the format that `--out_format` names, and lines if it names none.
fn layout(options: &ArgMatches) -> FaultLayout
    ensures layout { IsLayout (first_of (codes "out_format") (rows_of (found_of options.now))) result }
{
    match text(options, "out_format") {
        Some(_) => FaultLayout::Shots(format(options)),
        None => FaultLayout::Lines,
    }
}

/// The number of `--shots`. The command line reader takes no other number.
fn number_of_shots(options: &ArgMatches) -> usize
    ensures written { IsWritten 0 most_shots (one_of (codes "shots") (rows_of (found_of options.now))) result }
    ensures in_range { result ≤ most_shots }
{
    match number(options, "shots") {
        Some(number) if number <= Shots::MOST as u64 => number as usize,
        _ => 1,
    }
}

/// The number of `--first_shot`, and 0 if it isn't given. The command line reader takes no other
/// number.
fn first_shot(options: &ArgMatches) -> u64
    ensures first { IsFirstShot (one_of (codes "first_shot") (rows_of (found_of options.now))) result }
{
    number(options, "first_shot").unwrap_or(0)
}

/// The shots of `--first_shot` and `--shots`.
fn shots(alloc: Global, options: &ArgMatches) -> Result<Shots, Usage>
    ensures shots { IfOk result (AreAskedShots (rows_of (found_of options.now))) }
    ensures refused { IfErr result (RefusesShots (rows_of (found_of options.now))) }
{
    match Shots::from_first(first_shot(options), number_of_shots(options)) {
        Some(shots) => Ok(shots),
        None => Err(Usage::Fault(String::from_str(alloc, SHOTS_BEYOND)?)),
    }
}

/// Whether a first shot is given beside coins.
fn first_beside_coins(options: &ArgMatches) -> bool
    ensures value { result ≡ first_beside_coins (rows_of (found_of options.now)) }
{
    text(options, "first_shot").is_some()
        && (text(options, "coins").is_some() || text(options, "coins_in").is_some())
}

/// The number of `--qubits`, if it is given. The command line reader takes no other number.
fn qubits(options: &ArgMatches) -> Option<QubitCount>
    ensures written { IsWrittenIfGiven 0 most_qubits (one_of (codes "qubits") (rows_of (found_of options.now))) result }
{
    match number(options, "qubits") {
        Some(number) if number <= QubitCount::MOST as u64 => Some(QubitCount::new(number as usize)),
        _ => None,
    }
}

/// The number of `--stride`. The command line reader takes no other number.
fn stride(options: &ArgMatches) -> Stride
    ensures written { IsWritten 1 stride_at_most (one_of (codes "stride") (rows_of (found_of options.now))) result }
{
    match number(options, "stride") {
        Some(number) if number >= 1 && number <= Stride::MOST as u64 => {
            Stride::new(number as usize)
        }
        _ => Stride::new(Stride::MOST),
    }
}

/// The letters that `--letters` names. The command line reader takes no other name.
pub(crate) fn letters(options: &ArgMatches) -> ErrorLetters
    ensures letters { AreLetters (first_of (codes "letters") (rows_of (found_of options.now))) result }
{
    match text(options, "letters") {
        Some("XZ") => ErrorLetters::XAndZ,
        _ => ErrorLetters::All,
    }
}

/// The number of an option that may be left out, at most this one. The command line reader takes no other number.
pub(crate) fn number_up_to(options: &ArgMatches, id: &str, most: u64) -> Option<usize>
    ensures written { IsWrittenIfGiven 0 most (one_of id.now (rows_of (found_of options.now))) result }
{
    match number(options, id) {
        Some(number) if number <= most => Some(number as usize),
        _ => None,
    }
}

/// The source of coins: what `--coins` writes, no coins yet if `--coins_in` names a file of them, and
/// `--seed` if neither is there.
fn source(alloc: Global, options: &ArgMatches) -> Result<Source, Usage>
    ensures source { IfOk result (IsSource (first_of (codes "coins") (rows_of (found_of options.now))) (first_of (codes "coins_in") (rows_of (found_of options.now))) (one_of (codes "seed") (rows_of (found_of options.now)))) }
    ensures refused { IfErr result (RefusesCoins (first_of (codes "coins") (rows_of (found_of options.now))) (first_of (codes "coins_in") (rows_of (found_of options.now)))) }
{
    match (text(options, "coins"), text(options, "coins_in")) {
        (Some(_), Some(_)) => Err(Usage::Fault(String::from_str(alloc, COINS_TWICE)?)),
        (Some(text), None) => match coins_of(alloc, text.as_bytes())? {
            Some(list) => Ok(Source::List(list)),
            None => Err(Usage::Fault(String::from_str(alloc, NO_COINS)?)),
        },
        (None, Some(_)) => Ok(Source::List(Vec::new(alloc))),
        (None, None) => Ok(Source::Seed(number(options, "seed").unwrap_or(0))),
    }
}

/// The path that an option gives.
fn path(alloc: Global, options: &ArgMatches, id: &str) -> Result<Option<String>, AllocError>
    ensures path { IfOk result (λ p. option_map string_bytes p ≡ first_of id.now (rows_of (found_of options.now))) }
{
    match text(options, id) {
        Some(text) => Ok(Some(String::from_str(alloc, text)?)),
        None => Ok(None),
    }
}

/// The text of an option, which is empty if the option isn't given.
fn word(alloc: Global, options: &ArgMatches, id: &str) -> Result<String, AllocError>
    ensures word { IfOk result (λ s. string_bytes s ≡ text_or_none (first_of id.now (rows_of (found_of options.now)))) }
{
    match text(options, id) {
        Some(text) => String::from_str(alloc, text),
        None => Ok(String::new(alloc)),
    }
}

/// What `deterministic` is asked for.
fn deterministic(options: &ArgMatches) -> Command
    ensures command { IsCommand (codes "deterministic") (rows_of (found_of options.now)) result }
{
    if flag(options, "explain") {
        Command::Explain
    } else {
        Command::Deterministic {
            format: format(options),
        }
    }
}

/// The command of a name, with its own options.
fn command(alloc: Global, name: &str, options: &ArgMatches) -> Result<Command, Usage>
    requires named { IsCommandName name.now }
    ensures command { IfOk result (IsCommand name.now (rows_of (found_of options.now))) }
    ensures refused { IfErr result (RefusesCommand (rows_of (found_of options.now))) }
{
    let command = match name {
        "sample" => Command::Sample {
            format: format(options),
            shots: shots(alloc, options)?,
        },
        "detect" => Command::Detect {
            format: format(options),
            shots: shots(alloc, options)?,
            append: flag(options, "append_observables"),
        },
        "stabilisers" => Command::Stabilisers,
        "check" => Command::Check,
        "deterministic" => deterministic(options),
        "faults" => Command::Faults {
            layout: layout(options),
            everywhere: flag(options, "everywhere"),
            deterministic_only: flag(options, "deterministic_only"),
        },
        "coins" => Command::Coins {
            layout: layout(options),
        },
        "distance" => distance(alloc, options)?,
        "propagate" => Command::Propagate {
            every: flag(options, "every"),
        },
        "propagate_each" => Command::PropagateEach {
            everywhere: flag(options, "everywhere"),
        },
        _ => Command::Edit {
            framed: flag(options, "framed"),
            qubits: qubits(options),
            stride: stride(options),
        },
    };
    Ok(command)
}

/// The job of a command with these options.
pub(crate) fn job(alloc: Global, name: &str, options: &ArgMatches) -> Result<Job, Usage>
    requires named { IsCommandName name.now }
    ensures job { IfOk result (IsJob name.now (rows_of (found_of options.now))) }
    ensures refused { IfErr result (RefusesOptions (rows_of (found_of options.now))) }
{
    if first_beside_coins(options) {
        let reported = String::from_str(alloc, FIRST_BESIDE_COINS)?;
        return Err(Usage::Fault(reported));
    }
    Ok(Job {
        command: command(alloc, name, options)?,
        source: source(alloc, options)?,
        coins_path: path(alloc, options, "coins_in")?,
        in_path: path(alloc, options, "in")?,
        out_path: path(alloc, options, "out")?,
        at: word(alloc, options, "at")?,
        string: word(alloc, options, "PAULI")?,
    })
}
