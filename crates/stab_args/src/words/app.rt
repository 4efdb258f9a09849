//! The commands of the program and their options, as the command line reader is given them.
ghost use Rattle.std.specs.Prelude.{IfOk};
ghost use Rattle.clap.specs.Words.{App, Rule, new_app, with_rule, with_subcommand};
ghost use Rattle.stab_args.specs.Options.{alone, bare, check, coins, detect, deterministic, deterministic_only, distance, edit, faults, flag, last_observable, most_errors, named, numbered, one_name, positional, propagate, propagate_each, ranged, shot_command, stabilisers, stabsim, valued, wanted};
ghost use Rattle.stab_args.specs.inner.Parts.{IsApp, IsOption, with_common, with_files};

use crate::words::help;
use clap::builder::ValueParser;
use clap::{Arg, ArgAction, Command};
use stab_jobs::{QubitCount, Shots, Stride};
use std::alloc::{AllocError, Global};

/// The names of the result formats.
pub(crate) static FORMATS: [&str; 5] = ["01", "b8", "r8", "hits", "dets"];

/// The names of the letters of errors.
pub(crate) static LETTERS: [&str; 2] = ["all", "XZ"];

/// The number of the last observable.
pub(crate) const LAST_OBSERVABLE: u64 = 4095;

/// The greatest number of errors up to which a distance is asked for.
pub(crate) const MOST_ERRORS: u64 = 1_000_000_000;

/// An option `--id` with a value.
fn valued<'a>(alloc: Global, id: &'a str, value: &'a str, help: &'a str) -> Arg<'a>
    ensures rule { IsOption (valued id.entry.now) result }
{
    Arg::new(alloc, id).long(id).value_name(value).help(help)
}

/// An option `--id` with a number within these limits.
fn ranged<'a>(alloc: Global, id: &'a str, least: u64, most: u64, help: &'a str) -> Arg<'a>
    ensures rule { IsOption (ranged id.entry.now least most) result }
{
    valued(alloc, id, "NUMBER", help).value_parser(ValueParser::unsigned(least, most))
}

/// The same with a default.
fn numbered<'a>(
    alloc: Global,
    id: &'a str,
    least: u64,
    most: u64,
    default: &'a str,
    help: &'a str,
) -> Arg<'a>
    ensures rule { IsOption (numbered id.entry.now least most default.entry.now) result }
{
    ranged(alloc, id, least, most, help).default_value(default)
}

/// An option `--id` with one of these names.
fn one_name<'a>(alloc: Global, id: &'a str, names: &'a [&'a str], help: &'a str) -> Arg<'a>
    ensures rule { IsOption (one_name id.entry.now names.entry) result }
{
    valued(alloc, id, "NAME", help).value_parser(names)
}

/// The same with a default.
fn named<'a>(
    alloc: Global,
    id: &'a str,
    names: &'a [&'a str],
    default: &'a str,
    help: &'a str,
) -> Arg<'a>
    ensures rule { IsOption (named id.entry.now names.entry default.entry.now) result }
{
    one_name(alloc, id, names, help).default_value(default)
}

/// An option `--id` without a value.
fn flag<'a>(alloc: Global, id: &'a str, help: &'a str) -> Arg<'a>
    ensures rule { IsOption (flag id.entry.now) result }
{
    Arg::new(alloc, id)
        .long(id)
        .action(ArgAction::SetTrue)
        .help(help)
}

/// The flag that leaves out what is not the same for all random bits, which has another name.
fn deterministic_only<'a>(alloc: Global) -> Result<Arg<'a>, AllocError>
    ensures rule { IfOk result (IsOption deterministic_only) }
{
    flag(alloc, "deterministic_only", help::DETERMINISTIC_ONLY).alias("sure_only")
}

/// A command without options.
fn named_command<'a>(
    alloc: Global,
    name: &'a str,
    about: &'a str,
    after_help: &'a str,
) -> Command<'a>
    ensures app { IsApp (new_app name.entry.now) result }
{
    Command::new(alloc, name)
        .about(about)
        .after_help(after_help)
}

/// A command with one option more, if memory was given for it.
fn with_option<'a>(
    command: Result<Command<'a>, AllocError>,
    option: Arg<'a>,
) -> Result<Command<'a>, AllocError>
    ensures app { (app : App) (rule : Rule) → IfOk command.entry (IsApp app) → IsOption rule option.entry → IfOk result (IsApp (with_rule app rule)) }
{
    command?.arg(option)
}

/// A command with the options of every command after its own; `help_in` is the help of `--in`.
fn with_files<'a>(
    alloc: Global,
    command: Result<Command<'a>, AllocError>,
    help_in: &'a str,
) -> Result<Command<'a>, AllocError>
    ensures app { (app : App) → IfOk command.entry (IsApp app) → IfOk result (IsApp (with_files app)) }
{
    let command = with_option(command, valued(alloc, "in", "FILE", help_in));
    with_option(command, valued(alloc, "out", "FILE", help::OUT))
}

/// A command with the options of one that runs a circuit after its own; `help_in` is the help of `--in`.
fn with_common<'a>(
    alloc: Global,
    command: Result<Command<'a>, AllocError>,
    help_in: &'a str,
) -> Result<Command<'a>, AllocError>
    ensures app { (app : App) → IfOk command.entry (IsApp app) → IfOk result (IsApp (with_common app)) }
{
    let command = with_option(
        command,
        numbered(alloc, "seed", 0, u64::MAX, "0", help::SEED),
    );
    let command = with_option(command, valued(alloc, "coins", "TEXT", help::COINS));
    let command = with_option(command, valued(alloc, "coins_in", "FILE", help::COINS_IN));
    with_files(alloc, command, help_in)
}

/// A command that takes shots, with the options of all such commands.
fn shot_command<'a>(
    alloc: Global,
    name: &'a str,
    about: &'a str,
    after_help: &'a str,
    formats: &'a [&'a str],
) -> Result<Command<'a>, AllocError>
    ensures app { IfOk result (IsApp (alone (shot_command name.entry.now formats.entry))) }
{
    let command = Ok(named_command(alloc, name, about, after_help));
    let shots = numbered(alloc, "shots", 0, Shots::MOST as u64, "1", help::SHOTS);
    let command = with_option(command, shots);
    let first = ranged(alloc, "first_shot", 0, u64::MAX, help::FIRST_SHOT);
    let command = with_option(command, first);
    let command = with_option(
        command,
        named(alloc, "out_format", formats, "01", help::FORMAT),
    );
    with_common(alloc, command, help::IN)
}

/// The command `stabilisers`, which takes no shots, and which is found by another spelling too.
fn stabilisers_command<'a>(alloc: Global) -> Result<Command<'a>, AllocError>
    ensures app { IfOk result (IsApp (alone stabilisers)) }
{
    let command = named_command(
        alloc,
        "stabilisers",
        help::ABOUT_STABILISERS,
        help::AFTER_STABILISERS,
    );
    with_common(alloc, command.alias("stabilizers"), help::IN)
}

/// The command `edit`.
fn edit_command<'a>(alloc: Global) -> Result<Command<'a>, AllocError>
    ensures app { IfOk result (IsApp (alone edit)) }
{
    let command = Ok(named_command(alloc, "edit", help::ABOUT_EDIT, help::AFTER_EDIT));
    let qubits = ranged(alloc, "qubits", 0, QubitCount::MOST as u64, help::QUBITS);
    let command = with_option(command, qubits);
    let stride = numbered(
        alloc,
        "stride",
        1,
        Stride::MOST as u64,
        "8192",
        help::STRIDE,
    );
    let command = with_option(command, stride);
    let command = with_option(command, flag(alloc, "framed", help::FRAMED));
    with_common(alloc, command, help::IN_OF_EDIT)
}

/// The command `check`, which takes no coins.
fn check_command<'a>(alloc: Global) -> Result<Command<'a>, AllocError>
    ensures app { IfOk result (IsApp (alone check)) }
{
    let command = named_command(alloc, "check", help::ABOUT_CHECK, help::AFTER_CHECK);
    with_files(alloc, Ok(command), help::IN)
}

/// The command `deterministic`, which takes no coins.
fn deterministic_command<'a>(
    alloc: Global,
    formats: &'a [&'a str],
) -> Result<Command<'a>, AllocError>
    ensures app { IfOk result (IsApp (alone (deterministic formats.entry))) }
{
    let command = Ok(named_command(
        alloc,
        "deterministic",
        help::ABOUT_DETERMINISTIC,
        help::AFTER_DETERMINISTIC,
    ));
    let command = with_option(
        command,
        named(alloc, "out_format", formats, "01", help::FORMAT),
    );
    let command = with_option(command, flag(alloc, "explain", help::EXPLAIN));
    with_files(alloc, command, help::IN)
}

/// The command `faults`, which takes no coins.
fn faults_command<'a>(alloc: Global, formats: &'a [&'a str]) -> Result<Command<'a>, AllocError>
    ensures app { IfOk result (IsApp (alone (faults formats.entry))) }
{
    let only = deterministic_only(alloc)?;
    let command = Ok(named_command(alloc, "faults", help::ABOUT_FAULTS, help::AFTER_FAULTS));
    let command = with_option(
        command,
        one_name(alloc, "out_format", formats, help::FAULT_LAYOUT),
    );
    let command = with_option(command, flag(alloc, "everywhere", help::EVERYWHERE));
    let command = with_option(command, only);
    with_files(alloc, command, help::IN)
}

/// The command `coins`, which takes no coins.
fn coins_command<'a>(alloc: Global, formats: &'a [&'a str]) -> Result<Command<'a>, AllocError>
    ensures app { IfOk result (IsApp (alone (coins formats.entry))) }
{
    let command = Ok(named_command(alloc, "coins", help::ABOUT_COINS, help::AFTER_COINS));
    let command = with_option(
        command,
        one_name(alloc, "out_format", formats, help::COIN_LAYOUT),
    );
    with_files(alloc, command, help::IN)
}

/// The command `distance`, which takes no coins.
fn distance_command<'a>(alloc: Global, letters: &'a [&'a str]) -> Result<Command<'a>, AllocError>
    ensures app { IfOk result (IsApp (alone (distance letters.entry))) }
{
    let only = deterministic_only(alloc)?;
    let command = Ok(named_command(
        alloc,
        "distance",
        help::ABOUT_DISTANCE,
        help::AFTER_DISTANCE,
    ));
    let command = with_option(command, flag(alloc, "everywhere", help::NOISE));
    let command = with_option(
        command,
        named(alloc, "letters", letters, "all", help::LETTERS),
    );
    let command = with_option(command, ranged(alloc, "most", 0, MOST_ERRORS, help::MOST));
    let command = with_option(command, flag(alloc, "graphlike", help::GRAPHLIKE));
    let command = with_option(
        command,
        ranged(alloc, "observable", 0, LAST_OBSERVABLE, help::OBSERVABLE),
    );
    let command = with_option(command, flag(alloc, "each", help::EACH));
    let command = with_option(command, flag(alloc, "table", help::TABLE));
    let command = with_option(command, flag(alloc, "wcnf", help::WCNF));
    let command = with_option(command, flag(alloc, "count", help::COUNT));
    let command = with_option(command, valued(alloc, "part", "K/N", help::PART));
    let command = with_option(command, only);
    let command = with_option(command, flag(alloc, "progress", help::PROGRESS));
    with_files(alloc, command, help::IN)
}

/// An option whose value has to be given.
fn wanted<'a>(option: Arg<'a>) -> Arg<'a>
    ensures rule { (rule : Rule) → IsOption rule option.entry → IsOption (wanted rule) result }
{
    option.required(true)
}

/// A value that has no option.
fn positional<'a>(alloc: Global, id: &'a str, help: &'a str) -> Arg<'a>
    ensures rule { IsOption (positional id.entry.now) result }
{
    Arg::new(alloc, id).value_name(id).help(help)
}

/// The command `propagate`, which takes no coins.
fn propagate_command<'a>(alloc: Global) -> Result<Command<'a>, AllocError>
    ensures app { IfOk result (IsApp (alone propagate)) }
{
    let command = Ok(named_command(
        alloc,
        "propagate",
        help::ABOUT_PROPAGATE,
        help::AFTER_PROPAGATE,
    ));
    let at = wanted(valued(alloc, "at", "PLACE", help::AT));
    let command = with_option(command, at);
    let string = wanted(positional(alloc, "PAULI", help::PAULI));
    let command = with_option(command, string);
    let command = with_option(command, flag(alloc, "every", help::EVERY));
    with_files(alloc, command, help::IN)
}

/// The command `propagate_each`, which takes no coins.
fn propagate_each_command<'a>(alloc: Global) -> Result<Command<'a>, AllocError>
    ensures app { IfOk result (IsApp (alone propagate_each)) }
{
    let command = Ok(named_command(
        alloc,
        "propagate_each",
        help::ABOUT_PROPAGATE_EACH,
        help::AFTER_PROPAGATE_EACH,
    ));
    let command = with_option(command, flag(alloc, "everywhere", help::EVERYWHERE));
    with_files(alloc, command, help::IN)
}

/// The command `detect`.
fn detect_command<'a>(alloc: Global, formats: &'a [&'a str]) -> Result<Command<'a>, AllocError>
    ensures app { IfOk result (IsApp (alone (detect formats.entry))) }
{
    let shown = shot_command(
        alloc,
        "detect",
        help::ABOUT_DETECT,
        help::AFTER_DETECT,
        formats,
    );
    with_option(shown, flag(alloc, "append_observables", help::APPEND))
}

/// The program without its commands.
fn bare_command<'a>(alloc: Global) -> Command<'a>
    ensures app { IsApp bare result }
{
    Command::new(alloc, "stabsim")
        .version(help::VERSION)
        .about(help::ABOUT)
        .after_help(help::AFTER)
        .subcommand_required(true)
}

/// A program with one command more, if memory was given for both.
fn with_command<'a>(
    program: Result<Command<'a>, AllocError>,
    command: Result<Command<'a>, AllocError>,
) -> Result<Command<'a>, AllocError>
    ensures app { (app inner : App) → IfOk program.entry (IsApp app) → IfOk command.entry (IsApp inner) → IfOk result (IsApp (with_subcommand app inner.top)) }
{
    program?.subcommand(command?)
}

/// The program with its commands. Each is made when the one before it has been put in, so that there are never more than two
/// to be let go.
pub(crate) fn app<'a>(
    alloc: Global,
    formats: &'a [&'a str],
    letters: &'a [&'a str],
) -> Result<Command<'a>, AllocError>
    ensures app { IfOk result (IsApp (stabsim (record { formats = formats.entry; letters = letters.entry }))) }
{
    let sample = shot_command(
        alloc,
        "sample",
        help::ABOUT_SAMPLE,
        help::AFTER_SAMPLE,
        formats,
    );
    let program = with_command(Ok(bare_command(alloc)), sample);
    let program = with_command(program, detect_command(alloc, formats));
    let program = with_command(program, stabilisers_command(alloc));
    let program = with_command(program, edit_command(alloc));
    let program = with_command(program, check_command(alloc));
    let program = with_command(program, deterministic_command(alloc, formats));
    let program = with_command(program, faults_command(alloc, formats));
    let program = with_command(program, coins_command(alloc, formats));
    let program = with_command(program, distance_command(alloc, letters));
    let program = with_command(program, propagate_command(alloc));
    with_command(program, propagate_each_command(alloc))
}
