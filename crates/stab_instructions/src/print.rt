ghost use Rattle.std.specs.Prelude.{◌≡◌, ◌++◌, List, ℕ, Bool, [], ◌∷◌, codes, map};
ghost use Rattle.std.specs.Fmt.{decimal};
ghost use Rattle.std.specs.List.{slice_split};
ghost use Rattle.std.specs.Option.{option_copied};
ghost use Rattle.stab_io.specs.Devices.{WritesAll};
ghost use Rattle.stab_instructions.specs.Lines.{is_byte, trimmed};
ghost use Rattle.stab_instructions.specs.Words.{arguments_of, pieces_after};
ghost use Rattle.stab_instructions.specs.Names.{gate_name as gate_name_of, controlled_name as controlled_name_of, measurement_name as measurement_name_of, instruction_name as instruction_name_of};
ghost use Rattle.stab_instructions.specs.Prints.{axis_text as axis_text_of, kind_name as kind_name_of, tag_text, each_after, head_text, arguments_text, kind_arguments, after_space, coordinates_text, pair_text, target_text, lookback_text, controlled_text, factor_text, product_text, targets_text, operation_text, open_text};

use crate::axis::Axis;
use crate::control::ControlledPair;
use crate::name::Instruction;
use crate::operation::{Kind, Measurement};
use crate::product::{Factor, Product};
use crate::range::{Count, Lookback, MeasureTarget, Pair, Qubit};
use crate::search::first_piece;
use crate::spacing::{is_blank, without_spacing};
use crate::table::{controlled_gates, gates, measurements, others};
use itoa::Buffer;
use stab_gates::Gate;
use stab_io::{Output, Refusal, write_all};

/// The name that is printed of what a value is.
macro_rules! printed {
    ($of:expr; $([$($meaning:tt)+] $first:literal $(or $other:literal)*;)+) => {
        match $of {
            $($($meaning)+ => $first,)+
        }
    };
}

/// The same, where gates and measurements have tables of their own.
macro_rules! printed_of_all {
    ($of:expr; $([$($meaning:tt)+] $first:literal $(or $other:literal)*;)+) => {
        match $of {
            Instruction::Gate(gate) => gate_name(gate),
            Instruction::Controlled(axis) => controlled_name(axis),
            Instruction::Measure(measurement) => measurement_name(measurement),
            $($($meaning)+ => $first,)+
        }
    };
}

fn gate_name(gate: Gate) -> &'static [u8]
    ensures value { result.now ≡ gate_name_of gate }
{
    gates!(printed, gate)
}

fn controlled_name(axis: Axis) -> &'static [u8]
    ensures value { result.now ≡ controlled_name_of axis }
{
    controlled_gates!(printed, axis)
}

fn measurement_name(measurement: Measurement) -> &'static [u8]
    ensures value { result.now ≡ measurement_name_of measurement }
{
    measurements!(printed, (measurement.axis, measurement.resets))
}

fn axis_text(axis: Axis) -> &'static [u8]
    ensures value { result.now ≡ axis_text_of axis }
{
    match axis {
        Axis::X => b"X",
        Axis::Y => b"Y",
        Axis::Z => b"Z",
    }
}

fn instruction_name(instruction: Instruction) -> &'static [u8]
    ensures value { result.now ≡ instruction_name_of instruction }
{
    others!(printed_of_all, instruction)
}

fn kind_name(kind: &Kind) -> &'static [u8]
    ensures value { result.now ≡ kind_name_of kind.now }
{
    match kind {
        Kind::Gate(gate, _) => gate_name(*gate),
        Kind::Controlled(axis, _) => controlled_name(*axis),
        Kind::Swap(_) => instruction_name(Instruction::Swap),
        Kind::Measure(measurement, _) => measurement_name(*measurement),
        Kind::Reset(axis, _) => instruction_name(Instruction::Reset(*axis)),
        Kind::MeasureProducts(_) => instruction_name(Instruction::MeasureProducts),
        Kind::Detector(_) => instruction_name(Instruction::Detector),
        Kind::ObservableInclude(_, _) => instruction_name(Instruction::ObservableInclude),
        Kind::Tick => instruction_name(Instruction::Tick),
        Kind::QubitCoords(_) => instruction_name(Instruction::QubitCoords),
        Kind::ShiftCoords(_) => instruction_name(Instruction::ShiftCoords),
    }
}

/// Writes three parts, one after another.
fn write_parts<O: Output>(
    out: &mut O,
    first: &[u8],
    second: &[u8],
    third: &[u8],
) -> Result<(), Refusal>
    ensures writes { WritesAll (O.seen out.old) (O.seen out.new) (first.now ++ (second.now ++ third.now)) result }
{
    write_all(out, first)?;
    write_all(out, second)?;
    write_all(out, third)
}

/// Writes a number between two texts.
fn write_number<O: Output>(
    out: &mut O,
    before: &[u8],
    number: u64,
    after: &[u8],
) -> Result<(), Refusal>
    ensures writes { WritesAll (O.seen out.old) (O.seen out.new) (before.now ++ (decimal number ++ after.now)) result }
{
    let mut digits = Buffer::new();
    write_parts(out, before, digits.format(number).as_bytes(), after)
}

/// What is printed after a separator.
trait Word {
    // Its text.
    ghost text: { Self → List ℕ };

    fn write<O: Output>(&self, out: &mut O) -> Result<(), Refusal>
        ensures writes { WritesAll (O.seen out.old) (O.seen out.new) (text self.now) result };
}

impl Word for Qubit {
    ghost text = { decimal };

    fn write<O: Output>(&self, out: &mut O) -> Result<(), Refusal> {
        let mut digits = Buffer::new();
        write_all(out, digits.format(self.number() as u64).as_bytes())
    }
}

impl Word for Pair {
    ghost text = { pair_text };

    fn write<O: Output>(&self, out: &mut O) -> Result<(), Refusal> {
        self.first().write(out)?;
        write_all(out, b" ")?;
        self.second().write(out)
    }
}

impl Word for MeasureTarget {
    ghost text = { target_text };

    fn write<O: Output>(&self, out: &mut O) -> Result<(), Refusal> {
        let mark = if self.inverted { b"!".as_slice() } else { b"" };
        let mut digits = Buffer::new();
        write_parts(
            out,
            b"",
            mark,
            digits.format(self.qubit.number() as u64).as_bytes(),
        )
    }
}

impl Word for u32 {
    ghost text = { lookback_text };

    fn write<O: Output>(&self, out: &mut O) -> Result<(), Refusal> {
        write_number(out, b"rec[-", u64::from(*self), b"]")
    }
}

impl Word for ControlledPair {
    ghost text = { controlled_text };

    fn write<O: Output>(&self, out: &mut O) -> Result<(), Refusal> {
        match self {
            ControlledPair::Qubits(pair) => pair.write(out),
            ControlledPair::Record(qubit, lookback) => write_feedback(out, *lookback, *qubit),
        }
    }
}

/// Writes a record and the qubit on which it acts.
fn write_feedback<O: Output>(out: &mut O, lookback: Lookback, qubit: Qubit) -> Result<(), Refusal>
    ensures writes { WritesAll (O.seen out.old) (O.seen out.new) (lookback_text lookback ++ (codes " " ++ decimal qubit)) result }
{
    lookback.number().write(out)?;
    write_all(out, b" ")?;
    qubit.write(out)
}

impl Word for Factor {
    ghost text = { factor_text };

    fn write<O: Output>(&self, out: &mut O) -> Result<(), Refusal> {
        let mark = if self.inverted { b"!".as_slice() } else { b"" };
        let mut digits = Buffer::new();
        write_parts(
            out,
            mark,
            axis_text(self.letter),
            digits.format(self.qubit.number() as u64).as_bytes(),
        )
    }
}

impl Word for Product {
    ghost text = { product_text };

    fn write<O: Output>(&self, out: &mut O) -> Result<(), Refusal> {
        match self.as_slice().split_first() {
            None => Ok(()),
            Some((first, more)) => write_factors(out, *first, more),
        }
    }
}

/// Writes factors, at least one.
fn write_factors<O: Output>(out: &mut O, first: Factor, more: &[Factor]) -> Result<(), Refusal>
    ensures writes { WritesAll (O.seen out.old) (O.seen out.new) (product_text (first ∷ more.now)) result }
{
    first.write(out)?;
    write_each(out, b"*", more)
}

fn write_each<O: Output, W: Word>(out: &mut O, separator: &[u8], words: &[W]) -> Result<(), Refusal>
    ensures writes { WritesAll (O.seen out.old) (O.seen out.new) (each_after separator.now W.text words.now) result }
{
    for word in words {
        write_all(out, separator)?;
        word.write(out)?;
    }
    Ok(())
}

#[tactic(auto, using(crate::proofs::PrintLemmas::tag_some))]
fn write_tag<O: Output>(out: &mut O, tag: &[u8]) -> Result<(), Refusal>
    ensures writes { WritesAll (O.seen out.old) (O.seen out.new) (tag_text tag.now) result }
{
    if tag.is_empty() {
        return Ok(());
    }
    write_parts(out, b"[", tag, b"]")
}

/// Writes a name and its tag.
fn write_head<O: Output>(out: &mut O, name: &[u8], tag: &[u8]) -> Result<(), Refusal>
    ensures writes { WritesAll (O.seen out.old) (O.seen out.new) (head_text name.now tag.now) result }
{
    write_all(out, name)?;
    write_tag(out, tag)
}

/// Writes arguments, each after a comma and a space, as they are between commas.
fn write_more<O: Output>(out: &mut O, more: Option<&[u8]>) -> Result<(), Refusal>
    ensures writes { WritesAll (O.seen out.old) (O.seen out.new) (each_after (codes ", ") (λ b. b) (map trimmed (pieces_after 44 (option_copied more.entry)))) result }
{
    let mut rest = more;
    while let Some(bytes) = rest {
        let (argument, after) = first_piece(bytes, b',');
        write_parts(out, b", ", b"", without_spacing(argument))?;
        rest = after;
    }
    Ok(())
}

/// Writes arguments, at least one, in their brackets, as they are between commas.
fn write_bracketed<O: Output>(out: &mut O, arguments: &[u8]) -> Result<(), Refusal>
    ensures writes { WritesAll (O.seen out.old) (O.seen out.new) (arguments_text (map trimmed (slice_split (is_byte 44) arguments.now))) result }
{
    let (first, more) = first_piece(arguments, b',');
    write_parts(out, b"", b"(", without_spacing(first))?;
    write_more(out, more)?;
    write_all(out, b")")
}

/// Writes coordinates as they are in their brackets, none if these hold nothing.
fn write_coordinates<O: Output>(out: &mut O, written: &[u8]) -> Result<(), Refusal>
    ensures writes { WritesAll (O.seen out.old) (O.seen out.new) (arguments_text (arguments_of written.now)) result }
{
    if is_blank(written) {
        return Ok(());
    }
    write_bracketed(out, written)
}

fn write_arguments<O: Output>(out: &mut O, kind: &Kind) -> Result<(), Refusal>
    ensures writes { WritesAll (O.seen out.old) (O.seen out.new) (arguments_text (kind_arguments kind.now)) result }
{
    match kind {
        Kind::Detector(targets) => write_coordinates(out, targets.written()),
        Kind::ObservableInclude(observable, _) => write_number(
            out,
            b"(",
            u64::from(observable.number()),
            b")",
        ),
        Kind::QubitCoords(located) => write_coordinates(out, located.coordinates().written()),
        Kind::ShiftCoords(coordinates) => write_coordinates(out, coordinates.written()),
        Kind::Gate(_, _)
        | Kind::Controlled(_, _)
        | Kind::Swap(_)
        | Kind::Measure(_, _)
        | Kind::Reset(_, _)
        | Kind::MeasureProducts(_)
        | Kind::Tick => Ok(()),
    }
}

/// Writes a space and coordinates as they are in their brackets, nothing if these are empty.
fn write_after_space<O: Output>(out: &mut O, written: &[u8]) -> Result<(), Refusal>
    ensures writes { WritesAll (O.seen out.old) (O.seen out.new) (after_space (arguments_text (arguments_of written.now))) result }
{
    if is_blank(written) {
        return Ok(());
    }
    write_all(out, b" ")?;
    write_bracketed(out, written)
}

/// Writes the coordinates of a detector after a space, as its line is printed, such as ` (1, 3, 2)`. It writes
/// nothing if there are none, or for any other instruction, and does not flush.
///
/// Refusal `WriteFault` if a write failed; what was written is then a prefix of the text.
pub fn write_detector_coordinates<O: Output>(out: &mut O, kind: &Kind) -> Result<(), Refusal>
    ensures writes { WritesAll (O.seen out.old) (O.seen out.new) (coordinates_text kind.now) result }
{
    match kind {
        Kind::Detector(targets) => write_after_space(out, targets.written()),
        _ => Ok(()),
    }
}

fn write_targets<O: Output>(out: &mut O, kind: &Kind) -> Result<(), Refusal>
    ensures writes { WritesAll (O.seen out.old) (O.seen out.new) (targets_text kind.now) result }
{
    match kind {
        Kind::Gate(_, qubits) => write_each(out, b" ", qubits.as_slice()),
        Kind::Controlled(_, pairs) => write_each(out, b" ", pairs.as_slice()),
        Kind::Swap(pairs) => write_each(out, b" ", pairs.as_slice()),
        Kind::Measure(_, targets) => write_each(out, b" ", targets.as_slice()),
        Kind::Reset(_, qubits) => write_each(out, b" ", qubits.as_slice()),
        Kind::MeasureProducts(products) => write_each(out, b" ", products.as_slice()),
        Kind::Detector(targets) => write_each(out, b" ", targets.records()),
        Kind::ObservableInclude(_, records) => write_each(out, b" ", records.as_slice()),
        Kind::QubitCoords(located) => write_each(out, b" ", located.targets().as_slice()),
        Kind::Tick | Kind::ShiftCoords(_) => Ok(()),
    }
}

/// Writes an instruction's name and its tag.
fn write_name<O: Output>(out: &mut O, kind: &Kind, tag: &[u8]) -> Result<(), Refusal>
    ensures writes { WritesAll (O.seen out.old) (O.seen out.new) (head_text (kind_name_of kind.now) tag.now) result }
{
    write_head(out, kind_name(kind), tag)
}

/// Writes the one text of an instruction with this tag, which is empty if it has none, without a
/// line feed, and does not flush.
///
/// Refusal `WriteFault` if a write failed; what was written is then a prefix of the text.
pub fn write_operation<O: Output>(out: &mut O, kind: &Kind, tag: &[u8]) -> Result<(), Refusal>
    ensures writes { WritesAll (O.seen out.old) (O.seen out.new) (operation_text (record { kind = kind.now; tag = tag.now })) result }
{
    write_name(out, kind, tag)?;
    write_arguments(out, kind)?;
    write_targets(out, kind)
}

/// Writes the one text of a block's opening, without a line feed, and does not flush.
///
/// Refusal `WriteFault` if a write failed; what was written is then a prefix of the text.
pub fn write_opening<O: Output>(out: &mut O, count: Count, tag: &[u8]) -> Result<(), Refusal>
    ensures writes { WritesAll (O.seen out.old) (O.seen out.new) (open_text count tag.now) result }
{
    write_head(out, b"REPEAT", tag)?;
    write_number(out, b" ", count.number(), b" {")
}
