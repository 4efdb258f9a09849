ghost use Rattle.std.specs.Prelude.{◌≡◌};
ghost use Rattle.std.specs.Str.{str_eq_ignore_ascii_case};
ghost use Rattle.stab_instructions.specs.Names.{gate_named as gate_of, controlled_named as controlled_of, measurement_named as measurement_of, other_named as other_of};

use crate::axis::Axis;
use crate::operation::Measurement;
use crate::table::{controlled_gates, gates, measurements, others};
use stab_gates::Gate;
use stab_io::Refusal;

/// What an instruction is, by its name.
#[derive(Clone, Copy)]
pub enum Instruction {
    Gate(Gate),
    Controlled(Axis),
    Swap,
    Measure(Measurement),
    Reset(Axis),
    MeasureProducts,
    Detector,
    ObservableInclude,
    Tick,
    QubitCoords,
    ShiftCoords,
}

/// What a name stands for.
#[derive(Clone, Copy)]
pub enum Name {
    Instruction(Instruction),
    Repeat,
}

fn is(name: &[u8], spelling: &[u8]) -> bool
    ensures value { result ≡ str_eq_ignore_ascii_case name.now spelling.now }
{
    name.eq_ignore_ascii_case(spelling)
}

/// What the first row that has this name stands for.
macro_rules! first_named {
    ($name:expr; $([$($meaning:tt)+] $first:literal $(or $other:literal)*;)+) => {
        $(if is($name, $first) $(|| is($name, $other))* {
            Some($($meaning)+)
        } else)+ {
            None
        }
    };
}

/// The measurement of the first row that has this name.
macro_rules! first_measured {
    ($name:expr; $([($axis:path, $resets:literal)] $first:literal $(or $other:literal)*;)+) => {
        $(if is($name, $first) $(|| is($name, $other))* {
            Some(measurement($axis, $resets))
        } else)+ {
            None
        }
    };
}

#[tactic(auto, unfolding(crate::specs::Names::gate_named))]
fn gate_named(name: &[u8]) -> Option<Gate>
    ensures value { result ≡ gate_of name.now }
{
    gates!(first_named, name)
}

#[tactic(auto, unfolding(crate::specs::Names::controlled_named))]
fn controlled_named(name: &[u8]) -> Option<Axis>
    ensures value { result ≡ controlled_of name.now }
{
    controlled_gates!(first_named, name)
}

#[tactic(auto, unfolding(crate::specs::Names::measurement_named))]
fn measurement_named(name: &[u8]) -> Option<Measurement>
    ensures value { result ≡ measurement_of name.now }
{
    measurements!(first_measured, name)
}

fn measurement(axis: Axis, resets: bool) -> Measurement
    ensures value { result ≡ record { axis = axis; resets = resets } }
{
    Measurement { axis, resets }
}

#[tactic(auto, unfolding(crate::specs::Names::other_named))]
fn other_named(name: &[u8]) -> Option<Instruction>
    ensures value { result ≡ other_of name.now }
{
    others!(first_named, name)
}

impl Instruction {
    ghost use Rattle.std.specs.Prelude.{◌≡◌};
    ghost use Rattle.stab_instructions.specs.Names.{instruction_named};

    #[tactic(auto, unfolding(crate::specs::Names::instruction_named))]
    fn named(name: &[u8]) -> Result<Instruction, Refusal>
        ensures value { result ≡ instruction_named name.now }
    {
        if let Some(gate) = gate_named(name) {
            return Ok(Instruction::Gate(gate));
        }
        if let Some(axis) = controlled_named(name) {
            return Ok(Instruction::Controlled(axis));
        }
        if let Some(measurement) = measurement_named(name) {
            return Ok(Instruction::Measure(measurement));
        }
        match other_named(name) {
            Some(other) => Ok(other),
            None => Err(Refusal::UnsupportedName),
        }
    }
}

impl Name {
    ghost use Rattle.std.specs.Prelude.{◌≡◌};
    ghost use Rattle.stab_instructions.specs.Names.{name_of};

    /// What a name stands for, in capitals or not; refusal `UnsupportedName` alone.
    #[tactic(auto, unfolding(crate::specs::Names::name_of))]
    pub fn of(name: &[u8]) -> Result<Name, Refusal>
        ensures value { result ≡ name_of name.now }
    {
        if is(name, b"REPEAT") {
            return Ok(Name::Repeat);
        }
        let instruction = Instruction::named(name)?;
        Ok(Name::Instruction(instruction))
    }
}
