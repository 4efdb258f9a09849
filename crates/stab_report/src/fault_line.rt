//! The lines that say a fault.
ghost use Rattle.std.specs.Prelude.{◌≡◌, ◌++◌, codes, decimal};
ghost use Rattle.stab_io.specs.Devices.{WritesAll};
ghost use Rattle.stab_report.specs.FaultLines.{bit_text, fault_line, reported_text, random_bit, random_line};
ghost use Rattle.stab_report.specs.Texts.{placed_coin};

use crate::random::{Bit, Decider, FaultsRefused, Random};
use crate::writing::write_texts;
use stab_io::{Fault, Output, Refusal, write_all};
use stab_items::write_path;

/// Writes the line that says a fault: `stabsim: line L: refused N Name`, without `line L: `
/// if the fault has no line, and a line feed. It takes no memory.
///
/// Refusal `WriteFault` after a prefix of the line.
pub fn write_fault<O: Output>(out: &mut O, fault: Fault) -> Result<(), Refusal>
    ensures writes { WritesAll (O.seen out.old) (O.seen out.new) (fault_line fault) result }
{
    let mut line = itoa::Buffer::new();
    let mut number = itoa::Buffer::new();
    let number = number.format(fault.refusal.number()).as_bytes();
    let name = fault.refusal.name().as_bytes();
    if fault.line == 0 {
        write_texts(out, &[b"stabsim: ", b"refused ", number, b" ", name, b"\n"])
    } else {
        let line = line.format(fault.line).as_bytes();
        write_texts(
            out,
            &[
                b"stabsim: ",
                b"line ",
                line,
                b": ",
                b"refused ",
                number,
                b" ",
                name,
                b"\n",
            ],
        )
    }
}

/// What a detector or an observable is called, and its number.
fn bit_name(bit: Bit) -> (&'static [u8], usize)
    ensures value { bit_text bit ≡ result.0.now ++ decimal result.1 }
{
    match bit {
        Bit::Detector(number) => (b"detector ", number),
        Bit::Observable(number) => (b"observable ", number),
    }
}

/// Writes a coin after a space, with the path of the item that takes it, such as ` c40@66/3`.
pub fn write_decider<O: Output>(out: &mut O, decider: &Decider) -> Result<(), Refusal>
    ensures writes { WritesAll (O.seen out.old) (O.seen out.new) (codes " " ++ placed_coin decider.now.coin decider.now.path) result }
{
    let mut digits = itoa::Buffer::new();
    write_texts(out, &[b" c", digits.format(decider.coin).as_bytes(), b"@"])?;
    write_path(out, &decider.path)
}

/// Writes what a detector or observable is called, with the path of its item.
fn write_random_bit<O: Output>(out: &mut O, random: &Random) -> Result<(), Refusal>
    ensures writes { WritesAll (O.seen out.old) (O.seen out.new) (random_bit random.now) result }
{
    let (name, number) = bit_name(random.bit);
    let mut digits = itoa::Buffer::new();
    let digits = digits.format(number).as_bytes();
    write_texts(out, &[b"stabsim: ", name, digits, b", item "])?;
    write_path(out, &random.path)
}

/// Writes the line that names a detector or observable that is not the same for all coins.
fn write_random<O: Output>(out: &mut O, random: &Random) -> Result<(), Refusal>
    ensures writes { WritesAll (O.seen out.old) (O.seen out.new) (random_line random.now) result }
{
    write_random_bit(out, random)?;
    write_all(out, b", is not the same for all coins:")?;
    write_decider(out, &random.decider)?;
    write_all(out, b" decides it\n")
}

/// Writes the line that says a fault, as `write_fault` does, and after it, if the fault names a detector
/// or observable, a line such as `stabsim: detector 3, item 0/2, is not the same for all coins: c1@0/1
/// decides it`, with the first coin that decides it. It takes no memory.
///
/// Refusal `WriteFault` after a prefix of the lines.
pub fn write_refused<O: Output>(out: &mut O, refused: &FaultsRefused) -> Result<(), Refusal>
    ensures writes { WritesAll (O.seen out.old) (O.seen out.new) (reported_text refused.now.fault refused.now.random) result }
{
    write_fault(out, refused.fault)?;
    match &refused.random {
        Some(random) => write_random(out, random),
        None => Ok(()),
    }
}
