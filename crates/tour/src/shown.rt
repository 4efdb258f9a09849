use stabsim_library::{Letter, Pauli};
use std::fmt;

/// Bits as characters 0 and 1.
#[derive(Drop)]
pub struct Bits<'a>(pub &'a [bool]);

impl<'a> fmt::Display for Bits<'a> {
    fn fmt<W: fmt::Write>(&self, f: &mut fmt::Formatter<W>) -> Result<(), fmt::Error> {
        for bit in self.0 {
            f.write_str(if *bit { "1" } else { "0" })?;
        }
        Ok(())
    }
}

/// A signed string of letters.
#[derive(Drop)]
pub struct ShownRow<'a>(pub &'a Pauli);

impl<'a> fmt::Display for ShownRow<'a> {
    fn fmt<W: fmt::Write>(&self, f: &mut fmt::Formatter<W>) -> Result<(), fmt::Error> {
        f.write_str(if self.0.is_negative() { "-" } else { "+" })?;
        for qubit in 0..self.0.len() {
            f.write_str(match self.0.letter(qubit) {
                Letter::I => "_",
                Letter::X => "X",
                Letter::Y => "Y",
                Letter::Z => "Z",
            })?;
        }
        Ok(())
    }
}
