//! Lines of numbers, in columns and in sentences.
use super::failure::Failure;

/// A number with the width of its column and its decimals.
pub type Cell = (f64, usize, usize);

/// Words, and a number after them with its decimals.
pub type Part<'a> = (&'a str, f64, usize);

/// Prints a line of numbers, each set right in its column after a space, and after them a name.
pub fn print_row<R: Print>(rt: &R, cells: &[Cell], name: &str) -> Result<(), Failure> {
    print_cells(rt, cells)?;
    println!(rt; "  {name}")?;
    Ok(())
}

/// Prints numbers, each set right in its column after a space.
pub fn print_cells<R: Print>(rt: &R, cells: &[Cell]) -> Result<(), Failure> {
    for cell in cells {
        let (number, width, decimals) = *cell;
        print!(rt; " {number:>width$.decimals$}")?;
    }
    Ok(())
}

/// Prints a sentence of parts, and the words that end it.
pub fn print_sentence<R: Print>(rt: &R, parts: &[Part], end: &str) -> Result<(), Failure> {
    for part in parts {
        let (words, number, decimals) = *part;
        print!(rt; "{words}{number:.decimals$}")?;
    }
    println!(rt; "{end}")?;
    Ok(())
}
