//! Variables that are true or false, and their opposites.

/// A variable, or its opposite. Variables count from 1.
#[derive(Clone, Copy, Debug, PartialEq, Eq)]
pub enum Literal {
    /// It holds if the variable is true.
    Is(usize),
    /// It holds if the variable is false.
    IsNot(usize),
}
