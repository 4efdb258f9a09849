//! What a search answers, and who hears how far it is.
ghost use Rattle.std.specs.Prelude.{List, [], ◌∷◌, Option, None};
ghost use Rattle.stab_search.specs.Progress.{Heard, Hears, begins, none_within};

/// The answer of a search for the least logical error of a table.
#[derive(Debug, Drop)]
pub enum Answer {
    /// A least logical error: the numbers of its rows in the table, in ascending order.
    Least(Vec<usize>),
    /// Each logical error has more errors than asked for.
    NoneWithin,
    /// There is no logical error.
    NoneAtAll,
}

/// Hears how far a search is.
pub trait Progress {
    // What was heard, oldest first, if it is retained.
    ghost heard: { Self → Option (List Heard) };

    /// A search begins, over this number of errors.
    fn begins(&mut self, errors: usize)
        ensures hears { Hears (heard self.old) (heard self.new) (begins errors ∷ []) };

    /// No logical error has this number of errors, or fewer.
    fn none_within(&mut self, errors: usize)
        ensures hears { Hears (heard self.old) (heard self.new) (none_within errors ∷ []) };
}

/// Hears nothing.
#[derive(Clone, Copy)]
pub struct Unwatched;

impl Progress for Unwatched {
    ghost heard = { λ _. None };

    fn begins(&mut self, _errors: usize) {}

    fn none_within(&mut self, _errors: usize) {}
}
