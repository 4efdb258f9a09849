//! How far a search for a distance is.
ghost use Rattle.std.specs.Prelude.{None};

use stab_cli::Progress;
use std::io::Write;

/// Hears a search: notes whether it is over no errors, and writes each number of errors that it excludes, if
/// that is asked for.
#[derive(Drop)]
pub(crate) struct SearchProgress<W> {
    writer: W,
    is_shown: bool,
    is_over_nothing: bool,
}

impl<W> SearchProgress<W> {
    /// Before any search.
    pub(crate) fn new(writer: W, is_shown: bool) -> SearchProgress<W> {
        SearchProgress {
            writer,
            is_shown,
            is_over_nothing: false,
        }
    }

    /// Whether a search began, over no errors.
    pub(crate) fn is_over_nothing(&self) -> bool {
        self.is_over_nothing
    }
}

impl<W: Write> Progress for SearchProgress<W> {
    ghost heard = { λ _. None };

    fn begins(&mut self, errors: usize) {
        self.is_over_nothing = errors == 0;
    }

    fn none_within(&mut self, errors: usize) {
        if self.is_shown {
            let _ = writeln!(self.writer, "distance: no set of {errors}");
        }
    }
}
