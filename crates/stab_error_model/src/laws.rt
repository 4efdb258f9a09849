//! Laws of errors. Each function does nothing: its contract is the law, and the check proves it.

ghost use Rattle.stab_error_model.specs.Laws.{CircuitsHaveDistances};

use stab_regions::single_error_laws::{
    deterministic_parities, single_errors_add, single_errors_flip_parities,
};
use stab_search::laws::tables_have_answers;

/// Each circuit whose steps fit has a table of errors, and a distance of them: a least unseen set, or that none is
/// within the number asked for, if that is below 2^63.
pub fn circuits_have_distances()
    ensures law { CircuitsHaveDistances }
{
    deterministic_parities();
    single_errors_flip_parities();
    single_errors_add();
    tables_have_answers();
}
