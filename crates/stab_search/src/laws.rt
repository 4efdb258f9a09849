//! Laws of tables. Each function does nothing: its contract is the law, and the check proves it.

ghost use Rattle.stab_search.specs.LogicalErrors.{TablesHaveAnswers};
ghost use Rattle.stab_search.specs.SearchParts.{PartsAreWhole, PartsFindLeast};

/// Each table of errors has an answer: a least logical error, or that none is within the number asked for, if
/// that is below 2^63.
pub fn tables_have_answers()
    ensures law { TablesHaveAnswers }
{}

/// If each part of a search has no set of 1, 2 errors and so on up to a number, no logical error has so few errors; and a set of one more
/// error is then a least one.
pub fn parts_are_whole()
    ensures whole { PartsAreWhole }
    ensures least { PartsFindLeast }
{}
