//! Laws of strings that are put in. Each function does nothing: its contract is the law, and the check proves it.

ghost use Rattle.stab_ways.specs.Laws.{FixedOutcomesKeepCoins, LettersFlipRuns, StringsFlipRuns, TurnsAreStrings};

/// The run with a string put in, and exactly the coins of the random outcomes that it flips exchanged, is the run without
/// it, flipped; and its state after each step is the other's, with what the string is there applied.
pub fn strings_flip_runs()
    ensures law { StringsFlipRuns }
    ensures fixed { FixedOutcomesKeepCoins }
{}

/// The same of a letter that is put in as one gate.
pub fn letters_flip_runs()
    ensures law { LettersFlipRuns }
{}

/// What is listed of a string, at ticks or where it becomes another one, is the string there: by `strings_flip_runs`, what the state differs by.
pub fn turns_are_strings()
    ensures law { TurnsAreStrings }
{}
