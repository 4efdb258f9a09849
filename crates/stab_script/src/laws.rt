//! Laws of edit scripts and their answers, and of single errors and ways. Each function does nothing: its contract is the law, and the check
//! proves it.
ghost use Rattle.stab_script.specs.ScriptLaws.{AnswersBeginWithAnswers, CircuitsCanBeEdited, FirstRepliesComeFirst, ScriptsHaveAnAnswer, ScriptsHaveOneAnswer};
ghost use Rattle.stab_script.specs.WayLaws.{SingleErrorsAreWays};

use stab_circuit::laws::{
    edited_items_are_of_lines, item_texts_are_lines, item_texts_have_one_meaning,
    lines_keep_qubits_distinct, split_items_are_of_lines, splits_leave_the_steps, texts_are_lines,
};
use stab_commands::laws::{coins_have_rows, deterministic_has_no_decider};
use stab_error_model::laws::circuits_have_distances;
use stab_regions::single_error_laws::{deterministic_parities, single_errors_flip_parities};
use stab_run::laws::{runs_are_points_with_outputs, runs_are_sound};
use stab_tableau::laws::{traces_have_one_list, traces_have_reduced_rows};
use stab_ways::laws::letters_flip_runs;

/// The items of a circuit's text can be edited on at least as many qubits as they name: lines stand
/// for them, and nothing refuses them.
pub fn circuits_can_be_edited()
    ensures law { CircuitsCanBeEdited }
{
    texts_are_lines();
}

/// A script, however long, has an answer on all items that can be edited, and it leaves items that can be.
pub fn scripts_have_an_answer()
    ensures law { ScriptsHaveAnAnswer }
{
    item_texts_have_one_meaning();
    item_texts_are_lines();
    edited_items_are_of_lines();
    splits_leave_the_steps();
    split_items_are_of_lines();
    runs_are_sound();
    traces_have_reduced_rows();
    deterministic_parities();
    coins_have_rows();
    deterministic_has_no_decider();
    circuits_have_distances();
    lines_keep_qubits_distinct();
}

/// A script that asks for no distance has at most one answer, on all items that can be edited. Of a distance several sets of
/// errors may be least.
pub fn scripts_have_one_answer()
    ensures law { ScriptsHaveOneAnswer }
{
    item_texts_have_one_meaning();
    item_texts_are_lines();
    edited_items_are_of_lines();
    splits_leave_the_steps();
    split_items_are_of_lines();
    runs_are_sound();
    traces_have_one_list();
}

/// What the first requests of a script are answered on items that can be edited, if none asks for a distance, begins what the
/// whole script is answered. So a run that was cut off after some replies wrote a prefix. If some do, each answer to the whole
/// script begins with some answer to its first requests.
pub fn first_replies_come_first()
    ensures law { FirstRepliesComeFirst }
    ensures begins { AnswersBeginWithAnswers }
{
    item_texts_have_one_meaning();
    item_texts_are_lines();
    edited_items_are_of_lines();
    splits_leave_the_steps();
    split_items_are_of_lines();
    runs_are_sound();
    traces_have_one_list();
}

/// Of a detector or observable that is the same for all random bits, `faults` and the way of a letter say the same: whether the letter
/// flips it, if it is put in there.
pub fn single_errors_are_ways()
    ensures law { SingleErrorsAreWays }
{
    runs_are_points_with_outputs();
    deterministic_parities();
    single_errors_flip_parities();
    letters_flip_runs();
}
