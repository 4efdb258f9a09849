//! Laws of circuit texts. Each function does nothing: its contract is the law, and the check
//! proves it.

ghost use Rattle.stab_circuit.specs.Laws.{CircuitsHaveNoFault, EachTextHasAMeaning, EditedItemsAreOfLines, EditsChangeEachRound, EditsLeaveTheRest, ItemTextsAreLines, ItemTextsHaveOneMeaning, LinesKeepQubitsDistinct, PrintedItemsAreReadBack, SplitItemsAreOfLines, SplitsLeaveTheSteps, StepsHaveOnePath, TakenItemsAreOfLines, TextsAreLines, TextsAreOfOneCircuit, TextsHaveOneFault, TextsHaveOneMeaning};

/// A text without a faulty line stands for one list of items, and for no other.
pub fn texts_have_one_meaning()
    ensures law { TextsHaveOneMeaning }
{}

/// What is printed of the items of any lines, however many, none of them faulty, stands for these
/// items and for no others, if it is no longer than a circuit text may be. The lines need not
/// come from one text; so this holds for circuits that were put together from several.
pub fn printed_items_are_read_back()
    ensures law { PrintedItemsAreReadBack }
{}

/// The lines of a text that stands for items are such lines. So `read_circuit` reads back what
/// `write_circuit` wrote.
pub fn texts_are_lines()
    ensures law { TextsAreLines }
{}

/// In the steps of the items of any such lines the two qubits of each pair differ, and so do the
/// qubits of each product.
pub fn lines_keep_qubits_distinct()
    ensures law { LinesKeepQubitsDistinct }
{}

/// One item's text without a fault stands for one item, and for no other.
pub fn item_texts_have_one_meaning()
    ensures law { ItemTextsHaveOneMeaning }
{}

/// The lines of one item's text stand for the item: so the item that `read_item` gives is of lines.
pub fn item_texts_are_lines()
    ensures law { ItemTextsAreLines }
{}

/// Every text is that of a circuit or has a fault.
pub fn each_text_has_a_meaning()
    ensures law { EachTextHasAMeaning }
{}

/// A text is that of at most one circuit.
pub fn texts_are_of_one_circuit()
    ensures law { TextsAreOfOneCircuit }
{}

/// A text has at most one fault.
pub fn texts_have_one_fault()
    ensures law { TextsHaveOneFault }
{}

/// The text of a circuit has no fault.
pub fn circuits_have_no_fault()
    ensures law { CircuitsHaveNoFault }
{}

/// An edit leaves the steps before the first changed one, and those after the outermost item
/// around its place: after the block in the outermost list, or after what is put into that list
/// or taken out of it.
pub fn edits_leave_the_rest()
    ensures law { EditsLeaveTheRest }
{}

/// An edit changes each round of the blocks around its place: from the first changed step to the end
/// of the outermost block, what is taken out, and what is put in, come before the same steps
/// in each round.
pub fn edits_change_each_round()
    ensures law { EditsChangeEachRound }
{}

/// A round of a block that is split off, so that it is a block by itself with the other rounds in
/// blocks before and after it, leaves the steps, the depth of blocks, and the greatest numbers that
/// are named: so nothing that a run gives changes, and nothing refuses it.
pub fn splits_leave_the_steps()
    ensures law { SplitsLeaveTheSteps }
{}

/// An edit of items of lines that puts in an item of lines, and nests no block too deep, leaves
/// items of lines. So what is printed of a circuit after any edits is read back as that circuit
/// (`printed_items_are_read_back`), if it is no longer than a circuit text may be.
pub fn edited_items_are_of_lines()
    ensures law { EditedItemsAreOfLines }
{}

/// Items of lines stay items of lines when a round is split off.
pub fn split_items_are_of_lines()
    ensures law { SplitItemsAreOfLines }
{}

/// An item that an edit takes out of items of lines is of lines, so that it may be put in again.
pub fn taken_items_are_of_lines()
    ensures law { TakenItemsAreOfLines }
{}

/// Each unrolled step of items is of one item: there are as many paths as steps.
pub fn steps_have_one_path()
    ensures law { StepsHaveOnePath }
{}
