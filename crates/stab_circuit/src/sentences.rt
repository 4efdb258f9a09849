//! What is wrong with a word, and what to do: two sentences for each kind of word, in lines of fewer than
//! 100 characters.

// Names.

pub const NOT_CLIFFORD: &str =
    "This is no Clifford gate, and stabsim runs Clifford circuits alone.\n\
    Take the line out, or write gates that are read: H, S, SQRT_X, CX, CY, CZ, SWAP and the like.";

pub const PADDING: &str = "Padding is not read: each record is that of a measurement.\n\
    In place of MPAD 0 1 measure a qubit that no other line names, such as qubit 9:\n    R 9\n    M 9 !9";

pub const UNKNOWN_NAME: &str = "No instruction has this name.\n\
    Look at its spelling, or take the line out.";

pub const REWRITTEN: &str = "This instruction of Stim's is not read: others do the same.";

pub const BOTH_WAYS: &str = "A run has no noise. \
    In Python stabsim.without_noise(text) is the circuit without it,\n\
    and stabsim.error_model(text) says what its errors flip, with their chances.";

pub const ONE_WAY: &str = "A run has no noise. \
    In Python stabsim.without_noise(text) is the circuit without it.";

pub const BY_HAND: &str = "Take the line out, and count the records of later lookbacks anew: \
    each target made one.";

// Arguments.

pub const NO_ARGUMENTS: &str = "This instruction takes no arguments.\n\
    Take the brackets out.";

pub const NO_NOISY_MEASUREMENT: &str =
    "In brackets is the chance of a wrong record. This is noise, and a run has none.\n\
    Take the brackets out. In Python stabsim.without_noise(text) does so,\n\
    and stabsim.error_model(text) says what wrong records flip, with their chances.";

pub const NO_ROTATION: &str =
    "This is a reset, and takes no angle. Of rotations quarter turns alone are Clifford gates.\n\
    Take the brackets out; or write a quarter turn as SQRT_X, SQRT_Y or S, half a turn as X, Y or Z.";

pub const ONE_NUMBER: &str = "An observable has one number in brackets, and nothing else.\n\
    Write the number, as in OBSERVABLE_INCLUDE(0).";

pub const NO_COORDINATE: &str =
    "This is no coordinate: one has digits, +, -, ., e and E, at least one of them.\n\
    Write numbers with commas between them, as in (1, 2.5).";

pub const TRAILING_COMMA: &str = "A comma follows the last argument.\n\
    Take the comma out.";

// Targets.

pub const BRACKETS_SEPARATE: &str =
    "Brackets come directly after the name, with no spacing before them.\n\
    Take out the spacing before them.";

pub const NO_TARGETS: &str = "This instruction takes no targets.\n\
    Take the targets out.";

pub const NOT_INVERTED: &str =
    "`!` goes before the qubits of measurements and the factors of products alone.\n\
    Take the `!` out.";

pub const NO_RECORD_HERE: &str = "This instruction takes qubits, and no records.\n\
    Give it a qubit's number; a record comes first in a pair of CX, CY or CZ.";

pub const NO_SWEEP: &str = "A run has no sweep bits.\n\
    Write a qubit's number or a record rec[-k], or take the pair out.";

pub const RECORD_SECOND: &str = "A record comes first in its pair, and a qubit second.\n\
    Write the record before the qubit, as in CX rec[-1] 0.";

pub const NO_QUBIT: &str = "This is no qubit: a qubit is a number of decimal digits.\n\
    Write a number from 0 to 1023.";

pub const NO_CONTROL: &str =
    "This is no control: that is a qubit's number, or a record rec[-k] in lower case.\n\
    Write a number from 0 to 1023, or rec[-k] with k from 1 to 16777215.";

pub const NO_MEASURED_QUBIT: &str =
    "This is no qubit to be measured: that is a number, perhaps with one `!` before it.\n\
    Write a number from 0 to 1023, or as !0 to invert its record.";

pub const NO_RECORD: &str =
    "This is no record: that is rec[-k] in lower case, with k from 1 to 16777215.\n\
    Write rec[-1] for the last record, rec[-2] for the one before it, and so on.";

pub const PAULI_TARGET: &str =
    "This is a Pauli target: the observable has an operator here, and an operator is no record.\n\
    Measure it by M, MX, MY or MPP and include the record, or take the target out.";

pub const NO_FACTOR: &str =
    "This is no factor: that is X, Y or Z and a qubit, perhaps with one `!` before it.\n\
    Join factors by `*` with no spacing, as in X0*!Z1.";

pub const QUBIT_TWICE: &str = "This product has one qubit twice.\n\
    Multiply its factors out, so that each qubit is named once.";

pub const QUBIT_RANGE: &str =
    "This qubit's number is too great: qubits are numbered from 0 to 1023.\n\
    Renumber the qubits.";

pub const OBSERVABLE_RANGE: &str =
    "This observable's number is too great: observables are numbered from 0 to 4095.\n\
    Renumber the observables.";

// Pairs.

pub const ONE_QUBIT_PAIR: &str = "This pair has one qubit twice.\n\
    Give it two different qubits.";

pub const NO_PARTNER: &str = "Targets come in pairs here, and the last one has no partner.\n\
    Give each control its target, or take this one out.";

// Blocks.

pub const NO_BLOCK_OPEN: &str = "No block is open here.\n\
    Take the line out, or open its block by a line REPEAT n {.";

pub const NOT_CLOSED: &str = "This block is not closed.\n\
    Write a line } after its last instruction.";

pub const OPENS_NOTHING: &str = "REPEAT alone opens a block.\n\
    Take the { out, or write REPEAT and a count before it.";

pub const NO_COUNT: &str = "This block has no count of rounds.\n\
    Write the count after REPEAT, as in REPEAT 10 {.";

pub const SECOND_COUNT: &str = "A block has one count, and this is a second.\n\
    Leave one of them.";

pub const COUNT_SPELLING: &str = "This is no count: that is a number of decimal digits.\n\
    Write how many rounds the block runs, as in REPEAT 10 {.";

pub const COUNT_RANGE: &str = "A count is at least 1, and has at most 18 digits.\n\
    Write another count, or take the block out.";

pub const NO_BRACE: &str = "The block's { is missing.\n\
    Write { after the count, on the same line.";

pub const TOO_DEEP: &str = "This block would be nested over 16 deep.\n\
    Write inner blocks out.";

// Shapes.

pub const BYTE_ORDER_MARK: &str = "The text begins with a byte order mark.\n\
    Save the file as UTF-8 without it.";

pub const NO_NAME: &str = "An instruction begins with its name, and a name with a letter.\n\
    Write the name first, or `#` before a comment.";

pub const CLOSE_NOT_ALONE: &str = "A } is alone on its line.\n\
    Write what follows it on the next line.";

pub const OPEN_NOT_AFTER_COUNT: &str = "A { is last on the line of its REPEAT.\n\
    Write REPEAT, the count and { on one line.";

pub const TAG_NOT_CLOSED: &str =
    "This tag is not closed on its line, or a # in it begins a comment.\n\
    Write a ] after it, or take it out.";

pub const ARGUMENTS_NOT_CLOSED: &str = "These brackets are not closed on their line.\n\
    Write a ) after the arguments.";

pub const NOT_SEPARATE: &str = "Spacing is missing before this.\n\
    Write a space after the name, or after the closing bracket.";

pub const BRACE_WITHIN: &str =
    "A brace can't be within a line: { is the last byte of a REPEAT, and } is alone.\n\
    Write each instruction, and each }, on a line of its own.";

pub const NO_ASCII: &str =
    "This is no ASCII: a letter with an accent, a space or a dash of another kind, or the like.\n\
    Write it in ASCII. Other bytes may stand in tags and comments alone.";

// The whole text.

pub const TOO_LONG: &str = "The text has more than 16777216 bytes.\n\
    Write long circuits with fewer lines, and rounds that repeat as blocks.";

pub const LINE_NOT_READ: &str = "This line is not read.\n\
    See what instructions take.";

pub const LOOK_BACK_LESS: &str = "Measure first, or look back less far.";

pub const MAKE_SHORTER: &str = "Shorten it, or split the experiment.";
