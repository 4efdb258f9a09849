//! What the help says: of the program, of each command, and of each option.

/// The version of the program, and the logic in which it was proved.
pub(crate) const VERSION: &str = "0.2.0\nproved in the logic dac8208d650f15bf of Rattle";

pub(crate) const ABOUT: &str = "Simulates Clifford circuits by the stabiliser rules";

pub(crate) const ABOUT_SAMPLE: &str = "Writes the records of each shot of a circuit";

pub(crate) const ABOUT_DETECT: &str = "Writes the detectors of each shot of a circuit";

pub(crate) const ABOUT_STABILISERS: &str =
    "Writes the stabilisers of the state that a circuit leaves";

pub(crate) const ABOUT_CHECK: &str = "Says what a circuit is, or what is wrong with it and where";

pub(crate) const ABOUT_DETERMINISTIC: &str =
    "Says which detectors and observables are the same for all coins";

pub(crate) const ABOUT_FAULTS: &str = "Says which detectors and observables each fault flips";

pub(crate) const ABOUT_COINS: &str =
    "Says which records, detectors and observables each coin flips";

pub(crate) const ABOUT_DISTANCE: &str =
    "Finds the least number of errors that flip an observable and no detector";

pub(crate) const ABOUT_PROPAGATE: &str =
    "Says what a Pauli string becomes that is put in, and what it flips";

pub(crate) const ABOUT_PROPAGATE_EACH: &str =
    "Says what each error flips, and which Pauli string it leaves at the end";

pub(crate) const ABOUT_EDIT: &str =
    "Edits a circuit by a script, and writes the reply to each line";

pub(crate) const AFTER: &str = "\
A circuit is Stim's circuit text without noise (docs/use/circuit-text.md), of at most 1024 qubits and
1048576 steps once its blocks are unrolled. Without --in it is read from standard input, except by `edit`,
whose circuit is then empty. The status is 0 without a fault, 1 if a circuit, a file, a pipe or memory was
refused, and 2 for bad arguments; `edit` ends with 3 if it refused a line of its script.

Example, at the top of the repository:
  ./stabsim sample --shots 3 --in examples/bell.stim

Detectors and observables are raw parities of records: no reference sample is subtracted.
Refusals, by number and name, are explained in docs/use/refusals.md, and coins in docs/use/coins.md.
";

pub(crate) const AFTER_SAMPLE: &str = "\
Example, at the top of the repository:
  ./stabsim sample --shots 3 --seed 5 --in examples/bell.stim

Records are raw: no reference sample is subtracted.
Refusals, by number and name, are explained in docs/use/refusals.md, and coins in docs/use/coins.md.
";

pub(crate) const AFTER_DETECT: &str = "\
Example, at the top of the repository:
  ./stabsim detect --append_observables --out_format dets --in examples/repetition_code.stim

Detectors and observables are raw parities of records: no reference sample is subtracted.
Refusals, by number and name, are explained in docs/use/refusals.md, and coins in docs/use/coins.md.
";

pub(crate) const AFTER_STABILISERS: &str = "\
Example, at the top of the repository:
  ./stabsim stabilisers --in examples/steane_code.stim

Rows are reduced: circuits that lead to the same state are written alike. See docs/use/results.md.
The command is found as `stabilizers` too.
Refusals, by number and name, are explained in docs/use/refusals.md, and coins in docs/use/coins.md.
";

pub(crate) const AFTER_EDIT: &str = "\
The script is read from standard input, and each reply is written before the next line is read.
Without --in the circuit is empty. It has the qubits that it names and no more: to insert a gate on
another one, or into the empty circuit, ask for them by --qubits, or it is refused 6. The status is 3
if a line of the script was refused.

  insert 0 H 0          inserts an item before item 0; after all items if the place is their number
  insert 1 REPEAT 3 {   inserts a block, whose lines follow, up to the } that closes it
  replace 3 CX 0 1      puts an item in place of item 3
  delete 2/0            takes out item 0 of the block that is item 2
  show measurements     the records
  show free             1 for each measured or reset target whose outcome a coin decided
  show detectors        their bits
  show observables      their bits
  show stabilisers      the reduced rows, one a line
  show circuit          the circuit as it is now

With --framed a program reads the replies: the first line is `ready 1` and numbers of qubits, steps,
records, detectors and observables; each reply that is no refusal begins with a line `ok N`, and N lines
follow. It may also ask for these, which are refused 13 without it:

  show numbers          one line, as the first one has them
  mark                  changes are counted from here; at first they are from the opening
  split 2 5             makes round 5 of the block that is item 2, from 0, a block by itself
  show changed          detectors and observables that differ from those at the mark, as D3 D17 L0
  show changed records  the same for records, as M7 M9
  show sign X0*Z3       + or -, or 0 if neither is in the group; also -X0, or a letter a qubit
  show item 2/0         the text of the item
  show place 2/0        its first unrolled step and how many, and so of records, detectors and coins
  show deterministic    1 for each detector and observable that is the same for all coins
  show why D37          the coins that decide a detector or observable, in the words of --explain
  show coins            what each coin flips, in the words of `coins`
  show way 2/0 X0*Z3    what a string becomes that is put in at a place, in the words of `propagate`
  show distance 5       the distance if it is at most 5; show distance 5 everywhere takes errors everywhere

Examples, at the top of the repository; without --qubits 1 the first line of the first is refused 6:
  printf 'insert 0 X 0\\ninsert 1 M 0\\nshow measurements\\n' | ./stabsim edit --qubits 1
  ./stabsim edit --in examples/repetition_code.stim < examples/inserted_x.script

Scripts are explained in docs/use/editing.md, refusals in docs/use/refusals.md, and coins in
docs/use/coins.md.
";

pub(crate) const AFTER_CHECK: &str = "\
Examples, at the top of the repository:
  ./stabsim check --in examples/steane_code.stim
  printf 'H 0\\nFOO 1\\n' | ./stabsim check

It writes how many qubits, items, steps, records, detectors, observables and coins the circuit has, a line
each, and runs nothing. Of a circuit that is refused it writes what is wrong and where, also over an older
file of --out; the refusal itself goes to standard error, as with every command, and the status is 1.
Refusals, by number and name, are explained in docs/use/refusals.md.
";

pub(crate) const AFTER_DETERMINISTIC: &str = "\
It writes one bit for each detector and then for each observable, in the order of `detect` with
--append_observables: 1 if its bit is the same for all coins, as `faults` wants it.

With --explain it writes lines in place of bits, and --out_format changes nothing. Each detector and
observable that is not the same for all coins has a line: its name, the path of its first item, a
detector's coordinates, and the coins that decide it, each with the path of its measurement or reset, as in

  D37 69 (1, 3, 2) c12@12 c40@66/3

Coordinates are those of the DETECTOR's line: shifts by SHIFT_COORDS are not added.

Examples, at the top of the repository:
  ./stabsim deterministic --in examples/repetition_code.stim
  printf 'MX 0 0\\nDETECTOR rec[-1]\\n' | ./stabsim deterministic --explain

See docs/use/faults.md and docs/use/coins.md. Refusals, by number and name, are explained in
docs/use/refusals.md.
";

pub(crate) const AFTER_FAULTS: &str = "\
A fault is a Pauli X or Z that goes wrong on one qubit between two steps. A circuit marks the places of
faults by I: X and then Z is tried there at each target. Each fault has a line: how many steps come before
it, the path of the item that it is at, the Pauli, and what flips, as in

  1207 3/0/2 X17 D24 D31 L0

With --out_format each fault is a shot over all detectors and then all observables.
A circuit in which one of these depends on the coins is refused 18: --deterministic_only leaves it out.
That option is found as --sure_only too.

Examples, at the top of the repository:
  ./stabsim faults --in examples/surface_code_with_faults.stim
  printf 'R 0\\nI 0\\nM 0\\nDETECTOR rec[-1]\\n' | ./stabsim faults

See docs/use/faults.md. Refusals, by number and name, are explained in docs/use/refusals.md.
";

pub(crate) const AFTER_COINS: &str = "\
A coin decides the outcome of a random measurement or reset. Each has a line: how many steps come before it
once blocks are unrolled, the path of its item, its number, and the records, detectors and observables that
it flips, as in

  17 3/0 c12 M4 M9 D2 L0

A run is the one whose coins are all 0, with the bits flipped that an odd number of its coins 1 flip.
With --out_format each coin is a shot over all records, then all detectors, and then all observables.

Examples, at the top of the repository:
  ./stabsim coins --in examples/teleportation.stim
  printf 'H 0\\nCX 0 1\\nM 0 1\\n' | ./stabsim coins

See docs/use/coins.md. Refusals, by number and name, are explained in docs/use/refusals.md.
";

pub(crate) const AFTER_PROPAGATE: &str = "\
Each item after which the string is another one has a line, in each round: how many steps come before the
item's end once blocks are unrolled, the item's path, and the string there. Then come the records, detectors
and observables that it flips, and the string at the end; a string without letters is 1:

  1207 3/0/2 X3*Z4
  flips M3 D24 L0
  left X3

PAULI is a product such as X3*Z4, or a letter for each qubit such as X__Z. PLACE is a path such as 3/0/2, in
front of that item, in the first round of each block around it; @1207 is after that many steps, and the number
of items of the circuit is its end.

With --every these lines are those of the ticks (TICK) from the place on, in each round, also where the string is as
it was; the path is that of the last item with a step before the tick. A block without steps counts once.

A measurement that anticommutes with the string is flipped, also if its outcome is random: with the coins of
these outcomes exchanged, the run with the string is the run without it, flipped so.

Example, at the top of the repository:
  printf 'R 0 1\\nCX 0 1\\nM 0 1\\n' | ./stabsim propagate --at 1 X0

See docs/use/faults.md. Refusals, by number and name, are explained in docs/use/refusals.md.
";

pub(crate) const AFTER_PROPAGATE_EACH: &str = "\
Errors are those of `faults`: X and Z at each target of I, or with --everywhere at each gate, measurement and
reset. Each has a line: how many steps come before it, the path of the item that it is at, the Pauli, the records,
detectors and observables that it flips, and the string that it leaves at the end, 1 if it has no letter, as in

  1207 3/0/2 X17 M3 D24 L0 left X3*Z4

That is what `propagate` says of this Pauli there. A measurement that anticommutes with the string is flipped, also
if its outcome is random.

Example, at the top of the repository:
  printf 'R 0 1\\nI 0\\nCX 0 1\\nM 1\\n' | ./stabsim propagate_each

See docs/use/faults.md. Refusals, by number and name, are explained in docs/use/refusals.md.
";

pub(crate) const AFTER_DISTANCE: &str = "\
Errors are those that the circuit marks by I: X, Y and Z at each target. A tag narrows them: I[X], I[Y] and
I[Z] mark that letter, I[XZ] marks X and Z, and I[pairs] the fifteen products of two letters on each pair of
targets. With --everywhere errors are those of circuit-level noise: after each gate and reset, before each
measured qubit, and each record wrong by itself.

The answer is exact, for any code: `distance W of all marked errors` and then W errors, each on a line such as
`faults` writes, if no fewer errors flip an observable and no detector; or `none up to W`, with --most W; or
`none`, if no set of errors does. The time grows by a factor with each further error. With --observable 0 the set
flips observable 0, and the first line ends in `for L0`; --each answers so for each observable in turn. With
--graphlike the answer is for those errors alone that flip at most two detectors, and its first line says so. The X
and the Z at each of its qubits take the place of an error that flips more. With --count one line more, `count N`,
says how many sets are such a least one, 0 if none is: the more there are, the longer it takes. It is not beside
--graphlike, --each, --table or --wcnf. With --table all these errors are written in place of an answer, so that
anyone can add up what a set flips; it is not beside --observable, --each, --most or --progress, nor --each beside
--observable or --progress. With --wcnf they are written as a problem for MaxSAT solvers: the least weight that an
assignment breaks is the distance, and the first variables that are true are a set. It is beside --everywhere,
--letters and --deterministic_only alone.
A circuit in which a detector or observable depends on the coins is refused 18: --deterministic_only leaves
it out. That option is found as --sure_only too.

Examples, at the top of the repository:
  ./stabsim distance --in examples/surface_code_with_faults.stim
  ./stabsim distance --everywhere --letters XZ --progress --in examples/repetition_code.stim

See docs/use/faults.md. Refusals, by number and name, are explained in docs/use/refusals.md.
";

pub(crate) const SHOTS: &str = "How many shots, from 0 to 1000000";

pub(crate) const FIRST_SHOT: &str =
    "Begins at this shot of the seed in place of shot 0, so that a run in parts writes the bytes of one";

pub(crate) const FORMAT: &str = "The result format, as docs/use/results.md explains it";

pub(crate) const FAULT_LAYOUT: &str =
    "Writes each fault as a shot in this result format, in place of a line";

pub(crate) const COIN_LAYOUT: &str =
    "Writes each coin as a shot in this result format, in place of a line";

pub(crate) const EVERYWHERE: &str =
    "Tries faults at each gate, measurement and reset, in place of the marked places";

pub(crate) const NOISE: &str =
    "Takes the errors of circuit-level noise, in place of the marked ones";

pub(crate) const LETTERS: &str = "Takes errors of all letters, or those of X alone and of Z alone";

pub(crate) const MOST: &str =
    "Looks for at most this many errors, from 0 to 1000000000; for any number if not given";

pub(crate) const GRAPHLIKE: &str =
    "Takes only errors that flip at most two detectors, which is quick for large codes";

pub(crate) const OBSERVABLE: &str =
    "Looks for errors that flip this observable, from 0 to 4095; any if not given";

pub(crate) const EACH: &str =
    "Looks for errors that flip each observable of the circuit in turn, and answers for each";

pub(crate) const TABLE: &str =
    "Writes the errors to be searched, a line each with what it flips, and searches none";

pub(crate) const WCNF: &str =
    "Writes the errors to be searched as a problem for MaxSAT solvers, and searches none";

pub(crate) const EVERY: &str =
    "Writes the string at every tick from the place on, in place of where it changes";

pub(crate) const COUNT: &str = "Writes after the answer how many least sets there are, as count N";

pub(crate) const PART: &str =
    "Searches part K of N, and writes what it finds, for all parts together";

pub(crate) const PROGRESS: &str =
    "Writes each number of errors that is excluded to standard error at once";

pub(crate) const EXPLAIN: &str =
    "Writes which coins decide each bit that is not the same for all coins, a line each";

pub(crate) const DETERMINISTIC_ONLY: &str =
    "Leaves out detectors and observables that are not the same for all coins";

pub(crate) const SEED: &str = "The seed of the coins that decide free outcomes";

pub(crate) const COINS: &str =
    "The coins of each shot, as characters 0 and 1; the seed is then ignored";

pub(crate) const COINS_IN: &str = "Reads the coins of each shot from a file of characters 0 and 1, \
    at most 16777216 bytes, in place of --coins; the seed is then ignored";

pub(crate) const IN: &str = "Reads the circuit from a file in place of standard input";

pub(crate) const IN_OF_EDIT: &str = "Reads the circuit from a file in place of the empty circuit";

pub(crate) const OUT: &str =
    "Writes to a file in place of standard output, and never to one that is read. \
    An older file is kept until there is output: a run that is refused leaves it, and one that fails \
    later leaves what it wrote";

pub(crate) const APPEND: &str = "Appends the observables to the detectors";

pub(crate) const FRAMED: &str =
    "For programs: the first line has numbers, each reply says first how many \
    lines it has, and more can be asked for";

pub(crate) const QUBITS: &str =
    "How many qubits, from 0 to 1024; those that the circuit names if not given";

pub(crate) const STRIDE: &str = "How many steps lie between two checkpoints, from 1 to 65536: \
    fewer take more memory and make edits quicker, and change no reply. The default suits circuits \
    up to the limits; at 1 a session of a million steps took 9.9 GB";

pub(crate) const AT: &str = "The place: a path such as 3/0/2, or @1207 after that many steps";

pub(crate) const PAULI: &str = "The string, such as X3*Z4";
