//! Which rounds that are written out an edit leaves.

ghost use Rattle.std.specs.Prelude.{◌≡◌, None, OnOk, IfOk};
ghost use Rattle.stab_items.specs.Steps.{unroll, check_of};
ghost use Rattle.stab_items.specs.Views.{circuit_items};
ghost use Rattle.stab_items.specs.Repeats.{AreRepeats};

use crate::circuit_edits::{Call, edit_of};
use stab_circuit::{Circuit, Edit, Path, Refused, read_circuit};
use stab_items::Repeat;
use stab_pauli::{Fault, MemoryInput};
use stab_run::{edited_rounds, find_rounds};
use std::alloc::Global;
use std::test::Fail;

/// A round of four steps, each a line of its own, so that positions in the circuit are the numbers of its steps.
const ROUND: &str = "X 1\nM 0\nM 1\nDETECTOR rec[-1] rec[-2]\n";

/// How many rounds are written out, one after the other from step 0 on. They look back to two records.
const ROUNDS: usize = 2500;

/// Edits one after the other, each at a place with a line, and then the first step and the number of rounds of each stretch of
/// rounds that they leave.
type Case = (
    &'static [(Call, usize, &'static str)],
    &'static [(usize, usize)],
);

const CASES: &[Case] = &[
    (&[], &[(0, 2500)]),
    // In the first round, which is left out: the second one begins at step 4, where one more or one fewer step is before it.
    (&[(Call::Insert, 1, "H 0")], &[(5, 2499)]),
    (&[(Call::Replace, 0, "Y 1")], &[(4, 2499)]),
    (&[(Call::Delete, 0, "")], &[(3, 2499)]),
    // In the round that begins at step 5,000, after 1,250 others: 1,249 come after it.
    (&[(Call::Insert, 5001, "H 0")], &[(0, 1250), (5005, 1249)]),
    (&[(Call::Replace, 5001, "M !0")], &[(0, 1250), (5004, 1249)]),
    (&[(Call::Delete, 5001, "")], &[(0, 1250), (5003, 1249)]),
    // In the last round, which begins at step 9,996.
    (&[(Call::Insert, 9997, "H 0")], &[(0, 2499)]),
    (&[(Call::Replace, 9999, "DETECTOR rec[-1]")], &[(0, 2499)]),
    (&[(Call::Delete, 9999, "")], &[(0, 2499)]),
    // Where one round ends and another one begins.
    (&[(Call::Insert, 5000, "H 0")], &[(0, 1250), (5001, 1250)]),
    // Steps that are as before, or are so again, make the rounds around them one.
    (&[(Call::Insert, 5000, "TICK")], &[(0, 2500)]),
    (&[(Call::Replace, 5001, "M 0")], &[(0, 2500)]),
    (
        &[(Call::Insert, 5001, "H 0"), (Call::Delete, 5001, "")],
        &[(0, 2500)],
    ),
    (
        &[(Call::Delete, 5001, ""), (Call::Insert, 5001, "M 0")],
        &[(0, 2500)],
    ),
    (
        &[(Call::Insert, 0, "H 0"), (Call::Delete, 0, "")],
        &[(0, 2500)],
    ),
    // Two edits leave three stretches, and taking one back joins the first two.
    (
        &[(Call::Insert, 4001, "H 0"), (Call::Insert, 6002, "H 0")],
        &[(0, 1000), (4005, 499), (6006, 999)],
    ),
    (
        &[
            (Call::Insert, 4001, "H 0"),
            (Call::Insert, 6002, "H 0"),
            (Call::Delete, 4001, ""),
        ],
        &[(0, 1500), (6005, 999)],
    ),
];

/// The rounds as they are written out.
fn written(alloc: Global) -> Result<Circuit, Fault>
    ensures checked { IfOk result (λ c. check_of (circuit_items c) ≡ None) }
{
    let mut text = Vec::new(alloc);
    for _ in 0..ROUNDS {
        text.extend_from_slice(ROUND.as_bytes())?;
    }
    read_circuit(alloc, &mut MemoryInput::new(text.as_slice()))
}

/// The fault of a refused edit, whose item is let go.
fn fault_of(refused: Refused) -> Fault {
    refused.fault
}

/// Makes an edit, and gives the rounds that it leaves of those before it.
fn left_of(
    alloc: Global,
    circuit: &mut Circuit,
    rounds: &[Repeat],
    edit: Edit,
) -> Result<Vec<Repeat>, Fault>
    requires checked { check_of (circuit_items circuit.old) ≡ None }
    requires are { AreRepeats 0 (unroll (circuit_items circuit.old)) rounds.now }
    ensures checked { OnOk result (check_of (circuit_items circuit.new) ≡ None) }
    ensures are { IfOk result (λ rs. AreRepeats 0 (unroll (circuit_items circuit.new)) rs.items) }
{
    let (span, _) = match circuit.edit(2, edit) {
        Ok(done) => done,
        Err(refused) => return Err(fault_of(refused)),
    };
    match edited_rounds(alloc, circuit, rounds, span) {
        Ok(left) => Ok(left),
        Err(refusal) => Err(Fault::whole(refusal)),
    }
}

/// Makes edits one after the other, and gives the rounds that they leave of those that are found before.
fn left_after(
    alloc: Global,
    circuit: &mut Circuit,
    edits: &[(Call, usize, &str)],
) -> Result<Vec<Repeat>, Fault>
    requires checked { check_of (circuit_items circuit.old) ≡ None }
    ensures checked { OnOk result (check_of (circuit_items circuit.new) ≡ None) }
{
    let mut rounds = match find_rounds(alloc, circuit) {
        Ok(found) => found,
        Err(refusal) => return Err(Fault::whole(refusal)),
    };
    'editing: for &(call, place, line) in edits {
        let edit = edit_of(alloc, call, Path::new(&[place]), line)?;
        rounds = left_of(alloc, circuit, rounds.as_slice(), edit)?;
    }
    Ok(rounds)
}

/// Whether these are rounds of the written ones, each from a first step on and as many as are said.
fn are(rounds: &[Repeat], wanted: &[(usize, usize)]) -> bool {
    if rounds.len() != wanted.len() {
        return false;
    }
    for (index, round) in rounds.iter().enumerate() {
        let same = Repeat {
            first: wanted[index].0,
            length: 4,
            rounds: wanted[index].1,
            window: 2,
        };
        if *round != same {
            return false;
        }
    }
    true
}

/// How many steps rounds have.
fn covered(rounds: &[Repeat]) -> usize {
    let mut steps: usize = 0;
    for round in rounds {
        steps = steps.saturating_add(round.rounds.saturating_mul(round.length));
    }
    steps
}

/// What an edit leaves is given by hand. A search in the edited circuit finds no more, and may find
/// less, since it may begin a round or two after the first.
#[test]
fn an_edit_leaves_the_rounds_around_it(rt: HostRuntime) -> Result<(), Fail> {
    let alloc = rt.alloc();
    for &(edits, wanted) in CASES {
        let mut circuit = written(alloc)?;
        let left = left_after(alloc, &mut circuit, edits)?;
        let right = are(left.as_slice(), wanted);
        assert!(rt; right, "after {} edits: {:?}", edits.len(), left.as_slice());
        let found = find_rounds(alloc, &circuit)?;
        let no_more = covered(found.as_slice()) <= covered(left.as_slice());
        assert!(rt;
            no_more,
            "found after {} edits: {:?}",
            edits.len(),
            found.as_slice()
        );
    }
    Ok(())
}
