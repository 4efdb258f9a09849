//! What edits of sessions cost.

ghost use Rattle.std.specs.Prelude.{◌≡◌, ℕ, Bool, false};
ghost use Rattle.stab_run.specs.Coins.{one_more};

use stab_circuit::{Path, Refused, read_circuit, read_item};
use stab_pauli::{Fault, MemoryInput};
use stab_session::{Coins, Edit, Report, Session};
use std::alloc::Global;
use std::test::Fail;

/// A session on one qubit with checkpoints at most twelve steps from each other.
fn opened<C: Coins>(alloc: Global, text: &str, coins: C) -> Result<Session<C>, Fault> {
    let circuit = read_circuit(alloc, &mut MemoryInput::new(text.as_bytes()))?;
    match Session::open(alloc, circuit, 1, 12, coins) {
        Ok(session) => Ok(session),
        Err(refused) => Err(refused.fault),
    }
}

/// Coins that are all 0, and count how often they are asked for.
#[derive(Drop)]
struct CountedCoins<'a> {
    asks: &'a mut u64,
}

impl Coins for CountedCoins<'_> {
    ghost sequence = { λ c t. false };

    ghost asks = { λ c. c.asks.now };

    fn coin(&mut self, _: u64) -> bool {
        *self.asks = self.asks.saturating_add(1);
        false
    }
}

/// The fault of a refused edit, whose item is let go.
fn fault_of(refused: Refused) -> Fault {
    refused.fault
}

/// Puts an item in at a place.
fn put<C: Coins>(
    alloc: Global,
    session: &mut Session<C>,
    place: Path,
    text: &str,
) -> Result<Report, Fault> {
    let item = read_item(alloc, text.as_bytes())?;
    match session.apply(Edit::Insert { place, item }) {
        Ok(report) => Ok(report),
        Err(refused) => Err(fault_of(refused)),
    }
}

/// Puts an item in at a place, if there is one, and says what that cost, or nothing.
fn put_where<C: Coins>(
    alloc: Global,
    session: &mut Session<C>,
    place: Option<Path>,
    text: &str,
) -> Result<[usize; 3], Fault> {
    match place {
        Some(place) => {
            let report = put(alloc, session, place, text)?;
            Ok([report.applied, report.by_frame, report.checkpoints])
        }
        None => Ok([0; 3]),
    }
}

/// The same of a session that is opened with these coins.
fn put_in<C: Coins>(
    alloc: Global,
    circuit: &str,
    place: Option<Path>,
    text: &str,
    coins: C,
) -> Result<[usize; 3], Fault> {
    let mut session = opened(alloc, circuit, coins)?;
    put_where(alloc, &mut session, place, text)
}

/// The steps that an edit carries out, those that a frame goes over, and the checkpoints that are stored, or none;
/// and how many coins the session asked for in all.
fn cost(
    alloc: Global,
    circuit: &str,
    place: Option<Path>,
    text: &str,
) -> Result<([usize; 3], u64), Fault> {
    let mut asks = 0;
    let report = put_in(
        alloc,
        circuit,
        place,
        text,
        CountedCoins { asks: &mut asks },
    )?;
    Ok((report, asks))
}

/// Whether these are the steps that an edit carries out and goes over, the most checkpoints that it leaves, and the coins that the opening
/// and then the edit ask for.
fn costs(
    alloc: Global,
    circuit: &str,
    place: Path,
    text: &str,
    (steps, copies, (opening, edit)): ([usize; 2], usize, (u64, u64)),
) -> Result<bool, Fault> {
    let (_, asked) = cost(alloc, circuit, None, text)?;
    let ([applied, by_frame, preserved], asks) = cost(alloc, circuit, Some(place), text)?;
    let asked_for = asked == opening && asks == opening.saturating_add(edit);
    Ok([applied, by_frame] == steps && preserved <= copies && asked_for)
}

/// The path of a position in the outermost list, or in a block of it.
fn path(block: Option<usize>, position: usize) -> Path {
    match block {
        Some(block) => Path::new(&[block, position]),
        None => Path::new(&[position]),
    }
}

/// What is put in, and where: in which block, or in none.
type Item = (Option<usize>, usize, &'static str);

// An edit whose flips die is followed as far as steps look back. The X flips the first record, and the reset after
// that ends the flip. Then come 38 measurements, and checkpoints before the steps 9, 18, 27 and 36, after 8, 17, 26
// and 35 records. So if nothing looks back both runs agree at the first checkpoint, before step 10 of the new ones;
// if a detector looks back to 15 records they do at the second one, after whose first record 16 more follow; and if
// it looks back to all, at none. A frame passes all of that, and no step is carried out.
//
// Two square roots of X do the same, and are no Pauli gates: steps are carried out up to the first checkpoint, before
// step 11, where both runs agree if nothing looks back. If a detector does, the first records differ there, so the
// other old checkpoints in the block are passed, and its rounds come again by themselves. If the detector looks back
// to 15 records, the state before step 29, after 26 records, is as it was before step 20, after 17: the next nine
// steps are repeated, and the last five carried out. If it looks back to all, no round comes again.
const DIES: &str = "M 0\nR 0\nREPEAT 38 {\nM 0\n}";

const DIES_NEAR: &str = "M 0\nR 0\nREPEAT 38 {\nM 0\n}\nDETECTOR rec[-15]";

const DIES_FAR: &str = "M 0\nR 0\nREPEAT 38 {\nM 0\n}\nDETECTOR rec[-39]";

const ROOTS: &str = "SQRT_X 0 0";

// A frame ends at a checkpoint too whose state its letters stabilise, with one of both signs, if it flipped no record
// that later steps look back to. The X flips the first record, and after the first measurement of X it stabilises.
// Checkpoints are placed as above: the first one shows it if nothing looks back, the second one after a detector that
// looks back to 15 records, and none if a detector looks back to all. Z stabilises a qubit that X gates alone act on;
// X stabilises it nowhere, so its frame goes on up to the end, though it flips nothing.
const SETTLES: &str = "M 0\nREPEAT 39 {\nMX 0\n}";

const SETTLES_NEAR: &str = "M 0\nREPEAT 39 {\nMX 0\n}\nDETECTOR rec[-15]";

const SETTLES_FAR: &str = "M 0\nREPEAT 39 {\nMX 0\n}\nDETECTOR rec[-40]";

const STILL: &str = "REPEAT 100 {\nX 0\n}";

// A measurement or reset that is put in gives all later records or coins other numbers. If no coin decides after a
// checkpoint and nothing looks back, the old run stays nevertheless, from the first checkpoint on, before step 10
// of the new ones. If a detector looks back to 15 records, of which one run has eight there and the other nine, the
// other old checkpoints in the block are passed: the state before step 28, after 27 records, is as it was before step
// 19, after 18; the next nine steps are repeated, and the last five carried out. If a detector looks back to all, no
// round comes again. A reset makes a 0 of a 1, so the states differ at the first checkpoint; before step 19 the state
// is as it was before step 10, so twice nine steps are repeated, and the last four carried out. If a coin decides
// after each checkpoint, all 2,001 steps are carried out.
const ONES: &str = "X 0\nREPEAT 39 {\nM 0\n}";

const ONE_COIN: &str = "REPEAT 40 {\nMX 0\n}";

const TWO_BLOCKS: &str = "REPEAT 10 {\nX 0\nX 0\n}\nREPEAT 1000 {\nX 0\n}";

const FREE: &str = "REPEAT 1000 {\nMX 0\nM 0\n}";

// Circuits on one qubit, with checkpoints at most twelve steps from each other, and what is put in where. Then how
// many steps the edit carries out, how many others it goes past, and the most checkpoints that are stored, two for each
// twelve steps and two more; how many coins the opening asks for, and how many the edit.
//
// An I changes nothing: from the checkpoint before it on its frame, which has no letter, goes past the steps up to
// the next checkpoint, or to the end. Checkpoints are nine steps from each other, three quarters of twelve. In the
// first block of two that is not so: with an I in each of its ten rounds its checkpoints would be too far from each
// other: its frame goes in vain over the 19 old steps from the first I to the block's end. So the rounds are carried
// out; after the 18th step the state is that after the 9th, three rounds before, so the next nine steps are repeated,
// and ten more come to the old checkpoint after step 27, which has become step 37.
const COSTS: &[(&str, Item, [usize; 2], usize, (u64, u64))] = &[
    (STILL, (None, 1, "I 0"), [0, 2], 18, (0, 0)),
    (
        "X 0\nREPEAT 1000 {\nX 0\n}",
        (None, 0, "I 0"),
        [0, 10],
        168,
        (0, 0),
    ),
    (TWO_BLOCKS, (Some(0), 1, "I 0"), [28, 9 + 19], 172, (0, 0)),
    (FREE, (None, 0, "I 0"), [0, 10], 334, (2000, 0)),
    (DIES, (None, 0, "X 0"), [0, 10], 8, (0, 0)),
    (DIES_NEAR, (None, 0, "X 0"), [0, 19], 8, (0, 0)),
    (DIES_FAR, (None, 0, "X 0"), [0, 42], 8, (0, 0)),
    (SETTLES, (None, 0, "X 0"), [0, 10], 8, (1, 0)),
    (SETTLES_NEAR, (None, 0, "X 0"), [0, 19], 8, (1, 0)),
    (SETTLES_FAR, (None, 0, "X 0"), [0, 42], 8, (1, 0)),
    (STILL, (None, 0, "Z 0"), [0, 10], 18, (0, 0)),
    (STILL, (None, 0, "X 0"), [0, 101], 18, (0, 0)),
    (DIES, (None, 0, ROOTS), [11, 0], 8, (0, 0)),
    (DIES_NEAR, (None, 0, ROOTS), [34, 9], 8, (0, 0)),
    (DIES_FAR, (None, 0, ROOTS), [43, 0], 8, (0, 0)),
    (DIES, (None, 0, "M 0"), [10, 0], 8, (0, 0)),
    (DIES_NEAR, (None, 0, "M 0"), [33, 9], 8, (0, 0)),
    (DIES_FAR, (None, 0, "M 0"), [42, 0], 8, (0, 0)),
    (ONE_COIN, (None, 0, "M 0"), [10, 0], 8, (1, 1)),
    (ONES, (None, 1, "R 0"), [23, 18], 8, (0, 0)),
    (FREE, (None, 0, "M 0"), [2001, 0], 334, (2000, 2000)),
];

#[test]
fn an_edit_costs_what_it_changes(rt: HostRuntime) -> Result<(), Fail> {
    for &(circuit, (block, position, text), steps, copies, coins) in COSTS {
        let wanted = (steps, copies, coins);
        let right = costs(rt.alloc(), circuit, path(block, position), text, wanted)?;
        assert!(rt; right, "{text} in {circuit}");
    }
    Ok(())
}
