//! Marks that may be meant in another way.
ghost use Rattle.std.specs.Prelude.{◌≡◌, ◌≤◌, ◌<◌, ◌+◌, ◌++◌, None, All, bytes_eq, codes, map, length, OnOk, IfOk, IfErr};
ghost use Rattle.std.specs.List.{list_all, list_any};
ghost use Rattle.std.specs.Char.{to_ascii_lowercase};
ghost use Rattle.stab_io.specs.declared.refusal.Refusal.TheVariants.{OutOfMemory};
ghost use Rattle.stab_items.specs.Items.{before, done, listed};
ghost use Rattle.stab_items.specs.Steps.{check_of, most_steps, unroll};
ghost use Rattle.stab_items.specs.Views.{circuit_items};
ghost use Rattle.stab_error_model.specs.Errors.{marks_by, marks_of};
ghost use Rattle.stab_error_model.specs.Doubts.{doubt_about, doubt_about_pairs, doubtful, doubts_at, doubts_from, is_almost_plain, is_axis_byte, plain_tags};

use crate::marks::is_idle;
use crate::tags::is_pairs;
use stab_circuit::{Circuit, Item};
use stab_instructions::{Kind, Qubit};
use stab_io::Refusal;
use stab_items::Part;
use std::alloc::{AllocError, Global};

/// Why a mark may be meant in another way.
#[derive(Clone, Copy)]
pub enum Doubt {
    /// Its tag is almost one that says which letters are marked, but isn't one, so that each letter is marked.
    Tag,
    /// It marks pairs of targets, and the last target has no partner, so that it is marked by itself.
    LastTarget,
    /// It marks pairs of targets, and two of one pair are the same qubit.
    SameQubit,
}

/// A mark that may be meant in another way: why, and the number of the first step of its instruction.
#[derive(Clone, Copy)]
pub struct DoubtfulMark {
    pub doubt: Doubt,
    pub step: usize,
}

/// Whether a byte is X, Y or Z, in either case.
fn is_axis_byte(byte: u8) -> bool
    ensures value { result ≡ is_axis_byte byte }
{
    let lower = byte.to_ascii_lowercase();
    lower == b'x' || lower == b'y' || lower == b'z'
}

/// Whether a tag has such letters alone.
fn has_letters_alone(tag: &[u8]) -> bool
    ensures value { result ≡ list_all is_axis_byte tag.now }
{
    'bytes: for k in 0..tag.len() {
        if !is_axis_byte(tag[k]) {
            return false;
        }
    }
    true
}

/// Whether a tag is `pairs`, in whatever case.
fn is_pairs_in_a_case(tag: &[u8]) -> bool
    ensures value { result ≡ bytes_eq (map to_ascii_lowercase tag.now) (codes "pairs") }
{
    tag.eq_ignore_ascii_case(b"pairs")
}

/// Whether a tag says what is marked, or there is none.
fn is_plain(tag: &[u8]) -> bool
    ensures value { result ≡ list_any (bytes_eq tag.now) plain_tags }
{
    tag == b"".as_slice()
        || tag == b"X".as_slice()
        || tag == b"Y".as_slice()
        || tag == b"Z".as_slice()
        || tag == b"XZ".as_slice()
        || tag == b"XYZ".as_slice()
        || tag == b"pairs".as_slice()
}

/// Whether a tag is almost one that says what is marked.
fn is_almost_plain(tag: &[u8]) -> bool
    ensures value { result ≡ is_almost_plain tag.now }
{
    if is_plain(tag) {
        return false;
    }
    has_letters_alone(tag) || is_pairs_in_a_case(tag)
}

/// The first doubt about pairs of targets.
fn doubt_about_pairs(qubits: &[Qubit]) -> Option<Doubt>
    ensures value { result ≡ doubt_about_pairs qubits.now }
{
    let mut k = 0;
    'pairs: while k < qubits.len() {
        if k + 1 == qubits.len() {
            return Some(Doubt::LastTarget);
        }
        if qubits[k].number() == qubits[k + 1].number() {
            return Some(Doubt::SameQubit);
        }
        k += 2;
    }
    None
}

/// The doubt about an instruction with this tag and these targets.
fn doubt_about(tag: &[u8], qubits: &[Qubit]) -> Option<Doubt>
    ensures value { result ≡ doubt_about tag.now qubits.now }
{
    if is_pairs(tag) {
        doubt_about_pairs(qubits)
    } else if is_almost_plain(tag) {
        Some(Doubt::Tag)
    } else {
        None
    }
}

/// Puts a doubt at a step after others, if there is one.
fn push_doubt(
    doubts: &mut Vec<DoubtfulMark>,
    doubt: Option<Doubt>,
    step: usize,
) -> Result<(), AllocError>
    ensures doubts { OnOk result (doubts.new.items ≡ doubts.old.items ++ doubts_at step doubt) }
{
    if let Some(doubt) = doubt {
        doubts.push(DoubtfulMark { doubt, step })?;
    }
    Ok(())
}

/// Puts the doubt about an instruction on these targets after others, if it has any.
fn doubt_targets(
    doubts: &mut Vec<DoubtfulMark>,
    qubits: &[Qubit],
    tag: &[u8],
    step: usize,
) -> Result<(), AllocError>
    ensures doubts { OnOk result (doubts.new.items ≡ doubts.old.items ++ doubtful (marks_of step tag.now qubits.now)) }
{
    if qubits.is_empty() {
        return Ok(());
    }
    push_doubt(doubts, doubt_about(tag, qubits), step)
}

/// Puts the doubt about an instruction after others, if it marks sites.
fn doubt_kind(
    doubts: &mut Vec<DoubtfulMark>,
    kind: &Kind,
    tag: &[u8],
    step: usize,
) -> Result<(), AllocError>
    ensures doubts { OnOk result (doubts.new.items ≡ doubts.old.items ++ doubtful (marks_by step tag.now kind.now)) }
{
    match kind {
        Kind::Gate(gate, qubits) if is_idle(*gate) => {
            doubt_targets(doubts, qubits.as_slice(), tag, step)
        }
        _ => Ok(()),
    }
}

/// Puts the doubtful marks of an item after others.
#[cycle(doubting)]
fn doubt_item(doubts: &mut Vec<DoubtfulMark>, item: &Item, step: usize) -> Result<(), AllocError>
    requires few { step + length (unroll (before item.now done)) ≤ most_steps }
    ensures doubts { OnOk result (doubts.new.items ≡ doubts.old.items ++ doubts_from step (before item.now done)) }
{
    match item.part() {
        Part::Tick => Ok(()),
        Part::Operation { kind, tag } => doubt_kind(doubts, kind, tag, step),
        Part::Block { count, body, .. } => {
            // A block has a first round.
            let _ = count.number();
            doubt_items(doubts, body, step)
        }
    }
}

/// Puts the doubtful marks of items after others.
#[cycle(doubting)]
fn doubt_items(
    doubts: &mut Vec<DoubtfulMark>,
    items: &[Item],
    step: usize,
) -> Result<(), AllocError>
    requires few { step + length (unroll (listed items.now)) ≤ most_steps }
    ensures doubts { OnOk result (doubts.new.items ≡ doubts.old.items ++ doubts_from step (listed items.now)) }
{
    let mut site = step;
    'items: for item in items {
        doubt_item(doubts, item, site)?;
        site += item.summary().steps as usize;
    }
    Ok(())
}

/// The marks of a circuit that may be meant in another way, in the order of its items. Of the rounds of a block
/// the first counts.
///
/// Refusal `OutOfMemory` alone.
pub fn doubtful_marks(alloc: Global, circuit: &Circuit) -> Result<Vec<DoubtfulMark>, Refusal>
    requires checked { check_of (circuit_items circuit.now) ≡ None }
    ensures value { IfOk result (λ v. v.items ≡ doubts_from 0 (circuit_items circuit.now)) }
    ensures inside { IfOk result (λ v. All (λ d. d.step < length (unroll (circuit_items circuit.now))) v.items) }
    ensures err { IfErr result (λ r. r ≡ OutOfMemory) }
{
    let mut doubts = Vec::new(alloc);
    doubt_items(&mut doubts, circuit.items(), 0)?;
    Ok(doubts)
}
