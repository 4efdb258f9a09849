//! Which rounds an edited circuit has, by those that it had.
ghost use Rattle.std.specs.Prelude.{◌≡◌, ◌+◌, ◌*◌, ◌<◌, ◌≤◌, None, List, length, OnOk, IfOk, IfErr, IfSome};
ghost use Rattle.stab_io.specs.declared.refusal.Refusal.TheVariants.{OutOfMemory};
ghost use Rattle.stab_items.specs.Steps.{Step, unroll, check_of, most_steps};
ghost use Rattle.stab_items.specs.Views.{circuit_items};
ghost use Rattle.stab_items.specs.Repeats.{AreRepeats, IsRepeat};
ghost use Rattle.stab_run.specs.Spans.{IsSpan, IsEditOf};

use crate::alike::go_alike;
use stab_io::Refusal;
use stab_items::{Circuit, Cursor, Repeat, Span};
use std::alloc::Global;

/// Between two repeats lie at most this many rounds that are compared with theirs.
const MOST_BETWEEN: usize = 8;

/// The rounds of a repeat before what was changed, if there are two or more.
fn front_of(repeat: Repeat, span: Span) -> Option<Repeat>
    requires some { 0 < repeat.length }
    ensures is { IfSome result (λ r. (xs ys : List Step) → IsRepeat xs repeat → IsSpan xs ys span → IsRepeat ys r) }
{
    let room = span.first.saturating_sub(repeat.first) / repeat.length;
    let rounds = room.min(repeat.rounds);
    if rounds < 2 {
        return None;
    }
    Some(Repeat { rounds, ..repeat })
}

/// The rounds of a repeat that begin after what was changed, where they are now, if there are two or more.
fn rest_of(repeat: Repeat, span: Span) -> Option<Repeat>
    requires some { 0 < repeat.length }
    requires many { 1 < repeat.rounds }
    requires few { repeat.first + repeat.rounds * repeat.length ≤ most_steps }
    requires few_old { span.old_end ≤ most_steps }
    requires few_new { span.new_end ≤ most_steps }
    ensures is { IfSome result (λ r. (xs ys : List Step) → IsRepeat xs repeat → IsSpan xs ys span → IsRepeat ys r) }
{
    let begun = span.old_end.saturating_sub(repeat.first) + (repeat.length - 1);
    let passed = begun / repeat.length;
    if passed > repeat.rounds - 2 {
        return None;
    }
    let first = repeat.first + passed * repeat.length;
    Some(Repeat {
        first: span.new_end + (first - span.old_end),
        rounds: repeat.rounds - passed,
        ..repeat
    })
}

/// Two repeats as one, if what was changed lies between them and the steps between them are more of their rounds.
///
/// Refusal `OutOfMemory` alone.
fn joined(
    alloc: Global,
    circuit: &Circuit,
    last: Repeat,
    next: Repeat,
    span: Span,
) -> Result<Option<Repeat>, Refusal>
    requires checked { check_of (circuit_items circuit.now) ≡ None }
    requires last { IsRepeat (unroll (circuit_items circuit.now)) last }
    requires next { IsRepeat (unroll (circuit_items circuit.now)) next }
    ensures first { IfOk result (λ found. IfSome found (λ r. r.first ≡ last.first)) }
    ensures is { IfOk result (λ found. IfSome found (IsRepeat (unroll (circuit_items circuit.now)))) }
    ensures err { IfErr result (λ r. r ≡ OutOfMemory) }
{
    let length = last.length;
    let end = last.first + last.rounds * length;
    if next.length != length || next.first < end {
        return Ok(None);
    }
    let between = next.first - end;
    let rounds = between / length;
    if rounds * length != between || rounds > MOST_BETWEEN {
        return Ok(None);
    }
    if next.first < span.first || span.new_end < end {
        return Ok(None);
    }
    let mut near = Cursor::at(alloc, circuit, end - length)?;
    let mut far = Cursor::at(alloc, circuit, end)?;
    if !go_alike(&mut near, &mut far, between + length) {
        return Ok(None);
    }
    Ok(Some(Repeat {
        rounds: last.rounds + rounds + next.rounds,
        ..last
    }))
}

/// Adds a repeat, joined with the last one if that can be. One that begins before the last one ends is left out.
///
/// Refusal `OutOfMemory` alone.
fn add(
    alloc: Global,
    circuit: &Circuit,
    repeats: &mut Vec<Repeat>,
    next: Repeat,
    span: Span,
) -> Result<(), Refusal>
    requires checked { check_of (circuit_items circuit.now) ≡ None }
    requires is { IsRepeat (unroll (circuit_items circuit.now)) next }
    requires are { AreRepeats 0 (unroll (circuit_items circuit.now)) repeats.old.items }
    ensures are { OnOk result (AreRepeats 0 (unroll (circuit_items circuit.now)) repeats.new.items) }
    ensures err { IfErr result (λ r. r ≡ OutOfMemory) }
{
    let Some(last) = repeats.pop() else {
        repeats.push(next)?;
        return Ok(());
    };
    if let Some(joined) = joined(alloc, circuit, last, next, span)? {
        repeats.push(joined)?;
        return Ok(());
    }
    repeats.push(last)?;
    if last.first + last.rounds * last.length <= next.first {
        repeats.push(next)?;
    }
    Ok(())
}

/// Adds what is left of a repeat.
///
/// Refusal `OutOfMemory` alone.
fn add_parts(
    alloc: Global,
    circuit: &Circuit,
    repeats: &mut Vec<Repeat>,
    old: Repeat,
    span: Span,
) -> Result<(), Refusal>
    requires checked { check_of (circuit_items circuit.now) ≡ None }
    requires old { (xs : List Step) × IsRepeat xs old × IsEditOf xs (unroll (circuit_items circuit.now)) span }
    requires are { AreRepeats 0 (unroll (circuit_items circuit.now)) repeats.old.items }
    ensures are { OnOk result (AreRepeats 0 (unroll (circuit_items circuit.now)) repeats.new.items) }
    ensures err { IfErr result (λ r. r ≡ OutOfMemory) }
{
    if let Some(front) = front_of(old, span) {
        add(alloc, circuit, repeats, front, span)?;
    }
    if let Some(rest) = rest_of(old, span) {
        add(alloc, circuit, repeats, rest, span)?;
    }
    Ok(())
}

/// Where in an edited circuit the same steps come again, if they came again in the old one as is said: the blocks of its outermost
/// list, or, if it has none, what is left of the old rounds before and after what was changed. These become one again if what lies between
/// them is more of the same rounds. No step is looked at besides.
///
/// Refusal `OutOfMemory` alone.
pub fn edited_rounds(
    alloc: Global,
    circuit: &Circuit,
    old: &[Repeat],
    span: Span,
) -> Result<Vec<Repeat>, Refusal>
    requires checked { check_of (circuit_items circuit.now) ≡ None }
    requires old { (xs : List Step) × AreRepeats 0 xs old.now × IsEditOf xs (unroll (circuit_items circuit.now)) span }
    ensures are { IfOk result (λ rs. AreRepeats 0 (unroll (circuit_items circuit.now)) rs.items) }
    ensures err { IfErr result (λ r. r ≡ OutOfMemory) }
{
    let mut repeats = circuit.repeats(alloc)?;
    if !repeats.is_empty() {
        return Ok(repeats);
    }
    for repeat in old {
        add_parts(alloc, circuit, &mut repeats, *repeat, span)?;
    }
    Ok(repeats)
}
