ghost use Rattle.std.specs.Prelude.{◌≡◌, ◌≤◌, ◌<◌, ◌+◌, ◌*◌, ◌∷◌, [], All, Ok, length, map, min, drop, slice_get, nat_le, IfOk, IfErr, IfSome, IfNone};
ghost use Rattle.stab_io.specs.declared.refusal.Refusal.TheVariants.{OutOfMemory};
ghost use Rattle.stab_items.specs.Items.{OneItem, listed};
ghost use Rattle.stab_items.specs.Steps.{unroll, most_steps, steps_cap};
ghost use Rattle.stab_items.specs.ItemsAt.{item_in, found_inside};
ghost use Rattle.stab_items.specs.Rounds.{item_steps, pieces_in};
ghost use Rattle.stab_items.specs.inner.Judgements.{shown_item};
ghost use Rattle.stab_items.specs.inner.Gaps.{with_more as with_more_of, copies as copies_of, round_gaps, block_pieces, AreGapsIn, AreGapsInside};

use super::Circuit;
use crate::item::{Item, items_summary};
use crate::judge::{block_of, steps_in};
use crate::path::Path;
use stab_io::Refusal;
use std::alloc::Global;

/// The most gaps that are reported: as many as a circuit may have steps.
const MOST_GAPS: u64 = 1_048_576;

/// The item at a position of a list, if there is one.
fn item_in_list(items: &[Item], position: usize) -> Option<&Item>
    ensures value { shown_item result ≡ slice_get items.now position }
{
    items.get(position)
}

/// How many steps the items after the one at a position make, or 1,048,577 if they make more.
fn steps_after(items: &[Item], position: usize) -> u32
    ensures value { result ≡ min (length (unroll (listed (drop (position + 1) items.now)))) steps_cap }
{
    let (_, rest) = items.split_at(position.min(items.len()));
    match rest.split_first() {
        None => 0,
        Some((_, following)) => items_summary(following).steps,
    }
}

/// Adds to the last of some numbers.
fn with_more(mut numbers: Vec<usize>, more: usize) -> Result<Vec<usize>, Refusal>
    requires small { All (λ n. n ≤ most_steps) numbers.items }
    requires few { more ≤ most_steps }
    ensures ok { IfOk result (λ all. all.items ≡ with_more_of more numbers.items) }
    ensures err { IfErr result (λ r. r ≡ OutOfMemory) }
{
    let Some(last) = numbers.pop() else {
        return Ok(numbers);
    };
    numbers.push(last + more)?;
    Ok(numbers)
}

/// Numbers, repeated this often.
fn copies(alloc: Global, numbers: &[usize], count: u64) -> Result<Vec<usize>, Refusal>
    requires few { count * length numbers.now ≤ most_steps }
    ensures ok { IfOk result (λ all. all.items ≡ copies_of count numbers.now) }
    ensures err { IfErr result (λ r. r ≡ OutOfMemory) }
{
    let mut all = Vec::with_capacity(alloc, count as usize * numbers.len())?;
    for _ in 0..count {
        all.extend_from_slice(numbers)?;
    }
    Ok(all)
}

/// Whether there are few enough gaps in this many rounds.
fn are_few(count: u64, len: usize) -> bool
    ensures value { result ≡ nat_le (count * len) most_steps }
{
    match count.checked_mul(len as u64) {
        None => false,
        Some(all) => all <= MOST_GAPS,
    }
}

/// The gaps of all rounds of a block, by those of one, with this many steps before the position in a
/// round; or `None` if there are too many.
fn gaps_of_rounds(
    alloc: Global,
    mut round: Vec<usize>,
    count: u64,
    lead: usize,
) -> Result<Option<Vec<usize>>, Refusal>
    requires some { 0 < count }
    requires small { All (λ n. n ≤ most_steps) round.items }
    requires few { lead ≤ most_steps }
    ensures some { IfOk result (λ found. IfSome found (λ gaps. gaps.items ≡ round_gaps count lead round.items)) }
    ensures none { IfOk result (λ found. IfNone found (most_steps < count * length round.items)) }
    ensures err { IfErr result (λ r. r ≡ OutOfMemory) }
{
    if !are_few(count, round.len()) {
        return Ok(None);
    }
    let Some(last) = round.pop() else {
        return Ok(Some(round));
    };
    round.push(last + lead)?;
    let mut gaps = copies(alloc, round.as_slice(), count)?;
    let _ = gaps.pop();
    gaps.push(last)?;
    Ok(Some(gaps))
}

/// The gaps after the item at a position in nested blocks of a list, the last up to the end of the list;
/// or `None` if no block is on the way, or there are too many gaps.
#[cycle(gaps)]
fn gaps_in(
    alloc: Global,
    items: &[Item],
    blocks: &[usize],
    position: usize,
) -> Result<Option<Vec<usize>>, Refusal>
    requires few { length (unroll (listed items.now)) ≤ most_steps }
    ensures some { IfOk result (λ found. IfSome found (λ gaps. AreGapsIn blocks.now position items.now gaps.items)) }
    ensures none { IfOk result (λ found. IfNone found ((x : OneItem) → item_in blocks.now position items.now ≡ Ok x → most_steps < length (pieces_in (position + 1) blocks.now position items.now []))) }
    ensures err { IfErr result (λ r. r ≡ OutOfMemory) }
{
    match blocks.split_first() {
        None => Ok(Some(vec![in alloc; steps_after(items, position) as usize]?)),
        Some((block, others)) => match gaps_inside(
            alloc,
            item_in_list(items, *block),
            others,
            position,
        )? {
            None => Ok(None),
            Some(gaps) => Ok(Some(with_more(gaps, steps_after(items, *block) as usize)?)),
        },
    }
}

/// The gaps after the item at a position in a block and the blocks in it, the last up to the end of the
/// block; or `None` if no block is on the way, or there are too many gaps.
#[cycle(gaps)]
fn gaps_inside(
    alloc: Global,
    found: Option<&Item>,
    others: &[usize],
    position: usize,
) -> Result<Option<Vec<usize>>, Refusal>
    requires few { length (item_steps (shown_item found)) ≤ most_steps }
    ensures some { IfOk result (λ determined. IfSome determined (λ gaps. AreGapsInside others.now position (shown_item found.entry) gaps.items)) }
    ensures none { IfOk result (λ determined. IfNone determined ((x : OneItem) → found_inside (item_in others.now position) (shown_item found.entry) ≡ Ok x → most_steps < length (block_pieces (position + 1) others.now position (shown_item found.entry) []))) }
    ensures err { IfErr result (λ r. r ≡ OutOfMemory) }
{
    let Ok(block) = block_of(found) else {
        return Ok(None);
    };
    let count = block.count.number();
    match gaps_in(alloc, block.body, others, position)? {
        None => Ok(None),
        Some(round) => {
            let lead = steps_in(block.body, &[], others, position);
            gaps_of_rounds(alloc, round, count, lead as usize)
        }
    }
}

impl Circuit {
    ghost use Rattle.std.specs.Prelude.{◌≡◌, ◌≤◌, ◌<◌, ◌+◌, Ok, length, IfOk, IfErr, IfSome, IfNone};
    ghost use Rattle.stab_io.specs.declared.refusal.Refusal.TheVariants.{OutOfMemory};
    ghost use Rattle.stab_items.specs.Items.{OneItem};
    ghost use Rattle.stab_items.specs.Steps.{unroll, most_steps};
    ghost use Rattle.stab_items.specs.Views.{circuit_items};
    ghost use Rattle.stab_items.specs.ItemsAt.{item_at as item_of_path};
    ghost use Rattle.stab_items.specs.Rounds.{pieces, AreGaps};

    /// How many steps are after the item at a path each time that it is carried out, in order: up
    /// to the next time, and the last time up to the end of the outermost block around it. Of an item
    /// in the outermost list this is one 0. It looks at no step.
    ///
    /// `None` if the path goes through no block, or there are more than 1,048,576 of them, which is
    /// possible only if the item makes no step. Refusal `OutOfMemory` alone.
    ///
    /// Asks that the circuit has no more steps than a circuit may have (`steps`).
    pub fn gaps(&self, alloc: Global, path: Path) -> Result<Option<Vec<usize>>, Refusal>
        requires few { length (unroll (circuit_items self.now)) ≤ most_steps }
        ensures some { IfOk result (λ found. IfSome found (λ gaps. AreGaps path self.now gaps.items)) }
        ensures none { IfOk result (λ found. IfNone found ((x : OneItem) → item_of_path path self.now ≡ Ok x → most_steps < length (pieces path (path.position + 1) self.now))) }
        ensures err { IfErr result (λ r. r ≡ OutOfMemory) }
    {
        let position = path.position();
        let blocks = path.blocks();
        match blocks.split_first() {
            None => Ok(Some(vec![in alloc; 0]?)),
            Some((block, others)) => {
                gaps_inside(alloc, item_in_list(self.items(), *block), others, position)
            }
        }
    }
}
