ghost use Rattle.std.specs.Prelude.{◌≡◌, ◌≤◌, length, min, take, drop, slice_get, Err, OnOk, IfOk, IfErr};
ghost use Rattle.stab_items.specs.Items.{listed};
ghost use Rattle.stab_items.specs.Steps.{unroll, steps_cap};
ghost use Rattle.stab_items.specs.Edits.{edited_in, edited, edit_path, inner, steps_in as steps_of_position};
ghost use Rattle.stab_items.specs.inner.Summaries.{IsSummary};
ghost use Rattle.stab_items.specs.inner.Splices.{splice_of, splice_at};
ghost use Rattle.stab_items.specs.inner.Judgements.{judgement_of, shown_item, IsBlockAt, BeginsWith};
ghost use Rattle.stab_items.specs.inner.Stretches.{AreStretches};
ghost use Rattle.stab_items.specs.inner.EditResults.{steps_within, PutsGood, edit_result_by, IsEditResult};

use crate::circuit::stretches::{Stretch, summary_between};
use crate::edit::Edit;
use crate::item::{Item, Part};
use crate::summary::{STEPS_CAP, Summary};
use stab_instructions::Count;
use stab_io::Refusal;

/// What an edit comes to in a list of items: which items leave it, from the first up to the one
/// before `following`, the summary of what replaces them, and how many steps are before the
/// position within the first, counted up to 1,048,577.
#[derive(Clone, Copy)]
pub(crate) struct Judgement {
    pub(crate) first: usize,
    pub(crate) following: usize,
    pub(crate) put: Summary,
    pub(crate) within: u32,
}

/// What a list comes to by an edit: the summary of the items that the edit leaves, and which steps it
/// changes.
///
/// Steps are counted up to 1,048,577: how many are before the position, before the end of what
/// leaves the list, and before the end of what replaces it.
#[derive(Clone, Copy)]
pub(crate) struct EditResult {
    pub(crate) total: Summary,
    pub(crate) first: u32,
    pub(crate) old_end: u32,
    pub(crate) new_end: u32,
}

/// A block: its count of rounds, and its items.
#[derive(Clone, Copy)]
pub(crate) struct Block<'a> {
    pub(crate) count: Count,
    pub(crate) body: &'a [Item],
}

/// The block at a position of a list.
pub(crate) fn block_at(items: &[Item], position: usize) -> Result<Block<'_>, Refusal>
    ensures value { IsBlockAt (slice_get items.now position) result }
{
    block_of(items.get(position))
}

/// The block that a found item is, if there is one.
pub(crate) fn block_of(found: Option<&Item>) -> Result<Block<'_>, Refusal>
    ensures value { IsBlockAt (shown_item found.entry) result }
{
    match found {
        None => Err(Refusal::PlaceOutOfRange),
        Some(item) => match item.part() {
            Part::Tick | Part::Operation { .. } => Err(Refusal::NotABlock),
            Part::Block { count, body, .. } => Ok(Block { count, body }),
        },
    }
}

/// What an edit comes to in the innermost list around its place, of this many items.
fn judge_at(len: usize, edit: &Edit) -> Result<Judgement, Refusal>
    ensures value { result ≡ judgement_of 0 (splice_at edit.now len) }
    ensures small { IfOk result (λ j. IsSummary j.put) }
    ensures good { OnOk result (IfOk (splice_at edit.now len) PutsGood) }
    ensures nothing_within { IfOk result (λ j. j.within ≡ 0) }
{
    let position = edit.path().position();
    match edit {
        Edit::Insert { item, .. } if position <= len => Ok(Judgement {
            first: position,
            following: position,
            put: item.summary(),
            within: 0,
        }),
        Edit::Replace { item, .. } if position < len => Ok(Judgement {
            first: position,
            following: position + 1,
            put: item.summary(),
            within: 0,
        }),
        Edit::Delete { .. } if position < len => Ok(Judgement {
            first: position,
            following: position + 1,
            put: Summary::NONE,
            within: 0,
        }),
        Edit::Insert { .. } | Edit::Replace { .. } | Edit::Delete { .. } => {
            Err(Refusal::PlaceOutOfRange)
        }
    }
}

/// What an edit in nested blocks comes to in the outermost list, by the summaries that are stored
/// along the way.
#[cycle(judging)]
fn judge(items: &[Item], blocks: &[usize], edit: &Edit) -> Result<Judgement, Refusal>
    ensures value { result ≡ judgement_of (min (length (steps_within blocks.now (edit_path edit.now).position items.now)) steps_cap) (splice_of edit.now blocks.now items.now) }
    ensures small { IfOk result (λ j. IsSummary j.put) }
    ensures within { IfOk result (λ j. (j.first ≤ j.following) × (j.following ≤ length items.now) × (j.within ≤ steps_cap)) }
    ensures front { OnOk result (BeginsWith (steps_of_position blocks.now (edit_path edit.now).position items.now) (unroll (listed items.now))) }
    ensures good { OnOk result (IfOk (splice_of edit.now blocks.now items.now) PutsGood) }
    ensures within_put { IfOk result (λ j. j.within ≤ j.put.steps) }
    ensures within_gone { IfOk result (λ j. j.within ≤ length (unroll (listed (drop j.first (take j.following items.now))))) }
{
    match blocks.split_first() {
        None => judge_at(items.len(), edit),
        Some((block, others)) => match block_at(items, *block) {
            Err(refusal) => Err(refusal),
            Ok(inner) => match edit_result_in(inner.body, &[], others, edit) {
                Err(refusal) => Err(refusal),
                Ok(round) => Ok(Judgement {
                    first: *block,
                    following: *block + 1,
                    put: round.total.repeated(inner.count.number()),
                    within: round.first,
                }),
            },
        },
    }
}

/// What a list comes to by an edit with this judgement, by the summaries of the items before
/// those that leave it, of these, and of those after them.
fn edit_result_of(judgement: Judgement, front: Summary, gone: Summary, back: Summary) -> EditResult
    requires put { IsSummary judgement.put }
    requires few { judgement.within ≤ steps_cap }
    requires front { IsSummary front }
    requires gone { IsSummary gone }
    requires back { IsSummary back }
    ensures value { result ≡ edit_result_by judgement front gone back }
    ensures small { IsSummary result.total }
{
    let first = front.steps + judgement.within;
    let old_end = front.steps + gone.steps;
    let new_end = front.steps + judgement.put.steps;
    EditResult {
        total: front.then(judgement.put.then(back)),
        first: first.min(STEPS_CAP),
        old_end: old_end.min(STEPS_CAP),
        new_end: new_end.min(STEPS_CAP),
    }
}

/// What a list with these stretches comes to by an edit in nested blocks. The body of each block on
/// the way is added up once.
#[cycle(judging)]
fn edit_result_in(
    items: &[Item],
    stretches: &[Stretch],
    blocks: &[usize],
    edit: &Edit,
) -> Result<EditResult, Refusal>
    requires stretches { AreStretches stretches.now items.now }
    ensures ok { IfOk result (IsEditResult edit.now blocks.now items.now) }
    ensures refused { IfErr result (λ r. edited_in edit.now blocks.now items.now ≡ Err r) }
{
    match judge(items, blocks, edit) {
        Err(refusal) => Err(refusal),
        Ok(judgement) => {
            let first = judgement.first;
            let following = judgement.following;
            Ok(edit_result_of(
                judgement,
                summary_between(stretches, items, 0, first),
                summary_between(stretches, items, first, following),
                summary_between(stretches, items, following, items.len()),
            ))
        }
    }
}

/// What a list with these stretches comes to by an edit.
pub(crate) fn judged_edit(
    items: &[Item],
    stretches: &[Stretch],
    edit: &Edit,
) -> Result<EditResult, Refusal>
    requires stretches { AreStretches stretches.now items.now }
    ensures ok { IfOk result (IsEditResult edit.now (edit_path edit.now).blocks items.now) }
    ensures refused { IfErr result (λ r. edited edit.now items.now ≡ Err r) }
{
    let path = edit.path();
    edit_result_in(items, stretches, path.blocks(), edit)
}

/// How many steps are before a position in nested blocks of a list with these stretches, or 1,048,577
/// if there are more.
#[cycle(counting)]
pub(crate) fn steps_in(
    items: &[Item],
    stretches: &[Stretch],
    blocks: &[usize],
    position: usize,
) -> u32
    requires stretches { AreStretches stretches.now items.now }
    ensures value { result ≡ min (length (steps_of_position blocks.now position items.now)) steps_cap }
{
    match blocks.split_first() {
        None => summary_between(stretches, items, 0, position).steps,
        Some((block, others)) => {
            let front = summary_between(stretches, items, 0, *block).steps;
            (front + steps_inside(items, *block, others, position)).min(STEPS_CAP)
        }
    }
}

/// How many steps are before a position in a block of a list and the blocks in it, or 1,048,577
/// if there are more; none if the list has no block there.
#[cycle(counting)]
fn steps_inside(items: &[Item], block: usize, others: &[usize], position: usize) -> u32
    ensures value { result ≡ min (length (steps_of_position others.now position (inner (slice_get items.now block)))) steps_cap }
{
    match block_at(items, block) {
        Err(_) => 0,
        Ok(found) => steps_in(found.body, &[], others, position),
    }
}
