ghost use Rattle.std.specs.Prelude.{◌≡◌, ◌<◌, ◌≤◌, ◌+◌, ◌^◌, max, length, take, drop, slice_index_or, IfOk};
ghost use Rattle.stab_items.specs.Items.{listed};
ghost use Rattle.stab_items.specs.inner.Summaries.{IsSumOf};
ghost use Rattle.stab_items.specs.inner.Stretches.{AreStretches, WereStretches};

use super::Circuit;
use crate::item::{Item, items_summary};
use crate::summary::Summary;
use std::alloc::{AllocError, Global};

/// How many items a stretch of a circuit that was read has.
const LENGTH: usize = 512;

/// Items one after the other in a list: how many, and their summary.
#[derive(Clone, Copy)]
pub(crate) struct Stretch {
    pub(crate) items: usize,
    pub(crate) summary: Summary,
}

/// A position in a list, and how many steps are left out from there on.
#[derive(Clone, Copy)]
pub(crate) struct StepPosition {
    pub(crate) position: usize,
    pub(crate) steps: u32,
}

/// The stretch that these items are.
fn stretch_of(items: &[Item]) -> Stretch
    ensures items { result.items ≡ length items.now }
    ensures sum { IsSumOf (listed items.now) result.summary }
{
    Stretch {
        items: items.len(),
        summary: items_summary(items),
    }
}

/// The stretches of a list, of this many items each. The items after the last are of none.
pub(super) fn stretches_of(alloc: Global, items: &[Item]) -> Result<Vec<Stretch>, AllocError>
    ensures ok { IfOk result (λ v. AreStretches v.items items.now) }
{
    let mut all = Vec::new(alloc);
    let mut rest = items;
    'stretches: while rest.len() > LENGTH {
        let (front, following) = rest.split_at(LENGTH);
        all.push(stretch_of(front))?;
        rest = following;
    }
    Ok(all)
}

/// The stretch of this number.
fn stretch_at(stretches: &[Stretch], number: usize) -> Stretch
    requires in_range { number < length stretches.now }
    ensures value { result ≡ slice_index_or stretches.now number result }
{
    stretches[number]
}

/// The items of a list before a position.
fn items_up_to(items: &[Item], position: usize) -> &[Item]
    ensures value { result.now ≡ take position items.now }
{
    items.split_at(position.min(items.len())).0
}

/// The items of a list from a position on.
fn items_from(items: &[Item], position: usize) -> &[Item]
    ensures value { result.now ≡ drop position items.now }
{
    items.split_at(position.min(items.len())).1
}

/// The summary of those items of a stretch, which begins at a position of a list, that are in a front
/// of the list and from another position on.
fn summary_within(stretch: Stretch, position: usize, front: &[Item], first: usize) -> Summary
    requires room { position + stretch.items < 2 ^ 64 }
    requires sum { position + stretch.items ≤ length front.now → IsSumOf (listed (take stretch.items (drop position front.now))) stretch.summary }
    ensures sum { IsSumOf (listed (drop (max first position) (take (position + stretch.items) front.now))) result }
{
    let end = position + stretch.items;
    if first <= position && end <= front.len() {
        return stretch.summary;
    }
    items_summary(items_from(items_up_to(front, end), first.max(position)))
}

/// The summary of the items of a list from one position up to another, by its stretches.
pub(crate) fn summary_between(
    stretches: &[Stretch],
    items: &[Item],
    first: usize,
    end: usize,
) -> Summary
    requires are { AreStretches stretches.now items.now }
    ensures sum { IsSumOf (listed (drop first (take end items.now))) result }
{
    let front = items_up_to(items, end);
    let mut all = Summary::NONE;
    let mut position = 0;
    'stretches: for number in 0..stretches.len() {
        let stretch = stretch_at(stretches, number);
        all = all.then(summary_within(stretch, position, front, first));
        position += stretch.items;
    }
    all.then(items_summary(items_from(front, first.max(position))))
}

/// The summary of all items of a list, by its stretches if memory for them was there.
pub(super) fn whole_summary(stretches: &Result<Vec<Stretch>, AllocError>, items: &[Item]) -> Summary
    requires are { IfOk stretches.now (λ v. AreStretches v.items items.now) }
    ensures sum { IsSumOf (listed items.now) result }
{
    match stretches {
        Ok(stretches) => summary_between(stretches.as_slice(), items, 0, items.len()),
        Err(_) => items_summary(items),
    }
}

/// Renews the stretch in which a list that had this many items was edited at a position, if there is one;
/// after the last stretch there is none. It takes no memory: the stretch has what was put in too, without a
/// limit, and stays even if its last item was taken out.
pub(super) fn renew_stretch(
    stretches: &mut Vec<Stretch>,
    position: usize,
    len: usize,
    items: &[Item],
)
    requires were { WereStretches stretches.old.items position len items.now }
    ensures are { AreStretches stretches.new.items items.now }
{
    let mut first = 0;
    'stretches: for number in 0..stretches.len() {
        let stretch = stretches[number];
        let end = first + stretch.items;
        if position < end {
            let front = items_up_to(items, items.len() - (len - end));
            stretches[number] = stretch_of(items_from(front, first));
            return;
        }
        first = end;
    }
}

impl Circuit {
    ghost use Rattle.std.specs.Prelude.{◌≡◌, ◌≤◌, ◌+◌, length, take};
    ghost use Rattle.stab_items.specs.Items.{listed};
    ghost use Rattle.stab_items.specs.Steps.{unroll, most_steps};

    /// The last position that is known before a step, and how many steps are between.
    pub(crate) fn position_before(&self, step: u32) -> StepPosition
        requires few { step ≤ most_steps }
        ensures within { result.position ≤ length self.now }
        ensures steps { length (unroll (listed (take result.position self.now))) + result.steps ≡ step }
    {
        let mut position = 0;
        let mut left = step;
        let parts = self.stretches.as_slice();
        'stretches: for number in 0..parts.len() {
            let stretch = stretch_at(parts, number);
            if left < stretch.summary.steps {
                return StepPosition {
                    position,
                    steps: left,
                };
            }
            position += stretch.items;
            left -= stretch.summary.steps;
        }
        StepPosition {
            position,
            steps: left,
        }
    }
}
