ghost use Rattle.std.specs.Prelude.{◌≡◌, Some, None, if◌then◌else◌, nat_lt};
ghost use Rattle.stab_io.specs.declared.refusal.Refusal.TheVariants.{QubitOutOfRange};
ghost use Rattle.stab_items.specs.inner.Summaries.{judged};

use super::Circuit;
use super::stretches::renew_stretch;
use crate::commit::commit;
use crate::edit::{Edit, Refused, Span};
use crate::item::Item;
use crate::judge::{EditResult, judged_edit, steps_in};
use crate::path::Path;
use crate::summary::Summary;
use stab_io::{Fault, Refusal};

/// What refuses a whole circuit of this summary on n qubits.
fn refusal_on(total: Summary, n: usize) -> Option<Refusal>
    ensures value { result ≡ (if nat_lt n total.qubits then Some QubitOutOfRange else judged total) }
{
    if total.qubits as usize > n {
        Some(Refusal::QubitOutOfRange)
    } else {
        total.refusal()
    }
}

impl Circuit {
    ghost use Rattle.std.specs.Prelude.{◌≡◌, ◌≢◌, ◌≤◌, Ok, Some, None, min, length, OnOk, OnErr, IfOk, IfErr};
    ghost use Rattle.stab_io.specs.Refusals.{whole, IsCallFault};
    ghost use Rattle.stab_io.specs.declared.refusal.Refusal.TheVariants.{OutOfMemory};
    ghost use Rattle.stab_items.specs.declared.edit.Edit.TheVariants.{Insert as inserting, Replace as replacing, Delete as deleting};
    ghost use Rattle.stab_items.specs.Steps.{steps_cap};
    ghost use Rattle.stab_items.specs.Edits.{edited, edit_path, edit_refusal, verdict, taken, put_item, steps_before, IsInsert};
    ghost use Rattle.stab_items.specs.Editings.{IsSpanOf};
    ghost use Rattle.stab_items.specs.inner.EditResults.{IsEditResult};

    /// How many steps are before the position of a path, in the first round of each block around it,
    /// or 1,048,577 if there are more.
    pub fn steps_before(&self, path: Path) -> usize
        ensures value { result ≡ min (length (steps_before path self.now)) steps_cap }
    {
        steps_in(
            self.items(),
            self.stretches.as_slice(),
            path.blocks(),
            path.position(),
        ) as usize
    }

    /// What the circuit comes to by an edit, or what refuses that: its path, and then the depth of
    /// blocks.
    fn judge(&self, edit: &Edit) -> Result<EditResult, Refusal>
        ensures ok { IfOk result (IsEditResult edit.now (edit_path edit.now).blocks self.now) }
        ensures shallow { IfOk result (λ edit_result. edit_result.total.depth ≤ 16) }
        ensures allowed { OnOk result (edit_refusal edit.now self.now ≡ None) }
        ensures refused { IfErr result (λ r. edit_refusal edit.now self.now ≡ Some r) }
    {
        let edit_result = judged_edit(self.items(), self.stretches.as_slice(), edit)?;
        if edit_result.total.depth > 16 {
            return Err(Refusal::TooDeep);
        }
        Ok(edit_result)
    }

    /// Makes an edit by which the circuit comes to this.
    fn make(&mut self, edit: Edit, edit_result: EditResult) -> Result<Option<Item>, Refused>
        requires judged { IsEditResult edit (edit_path edit).blocks self.old edit_result }
        requires shallow { edit_result.total.depth ≤ 16 }
        ensures ok { OnOk result (edited edit self.old ≡ Ok self.new) }
        ensures taken { IfOk result (λ old. old ≡ taken edit self.old) }
        ensures unchanged { OnErr result (self.new ≡ self.old) }
        ensures item { IfErr result (λ r. r.item ≡ put_item edit) }
        ensures fault { IfErr result (λ r. r.fault ≡ whole OutOfMemory) }
        ensures memory { OnErr result (IsInsert edit) }
    {
        let path = edit.path();
        let len = self.items.len();
        match commit(&mut self.items, path.blocks(), edit) {
            Ok(taken) => {
                self.total = edit_result.total;
                renew_stretch(
                    &mut self.stretches,
                    path.first(),
                    len,
                    self.items.as_slice(),
                );
                Ok(taken)
            }
            Err(edit) => Err(edit.refused(Refusal::OutOfMemory)),
        }
    }

    /// Makes an edit, without a check of the circuit that it leaves, and gives the item that it takes out.
    #[tactic(auto, using(crate::proofs::EditingLemmas::call_fault, crate::proofs::EditingLemmas::want_fault, crate::proofs::EditingLemmas::no_want))]
    fn edit_alone(&mut self, edit: Edit) -> Result<Option<Item>, Refused>
        ensures ok { OnOk result (edited edit self.old ≡ Ok self.new) }
        ensures taken { IfOk result (λ old. old ≡ taken edit self.old) }
        ensures unchanged { OnErr result (self.new ≡ self.old) }
        ensures item { IfErr result (λ r. r.item ≡ put_item edit) }
        ensures fault { IfErr result (λ r. IsCallFault (edit_refusal edit self.old) r.fault) }
        ensures memory { OnErr result (edit_refusal edit self.old ≡ None → IsInsert edit) }
    {
        match self.judge(&edit) {
            Err(refusal) => Err(edit.refused(refusal)),
            Ok(edit_result) => self.make(edit, edit_result),
        }
    }

    /// Puts an item in before the one at a path.
    ///
    /// Refused without a line: 12 and 17 along the path, 10 if blocks would be nested over 16
    /// deep, 20. The item then comes back, and the circuit is as before.
    pub fn insert(&mut self, path: Path, item: Item) -> Result<(), Refused>
        ensures ok { OnOk result (edited (inserting path item) self.old ≡ Ok self.new) }
        ensures unchanged { OnErr result (self.new ≡ self.old) }
        ensures item { IfErr result (λ r. r.item ≡ Some item) }
        ensures fault { IfErr result (λ r. IsCallFault (edit_refusal (inserting path item) self.old) r.fault) }
    {
        self.edit_alone(Edit::Insert { place: path, item })?;
        Ok(())
    }

    /// Puts an item in place of the one at a path, and gives the old one. It takes no memory.
    ///
    /// Refused without a line: 12 and 17 along the path, 10 if blocks would be nested over 16
    /// deep. The new item then comes back, and the circuit is as before.
    pub fn replace(&mut self, path: Path, item: Item) -> Result<Item, Refused>
        ensures ok { OnOk result (edited (replacing path item) self.old ≡ Ok self.new) }
        ensures taken { IfOk result (λ old. taken (replacing path item) self.old ≡ Some old) }
        ensures unchanged { OnErr result (self.new ≡ self.old) }
        ensures item { IfErr result (λ r. r.item ≡ Some item) }
        ensures fault { IfErr result (λ r. IsCallFault (edit_refusal (replacing path item) self.old) r.fault) }
        ensures no_memory { OnErr result (edit_refusal (replacing path item) self.old ≢ None) }
    {
        match self.edit_alone(Edit::Replace { place: path, item }) {
            Ok(Some(old)) => Ok(old),
            Ok(None) => unreachable!(),
            Err(refused) => Err(refused),
        }
    }

    /// Takes the item at a path out, and gives it. It takes no memory.
    ///
    /// Refused without a line: 12 and 17 along the path. The circuit is then as before.
    pub fn delete(&mut self, path: Path) -> Result<Item, Fault>
        ensures ok { OnOk result (edited (deleting path) self.old ≡ Ok self.new) }
        ensures taken { IfOk result (λ old. taken (deleting path) self.old ≡ Some old) }
        ensures unchanged { OnErr result (self.new ≡ self.old) }
        ensures fault { IfErr result (λ f. IsCallFault (edit_refusal (deleting path) self.old) f) }
        ensures no_memory { OnErr result (edit_refusal (deleting path) self.old ≢ None) }
    {
        match self.edit_alone(Edit::Delete { place: path }) {
            Ok(Some(old)) => Ok(old),
            Ok(None) => unreachable!(),
            Err(refused) => Err(refused.fault),
        }
    }

    /// Makes an edit, if nothing refuses the circuit on n qubits that it leaves, and says which
    /// steps it changed, with the item that it took out.
    ///
    /// Refused without a line: 12 and 17 along the path, 10 if blocks would be nested over 16
    /// deep, then what `check` refuses the edited circuit for, and 20 for an insertion alone. The
    /// item then comes back, and the circuit is as before.
    #[tactic(auto, using(crate::proofs::EditingLemmas::refused_on, crate::proofs::EditingLemmas::no_want_on))]
    pub fn edit(&mut self, n: usize, edit: Edit) -> Result<(Span, Option<Item>), Refused>
        ensures ok { OnOk result (edited edit self.old ≡ Ok self.new) }
        ensures allowed { OnOk result (verdict n edit self.old ≡ None) }
        ensures taken { IfOk result (λ done. done.1 ≡ taken edit self.old) }
        ensures steps { IfOk result (λ done. IsSpanOf edit self.old self.new done.0) }
        ensures unchanged { OnErr result (self.new ≡ self.old) }
        ensures item { IfErr result (λ r. r.item ≡ put_item edit) }
        ensures fault { IfErr result (λ r. IsCallFault (verdict n edit self.old) r.fault) }
        ensures memory { OnErr result (verdict n edit self.old ≡ None → IsInsert edit) }
    {
        let edit_result = match self.judge(&edit) {
            Err(refusal) => return Err(edit.refused(refusal)),
            Ok(edit_result) => edit_result,
        };
        if let Some(refusal) = refusal_on(edit_result.total, n) {
            return Err(edit.refused(refusal));
        }
        let span = Span {
            first: edit_result.first as usize,
            old_end: edit_result.old_end as usize,
            new_end: edit_result.new_end as usize,
        };
        match self.make(edit, edit_result) {
            Ok(taken) => Ok((span, taken)),
            Err(refused) => Err(refused),
        }
    }
}
