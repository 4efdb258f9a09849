use super::Session;
use crate::change::{Change, change_of};
use crate::pending::{begin, finish, refused};
use stab_circuit::{Edit, Refused};
use stab_run::Coins;

/// What an edit cost, from the last checkpoint of the state before it to the step at which the old run is the new one again.
#[derive(Clone, Copy, Debug, PartialEq, Eq)]
pub struct Report {
    /// Steps that were carried out on a state. A step that a Pauli frame passes, and for which it asks a coin, is one of them.
    pub applied: usize,
    /// All other steps: those that a frame was propagated over without a coin, also in vain, those of rounds that were repeated, and
    /// those of a run that was conjugated in place.
    pub by_frame: usize,
    /// Those of them that a frame was propagated over in vain: it couldn't give the run, which was then made in another way.
    pub tried: usize,
    /// Checkpoints of the state that are stored afterwards.
    pub checkpoints: usize,
}

impl<C: Coins> Session<C> {
    ghost use Rattle.std.specs.Prelude.{◌≡◌, ℕ, ◌+◌, ◌-◌, ◌≤◌, length, IfOk, IfErr, OnOk, OnErr};
    ghost use Rattle.stab_items.specs.Items.{entries};
    ghost use Rattle.stab_items.specs.Edits.{verdict, put_item};
    ghost use Rattle.stab_io.specs.Refusals.{IsCallFault};
    ghost use Rattle.stab_session.specs.SessionEdits.{IsEditedBy, IsAsBefore};
    ghost use Rattle.stab_session.specs.Bounds.{steps_from_change, steps_near_change, most_tried, most_refused_asks, most_checkpoints, AgreeAfter, IsCountOf};
    ghost use Rattle.stab_session.specs.Headline.{IsRunOfItems};

    /// Edits the circuit, and keeps what the edited one's run gives.
    ///
    /// Refused without a line, by the first of these: 12 and 17 along the path, 10 if blocks would
    /// be nested over 16 deep, 6, 8 and 9 as the edited circuit's check refuses, 20. The session is
    /// then as before, and the edit's item comes back. An edit that the others let through is refused
    /// by 20 alone.
    pub fn apply(&mut self, edit: Edit) -> Result<Report, Refused>
        ensures statement { IsRunOfItems C.sequence self.new }
        ensures edited { OnOk result (IsEditedBy C.sequence edit self.old self.new) }
        ensures unchanged { OnErr result (IsAsBefore C.sequence self.old self.new) }
        ensures refused { IfErr result (λ r. IsCallFault (verdict self.old.qubits edit (entries self.old.items)) r.fault) }
        ensures item { IfErr result (λ r. r.item ≡ put_item edit) }
        ensures applied { IfOk result (λ r. r.applied ≤ steps_from_change edit self.old self.new) }
        ensures by_frame { IfOk result (λ r. r.applied + r.by_frame ≤ steps_from_change edit self.old self.new + r.tried) }
        ensures tried { IfOk result (λ r. r.tried ≤ most_tried edit self.old self.new) }
        ensures early { IfOk result (λ r. (far : ℕ) → AgreeAfter C.sequence edit self.old self.new far → r.applied + (r.by_frame - r.tried) ≤ steps_near_change edit self.new + far) }
        ensures counted { IfOk result (λ r. IsCountOf C.sequence edit self.old self.new (r.applied + (r.by_frame - r.tried))) }
        ensures asks { IfOk result (λ r. C.asks self.new.coins ≤ C.asks self.old.coins + r.applied) }
        ensures refused_asks { OnErr result (C.asks self.new.coins ≤ C.asks self.old.coins + most_refused_asks edit self.old) }
        ensures checkpoints { IfOk result (λ r. r.checkpoints ≡ length self.new.checkpoints) }
        ensures few_checkpoints { OnOk result (length self.new.checkpoints ≤ most_checkpoints self.new) }
    {
        let n = self.recording.tableau.len();
        let (pending, span) = match begin(self.alloc, &mut self.circuit, n, edit) {
            Ok(begun) => begun,
            Err(refused) => return Err(refused),
        };
        let Change { paulis, rounds } = match change_of(
            self.alloc,
            &self.circuit,
            n,
            &pending,
            span,
            self.rounds.as_slice(),
        ) {
            Ok(change) => change,
            Err(refusal) => return Err(refused(&mut self.circuit, pending, refusal)),
        };
        match self.recording.follow(
            self.alloc,
            &self.circuit,
            rounds.as_slice(),
            span,
            paulis,
            self.stride,
            &mut self.coins,
            &mut self.spare,
        ) {
            Ok(followed) => {
                finish(&mut self.circuit, pending);
                self.rounds = rounds;
                Ok(Report {
                    applied: followed.applied as usize,
                    by_frame: (followed.by_frame + followed.tried) as usize,
                    tried: followed.tried as usize,
                    checkpoints: self.recording.checkpoints.len(),
                })
            }
            Err(refusal) => Err(refused(&mut self.circuit, pending, refusal)),
        }
    }
}
