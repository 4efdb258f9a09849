use super::Session;
use stab_circuit::Path;
use stab_circuit::laws::splits_leave_the_steps;
use stab_io::Fault;
use stab_run::Coins;

impl<C: Coins> Session<C> {
    ghost use Rattle.std.specs.Prelude.{IfErr, OnOk, OnErr};
    ghost use Rattle.stab_io.specs.Refusals.{IsCallFault};
    ghost use Rattle.stab_items.specs.Items.{entries};
    ghost use Rattle.stab_items.specs.Splits.{split_refusal};
    ghost use Rattle.stab_session.specs.SessionEdits.{IsSplit, IsAsBefore};
    ghost use Rattle.stab_session.specs.Headline.{IsRunOfItems};

    /// Splits a round off the block at a path, counted from 0: the rounds before it become a block,
    /// that round becomes one by itself, and so do the rounds after it; an empty part is left out.
    /// The steps stay, so nothing is run and nothing else changes.
    ///
    /// Refused without a line: 12 if the path goes past a list or the block has no such round, 17
    /// if it goes into or to an item that is no block, 20. The session is then as before.
    pub fn split(&mut self, path: Path, round: u64) -> Result<(), Fault>
        ensures statement { IsRunOfItems C.sequence self.new }
        ensures split { OnOk result (IsSplit path round self.old self.new) }
        ensures unchanged { OnErr result (IsAsBefore C.sequence self.old self.new) }
        ensures refused { IfErr result (λ f. IsCallFault (split_refusal path round (entries self.old.items)) f) }
    {
        splits_leave_the_steps();
        self.circuit.split(path, round)
    }
}
