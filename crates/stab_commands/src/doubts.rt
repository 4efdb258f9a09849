//! The marks of a circuit that may be meant in another way.
ghost use Rattle.std.specs.Prelude.{◌≡◌, ◌<◌, None, All, length, IfOk, IfErr};
ghost use Rattle.stab_io.specs.Refusals.{whole};
ghost use Rattle.stab_io.specs.declared.refusal.Refusal.TheVariants.{OutOfMemory};
ghost use Rattle.stab_items.specs.Steps.{check_of, unroll};
ghost use Rattle.stab_items.specs.Views.{circuit_items};
ghost use Rattle.stab_report.specs.DoubtLines.{doubts_of};

use stab_circuit::Circuit;
use stab_error_model::{DoubtfulMark, doubtful_marks};
use stab_io::Fault;
use std::alloc::Global;

/// The doubtful marks that a call looks at: none if it takes errors everywhere.
pub(crate) fn doubts_of(
    alloc: Global,
    circuit: &Circuit,
    everywhere: bool,
) -> Result<Vec<DoubtfulMark>, Fault>
    requires checked { check_of (circuit_items circuit.now) ≡ None }
    ensures value { IfOk result (λ v. v.items ≡ doubts_of everywhere (circuit_items circuit.now)) }
    ensures inside { IfOk result (λ v. All (λ m. m.step < length (unroll (circuit_items circuit.now))) v.items) }
    ensures err { IfErr result (λ f. f ≡ whole OutOfMemory) }
{
    if everywhere {
        return Ok(Vec::new(alloc));
    }
    doubtful_marks(alloc, circuit).map_err(Fault::whole)
}
