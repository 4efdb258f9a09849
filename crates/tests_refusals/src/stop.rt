use stab_pauli::{Fault, Refusal};
use std::alloc::AllocError;

/// What ended a call early: the fault that it answered, or its refusal as a fault without a line.
#[derive(Clone, Copy)]
pub struct Stop(pub Fault);

impl Stop {
    /// Whether memory was refused.
    pub fn is_memory(self) -> bool {
        self.0 == Fault::whole(Refusal::OutOfMemory)
    }
}

impl From<Fault> for Stop {
    fn from(fault: Fault) -> Stop {
        Stop(fault)
    }
}

impl From<Refusal> for Stop {
    fn from(refusal: Refusal) -> Stop {
        Stop(Fault::whole(refusal))
    }
}

impl From<AllocError> for Stop {
    fn from(error: AllocError) -> Stop {
        Stop(Fault::from(error))
    }
}
