//! The run before an edit, which a replay of the edited circuit follows.

use crate::checkpoint::Checkpoint;
use stab_run::Outputs;

/// What is stored of the run of the circuit as it was before an edit.
#[derive(Clone, Copy)]
pub struct OldRun<'a> {
    pub checkpoints: &'a [Checkpoint],
    pub outputs: &'a Outputs,
}
