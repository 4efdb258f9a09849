//! What is between the input of a script and the output of its replies.
ghost use Rattle.std.specs.Prelude.{List, ◌∷◌, [], Option, None};
ghost use Rattle.stab_io.specs.Devices.{Reads};
ghost use Rattle.stab_script.specs.Watchers.{Asked, Logs, asked};

use stab_io::{DeviceFault, Input, Output};

/// How the input of a script is read beside the output of its replies: each read is shown the
/// output as it is, so that the input may note how much was written when it was asked for more.
///
/// An input that keeps such a log keeps all its reads, or gives the log up.
pub trait Watcher<S: Input, O: Output> {
    // The reads that an input was asked for, oldest first, if it keeps them.
    ghost log: { S → Option (List Asked) };

    /// Reads bytes into the front of the buffer, as `Input::read` does, and notes what was written.
    fn read(script: &mut S, out: &O, buf: &mut [u8]) -> Result<usize, DeviceFault>
        ensures reads { Reads (S.seen script.old) (S.seen script.new) result buf.new }
        ensures logs { Logs (log script.old) (log script.new) (asked (O.seen out.now) result buf.new ∷ []) };
}

/// The watcher of inputs that keep no log: a read is the input's own.
pub struct NoWatcher;

impl<S: Input, O: Output> Watcher<S, O> for NoWatcher {
    ghost log = { λ _. None };

    fn read(script: &mut S, _out: &O, buf: &mut [u8]) -> Result<usize, DeviceFault> {
        script.read(buf)
    }
}
