use crate::stop::Stop;
use crate::window;
use stab_pauli::MemoryOutput;
use std::alloc::Global;
use std::io;

/// A call with the values that it works on and those that it has given.
pub trait Trial: Drop {
    /// Which call it is.
    type Call: Copy;

    /// A call that is still to be made.
    fn new(alloc: Global, call: Self::Call) -> Result<Self, Stop>;

    /// Makes the call, and keeps what it gives.
    fn call(&mut self, alloc: Global) -> Result<(), Stop>;

    /// Writes all that contracts name of the values.
    fn show(&mut self, alloc: Global, out: &mut MemoryOutput) -> Result<(), Stop>;
}

/// How a call whose requests for memory may be refused ended.
#[derive(Clone, Copy)]
pub enum Ending {
    /// It gave what it gives.
    Gave,
    /// It was refused memory and left all as before; made again, it gave what it gives.
    Stored,
    /// It did anything else.
    Wrong,
}

impl Ending {
    /// This ending if all is right.
    pub fn if_right(self, right: bool) -> Ending {
        if right { self } else { Ending::Wrong }
    }

    /// What is printed of it.
    fn text(self) -> &'static str {
        match self {
            Ending::Gave => "gave",
            Ending::Stored => "refused, as before, gave",
            Ending::Wrong => "WRONG",
        }
    }
}

/// Room for all that a trial shows.
pub const ROOM: usize = 65_536;

/// What a trial shows.
fn shown<T: Trial>(alloc: Global, trial: &mut T) -> Result<MemoryOutput, Stop> {
    let mut out = MemoryOutput::new(alloc, ROOM)?;
    trial.show(alloc, &mut out)?;
    Ok(out)
}

/// Whether a trial shows these bytes.
fn shows<T: Trial>(alloc: Global, trial: &mut T, bytes: &[u8]) -> Result<bool, Stop> {
    let now = shown(alloc, trial)?;
    Ok(now.bytes() == bytes)
}

/// Makes the call of a trial, if its requests may be refused.
fn call_refused<T: Trial>(alloc: Global, trial: &mut T) -> Result<(), Stop> {
    window::open(alloc);
    let answer = trial.call(alloc);
    window::close(alloc);
    answer
}

/// Makes the call of a trial that shows these bytes, and makes it again if it was refused and left
/// all as before.
fn call_again<T: Trial>(alloc: Global, trial: &mut T, before: &[u8]) -> Result<Ending, Stop> {
    let Err(stop) = call_refused(alloc, trial) else {
        return Ok(Ending::Gave);
    };
    let preserved = shows(alloc, trial, before)?;
    trial.call(alloc)?;
    Ok(Ending::Stored.if_right(preserved && stop.is_memory()))
}

/// Tries a call, and compares what it shows in the end with these bytes.
pub fn compare<T: Trial>(alloc: Global, call: T::Call, wanted: &[u8]) -> Result<Ending, Stop> {
    let mut trial = T::new(alloc, call)?;
    let before = shown(alloc, &mut trial)?;
    let ending = call_again(alloc, &mut trial, before.bytes())?;
    Ok(ending.if_right(shows(alloc, &mut trial, wanted)?))
}

/// What a call shows in the end that is refused nothing.
fn wanted<T: Trial>(alloc: Global, call: T::Call) -> Result<MemoryOutput, Stop> {
    let mut trial = T::new(alloc, call)?;
    trial.call(alloc)?;
    shown(alloc, &mut trial)
}

/// Tries a call, and compares what it gave with what the same call gives that is refused nothing.
pub fn try_call<T: Trial>(alloc: Global, call: T::Call) -> Result<Ending, Stop> {
    let wanted = wanted::<T>(alloc, call)?;
    compare::<T>(alloc, call, wanted.bytes())
}

/// Prints how a call ended; for values that could not be made, which fault came up.
pub fn print_ending<R: Print>(rt: &R, name: &str, ended: Result<Ending, Stop>) -> io::Result<()> {
    match ended {
        Ok(ending) => println!(rt; "{name}: {}", ending.text()),
        Err(Stop(fault)) => println!(rt; "{name}: WRONG, {fault:?}"),
    }
}

/// Tries calls, and prints how each ended.
pub fn print_calls<T: Trial, R: AllocGlobal + Print>(
    rt: &R,
    calls: &[(&str, T::Call)],
) -> io::Result<()> {
    for (name, call) in calls {
        print_ending(rt, name, try_call::<T>(rt.alloc(), *call))?;
    }
    Ok(())
}
