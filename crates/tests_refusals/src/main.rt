//! The program `tests_refusals`: calls that are refused memory, at each request in turn.
//!
//! Each call is made on values that had ample memory. If it answers 20, all that its contract names
//! must be as before, and the call, made again, must give what a call gives that was never refused. By
//! itself the program is refused nothing: `tools/refuse.c` refuses the requests. A line says how each
//! call ended.
//! Words and commands are not here: `tools/refuse.py` refuses the requests of the whole program for them.
//!
//! - `trial`: a call that is tried, and how it ended; `window`: where memory may be refused.
//! - `stop`: what ended a call early.
//! - `sheet`: values as bytes, to be compared; `item_slot`: an item beside a circuit; `one_drop`: values that are let go.
//! - `change`: calls on a circuit or a session, as rows of tables.
//! - `strings`, `states`, `circuits`, `runs`, `sessions`, `edits`: the calls, by what they work on.
//!
//! It is proved safe. What it finds is tested, not proved.
#![tactic(auto)]

mod change;
mod circuits;
mod edits;
mod item_slot;
mod one_drop;
mod runs;
mod sessions;
mod sheet;
mod states;
mod stop;
mod strings;
mod trial;
mod window;

use circuits::CircuitCall;
use edits::SessionCall;
use sessions::Opening;
use states::TableauCall;
use std::io;
use strings::Making;
use trial::print_calls;

fn main(rt: HostRuntime) -> io::Result<()> {
    print_calls::<Making, _>(&rt, strings::MAKERS)?;
    print_calls::<TableauCall, _>(&rt, states::CALLS)?;
    print_calls::<CircuitCall, _>(&rt, circuits::CALLS)?;
    runs::print_all(&rt)?;
    print_calls::<Opening, _>(&rt, &[("Session::open", ())])?;
    print_calls::<SessionCall, _>(&rt, edits::ROWS)?;
    edits::print_all(&rt)
}
