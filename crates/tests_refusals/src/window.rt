//! Where memory may be refused: between two requests that `tools/refuse.c` knows by their sizes, and
//! always grants.
use stab_pauli::MemoryOutput;
use std::alloc::Global;

/// This many bytes are asked for to say that requests may be refused from now on.
const OPENS: usize = 999_979;

/// This many bytes are asked for to say that requests are granted from now on.
const CLOSES: usize = 999_983;

/// Lets requests for memory be refused.
pub fn open(alloc: Global) {
    let _ = MemoryOutput::new(alloc, OPENS);
}

/// Lets no request for memory be refused any more.
pub fn close(alloc: Global) {
    let _ = MemoryOutput::new(alloc, CLOSES);
}
