/// A format of results, as Stim names it.
#[derive(Clone, Copy, Debug, PartialEq, Eq)]
pub enum Format {
    /// `01`: one character for each bit, then a line end.
    F01,
    /// `b8`: eight bits a byte, the least significant first.
    B8,
    /// `r8`: one byte for each run of zeros, more if a run is long.
    R8,
    /// `hits`: the positions of the 1 bits in decimal, with commas, then a line end.
    Hits,
    /// `dets`: `shot`, then the names of the 1 bits, then a line end.
    Dets,
}

/// What the bits of a shot are; only `dets` shows it.
#[derive(Clone, Copy, Debug, PartialEq, Eq)]
pub enum Kinds {
    /// All bits are measurements.
    Measurements,
    /// This many bits are detectors, and the rest are observables.
    Detectors(usize),
    /// The first `records` bits are measurements, the next `detectors` bits are detectors, and the rest are observables.
    Whole { records: usize, detectors: usize },
}
