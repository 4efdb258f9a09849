/// What is timed of a tableau.
#[derive(Clone, Copy)]
pub enum Work {
    /// The gate Cx on a qubit and the one after it.
    Cx,
    /// The measurement of Z on a qubit.
    Measure,
    /// The gate H and then the measurement of Z, which it makes random, on a qubit by itself.
    RandomDistinct,
}

/// A work, and how it is timed: in rounds that take about a millisecond or more.
#[derive(Clone, Copy)]
pub struct TimedWork {
    /// What the table calls it.
    pub name: &'static str,
    pub work: Work,
    /// Whether it starts from the zero state, and not from a scrambled one.
    pub from_zeros: bool,
    /// How many calls a round has, in passes over the qubits; one pass if it has fewer calls than qubits.
    pub calls: usize,
}

/// All works, in the order of the table.
pub const ALL: &'static [TimedWork] = &[
    TimedWork {
        name: "gate Cx, scrambled",
        work: Work::Cx,
        from_zeros: false,
        calls: 65_536,
    },
    TimedWork {
        name: "fixed collapse",
        work: Work::Measure,
        from_zeros: true,
        calls: 65_536,
    },
    TimedWork {
        name: "H, free collapse",
        work: Work::RandomDistinct,
        from_zeros: true,
        calls: 4096,
    },
    // A second pass would find fixed outcomes.
    TimedWork {
        name: "free collapse, scrambled",
        work: Work::Measure,
        from_zeros: false,
        calls: 1,
    },
];
