/// How many qubits a circuit is on, and how many records, detectors and observables it has.
#[derive(Clone, Copy)]
pub(crate) struct Counts {
    pub qubits: usize,
    pub records: usize,
    pub detectors: usize,
    pub observables: usize,
}
