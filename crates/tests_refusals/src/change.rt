use stab_circuit::Path;

/// What a call on a circuit or a session does.
#[derive(Clone, Copy)]
pub enum Kind {
    Read,
    ReadItem,
    Insert,
    Replace,
    Delete,
    Split,
    ReducedRows,
}

/// A call: what it does, the text of the circuit that it begins with, the numbers of its place, and
/// the text of its item, which is empty if it has none.
#[derive(Clone, Copy)]
pub struct Change(
    pub Kind,
    pub &'static [u8],
    pub &'static [usize],
    pub &'static [u8],
);

impl Change {
    /// Its place.
    pub fn path(self) -> Path {
        let Change(_, _, numbers, _) = self;
        if numbers.is_empty() || numbers.len() > 17 {
            return Path::new(&[0]);
        }
        Path::new(numbers)
    }
}
