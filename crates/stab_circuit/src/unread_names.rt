//! What is wrong with a name that is not read. Source: Stim's list of gates, `doc/gates.md` in its repository.
//!
//! `tools/tests/test_rewritings.py` compares each rewriting with the instruction by matrices.
use crate::nearest::nearest_name;
use crate::sentences;
use std::alloc::{AllocError, Global};

/// Noise channels of Stim's, and a sentence on each.
pub(crate) const CHANNELS: &[&str] = &[
    "X_ERROR: This is a noise channel: an X on each of its qubits, by the chance in brackets.",
    "Y_ERROR: This is a noise channel: a Y on each of its qubits, by the chance in brackets.",
    "Z_ERROR: This is a noise channel: a Z on each of its qubits, by the chance in brackets.",
    "I_ERROR: This is a noise channel that does nothing: an I on each of its qubits.",
    "II_ERROR: This is a noise channel that does nothing: an I on each qubit of its pairs.",
    "DEPOLARIZE1: This is a noise channel: X, Y or Z on each of its qubits, by the chance in brackets.",
    "DEPOLARIZE2: This is a noise channel: one of 15 Pauli products on each pair, by the chance in brackets.",
    "PAULI_CHANNEL_1: This is a noise channel: X, Y or Z on each of its qubits, each letter by its own chance.",
    "PAULI_CHANNEL_2: This is a noise channel: one of 15 Pauli products on each pair, each by its own chance.",
    "CORRELATED_ERROR: This is a noise channel: all of its Paulis together, by the chance in brackets.",
    "E: This is a noise channel: all of its Paulis together, by the chance in brackets.",
    "ELSE_CORRELATED_ERROR: This is a noise channel: its Paulis, by a chance, if the errors in front of it did not happen.",
    "HERALDED_ERASE: This is a noise channel that makes records: by a chance it erases a qubit, and records that.",
    "HERALDED_PAULI_CHANNEL_1: This is a noise channel that makes records: by a chance it puts in a Pauli, and records that.",
];

/// Channels that the Python package leaves out of a circuit, and of whose errors it makes no model.
const WITHOUT_MODEL: &[&str] = &["I_ERROR", "II_ERROR", "ELSE_CORRELATED_ERROR"];

/// Instructions of Stim's that are not read, and those that do the same. A Pauli gate after another gate exchanges signs.
pub(crate) const REWRITINGS: &[&str] = &[
    "H_XY 0: S 0, Y 0",
    "H_YZ 0: SQRT_X 0, Z 0",
    "H_NXY 0: S 0, X 0",
    "H_NXZ 0: H 0, Y 0",
    "H_NYZ 0: SQRT_X 0, Y 0",
    "C_NXYZ 0: C_XYZ 0, Z 0",
    "C_XNYZ 0: C_XYZ 0, X 0",
    "C_XYNZ 0: C_XYZ 0, Y 0",
    "C_NZYX 0: C_ZYX 0, X 0",
    "C_ZNYX 0: C_ZYX 0, Z 0",
    "C_ZYNX 0: C_ZYX 0, Y 0",
    "II 0 1: I 0 1",
    "XCX 0 1: H 0, CX 0 1, H 0",
    "XCY 0 1: H 0, CY 0 1, H 0",
    "XCZ 0 1: CX 1 0",
    "YCX 0 1: SQRT_X 0, CX 0 1, SQRT_X_DAG 0",
    "YCY 0 1: SQRT_X 0, CY 0 1, SQRT_X_DAG 0",
    "YCZ 0 1: CY 1 0",
    "CXSWAP 0 1: CX 0 1, SWAP 0 1",
    "SWAPCX 0 1: SWAP 0 1, CX 0 1",
    "CZSWAP 0 1: CZ 0 1, SWAP 0 1",
    "SWAPCZ 0 1: SWAP 0 1, CZ 0 1",
    "ISWAP 0 1: SWAP 0 1, CZ 0 1, S 0 1",
    "ISWAP_DAG 0 1: SWAP 0 1, CZ 0 1, S_DAG 0 1",
    "SQRT_XX 0 1: H 0 1, CZ 0 1, S 0 1, H 0 1",
    "SQRT_XX_DAG 0 1: H 0 1, CZ 0 1, S_DAG 0 1, H 0 1",
    "SQRT_YY 0 1: SQRT_X 0 1, CZ 0 1, S 0 1, SQRT_X_DAG 0 1",
    "SQRT_YY_DAG 0 1: SQRT_X 0 1, CZ 0 1, S_DAG 0 1, SQRT_X_DAG 0 1",
    "SQRT_ZZ 0 1: CZ 0 1, S 0 1",
    "SQRT_ZZ_DAG 0 1: CZ 0 1, S_DAG 0 1",
    "SPP X0*Y1*Z2: H 0, SQRT_X 1, CX 0 2 1 2, S 2, CX 0 2 1 2, SQRT_X_DAG 1, H 0",
    "SPP_DAG X0*Y1*Z2: H 0, SQRT_X 1, CX 0 2 1 2, S_DAG 2, CX 0 2 1 2, SQRT_X_DAG 1, H 0",
    "MXX 0 1: MPP X0*X1",
    "MYY 0 1: MPP Y0*Y1",
    "MZZ 0 1: MPP Z0*Z1",
];

/// Names by which programs know gates that are no Clifford gates. Stim has none of them.
const NOT_CLIFFORD: &[&str] = &[
    "T", "T_DAG", "TDG", "CCX", "CCZ", "TOFFOLI", "CSWAP", "FREDKIN", "CH", "CS", "CS_DAG", "CT",
    "R_X", "R_Y", "R_Z", "R_XX", "R_YY", "R_ZZ", "R_PAULI", "RXX", "RYY", "RZZ", "CRX", "CRY",
    "CRZ", "CP", "CPHASE", "U1", "U2", "U3",
];

/// What is wrong with a name that is not read, and what to do.
pub(crate) fn text_on_name(alloc: Global, name: &[u8]) -> Result<String, AllocError> {
    if let Some(row) = row_of(CHANNELS, name) {
        return text_on_noise(alloc, row);
    }
    if let Some(row) = row_of(REWRITINGS, name) {
        return text_on_rewritten(alloc, row);
    }
    if is_name(name, "MPAD") {
        return String::from_str(alloc, sentences::PADDING);
    }
    if NOT_CLIFFORD.iter().any(|other| is_name(name, other)) {
        return String::from_str(alloc, sentences::NOT_CLIFFORD);
    }
    match nearest_name(alloc, name)? {
        None => String::from_str(alloc, sentences::UNKNOWN_NAME),
        Some(other) => {
            format!(in alloc; "{}\nThe nearest name is {other}.", sentences::UNKNOWN_NAME)
        }
    }
}

/// The name that a row begins with.
pub(crate) fn name_of(row: &'static str) -> &'static str {
    let (word, _) = row.split_once(' ').unwrap_or((row, ""));
    word.strip_suffix(':').unwrap_or(word)
}

/// The row of a name, in whatever case it is written.
fn row_of(rows: &'static [&'static str], name: &[u8]) -> Option<&'static str> {
    for row in rows {
        if is_name(name, name_of(row)) {
            return Some(*row);
        }
    }
    None
}

fn is_name(written: &[u8], name: &str) -> bool {
    written.eq_ignore_ascii_case(name.as_bytes())
}

fn text_on_noise(alloc: Global, row: &'static str) -> Result<String, AllocError> {
    let (channel, sentence) = row.split_once(": ").unwrap_or((row, ""));
    let way_out = if channel.starts_with("HERALDED") {
        sentences::BY_HAND
    } else if WITHOUT_MODEL.iter().any(|other| *other == channel) {
        sentences::ONE_WAY
    } else {
        sentences::BOTH_WAYS
    };
    format!(in alloc; "{sentence}\n{way_out}")
}

fn text_on_rewritten(alloc: Global, row: &'static str) -> Result<String, AllocError> {
    let (instruction, others) = row.split_once(": ").unwrap_or((row, ""));
    let lines = others.replace(alloc, ", ", "\n    ")?;
    format!(in alloc;
        "{}\nIn place of {instruction} write:\n    {lines}",
        sentences::REWRITTEN
    )
}
