//! Signed Pauli strings: made, changed, multiplied, printed.
use crate::texts::{
    both, commute, multiply, multiply_letters, prints, read, repeated, set, single,
};
use StringChange::{Clear, Copy, Negate, NegateIf, Set, Single, Times, TimesLetters};
use stab_pauli::{Letter, MemoryOutput, Pauli, Refusal};
use std::alloc::Global;
use std::test::Fail;

// A change of a string.
#[derive(Clone, Copy)]
enum StringChange {
    Set(usize, Letter),
    NegateIf(bool),
    Negate,
    Clear,
    // A copy takes the place of the string, which is negated once it is copied.
    Copy,
    // One letter takes the place of all.
    Single(usize, Letter),
    // The product with the string of a text, times i if the two anticommute.
    Times(&'static str),
    // The letters of that product, with the sign as it was.
    TimesLetters(&'static str),
}

fn go_on_with_copy(alloc: Global, pauli: &mut Pauli) -> Result<bool, Refusal> {
    let copy = pauli.copy(alloc)?;
    pauli.negate();
    *pauli = copy;
    Ok(true)
}

fn become_single(
    alloc: Global,
    pauli: &mut Pauli,
    qubit: usize,
    letter: Letter,
) -> Result<bool, Refusal> {
    *pauli = single(alloc, pauli.len(), qubit, letter)?;
    Ok(true)
}

fn times(alloc: Global, pauli: &mut Pauli, text: &str) -> Result<bool, Refusal> {
    let other = read(alloc, text)?;
    Ok(multiply(pauli, &other))
}

fn times_letters(alloc: Global, pauli: &mut Pauli, text: &str) -> Result<bool, Refusal> {
    let other = read(alloc, text)?;
    Ok(multiply_letters(pauli, &other))
}

// Makes a change, and says whether it can be made.
fn make(alloc: Global, pauli: &mut Pauli, change: StringChange) -> Result<bool, Refusal> {
    match change {
        StringChange::Set(qubit, letter) => set(pauli, qubit, letter),
        StringChange::NegateIf(bit) => pauli.negate_if(bit),
        StringChange::Negate => pauli.negate(),
        StringChange::Clear => pauli.clear(),
        StringChange::Copy => return go_on_with_copy(alloc, pauli),
        StringChange::Single(qubit, letter) => return become_single(alloc, pauli, qubit, letter),
        StringChange::Times(text) => return times(alloc, pauli, text),
        StringChange::TimesLetters(text) => return times_letters(alloc, pauli, text),
    }
    Ok(true)
}

// Whether a string that is changed is then this one, with this first X or Y.
fn becomes(
    alloc: Global,
    old: &str,
    change: StringChange,
    new: &str,
    first: Option<usize>,
) -> Result<bool, Refusal> {
    let mut pauli = read(alloc, old)?;
    let made = make(alloc, &mut pauli, change)?;
    let begins = pauli.first_x() == first;
    both(Ok(made && begins), prints(alloc, &pauli, new))
}

// Sixty-five letters, none of which is X, Y or Z.
const LONG: &str = "+_________________________________________________________________";

// A string, its change, what that makes of it, and the first X or Y of that.
const CHANGES: &[(&str, StringChange, &str, Option<usize>)] = &[
    ("+", NegateIf(false), "+", None),
    ("+__", NegateIf(false), "+__", None),
    ("-X__", Single(1, Letter::Y), "+_Y_", Some(1)),
    ("+___", Set(1, Letter::Y), "+_Y_", Some(1)),
    ("+_Y_", Copy, "+_Y_", Some(1)),
    ("-_Y_", Copy, "-_Y_", Some(1)),
    ("+_Y_", Negate, "-_Y_", Some(1)),
    ("-_Y_", Set(2, Letter::X), "-_YX", Some(1)),
    ("-_YX", NegateIf(false), "-_YX", Some(1)),
    ("-_YX", NegateIf(true), "+_YX", Some(1)),
    ("+_YX", Negate, "-_YX", Some(1)),
    ("-_YX", Clear, "+___", None),
    // A letter is at the end of a word, and after it.
    (
        LONG,
        Set(63, Letter::X),
        "+_______________________________________________________________X_",
        Some(63),
    ),
    (
        LONG,
        Set(64, Letter::Y),
        "+________________________________________________________________Y",
        Some(64),
    ),
    (
        LONG,
        Set(64, Letter::Z),
        "+________________________________________________________________Z",
        None,
    ),
    // Products keep their sign and their power of i; letters of products leave the sign.
    ("+XX", Times("+ZZ"), "-YY", Some(0)),
    ("+XX", TimesLetters("+ZZ"), "+YY", Some(0)),
    ("-XX", Times("+ZZ"), "+YY", Some(0)),
    ("-XX", TimesLetters("+ZZ"), "-YY", Some(0)),
    ("-XX", Times("-ZZ"), "-YY", Some(0)),
    ("-XX", TimesLetters("-ZZ"), "-YY", Some(0)),
    ("+XY", Times("+YX"), "+ZZ", None),
    ("+XY", TimesLetters("+YX"), "+ZZ", None),
    ("+YY", Times("+XX"), "-ZZ", None),
    ("+YY", TimesLetters("+XX"), "+ZZ", None),
    ("+XXXX", Times("+ZZZZ"), "+YYYY", Some(0)),
    ("+XXXX", TimesLetters("+ZZZZ"), "+YYYY", Some(0)),
    ("+XYZ_", Times("+XYZ_"), "+____", None),
    ("+XYZ_", TimesLetters("+XYZ_"), "+____", None),
    ("-_Z", Times("+Z_"), "-ZZ", None),
    ("-_Z", TimesLetters("+Z_"), "-ZZ", None),
    ("-", Times("-"), "+", None),
    ("-", TimesLetters("-"), "-", None),
    // Strings that anticommute.
    ("+X_", Times("+Y_"), "-Z_", None),
    ("+X_", TimesLetters("+Y_"), "+Z_", None),
    ("+Y_", Times("+X_"), "+Z_", None),
    ("+Y_", TimesLetters("+X_"), "+Z_", None),
    ("+X_", Times("+Z_"), "+Y_", Some(0)),
    ("+X_", TimesLetters("+Z_"), "+Y_", Some(0)),
    ("-X", Times("+Z"), "-Y", Some(0)),
    ("-X", TimesLetters("+Z"), "-Y", Some(0)),
    ("+XXX", Times("+ZZZ"), "-YYY", Some(0)),
    ("+XXX", TimesLetters("+ZZZ"), "+YYY", Some(0)),
    ("-X_", Times("-Z_"), "+Y_", Some(0)),
    ("-X_", TimesLetters("-Z_"), "-Y_", Some(0)),
];

#[test]
fn a_pauli_is_changed(rt: HostRuntime) -> Result<(), Fail> {
    for &(old, change, new, first) in CHANGES {
        let right = becomes(rt.alloc(), old, change, new, first)?;
        assert!(rt; right, "{old} to {new}");
    }
    Ok(())
}

// Whether a string's text is cut at this many bytes by an output that has no more room, and this is reported.
fn is_cut(alloc: Global, pauli: &Pauli, text: &str, room: usize) -> Result<bool, Refusal> {
    let mut out = MemoryOutput::new(alloc, room)?;
    let failed = pauli.write_text(&mut out) == Err(Refusal::WriteFault);
    Ok(failed && out.bytes() == &text.as_bytes()[..room.min(text.len())])
}

// Whether each output with too little room keeps what it has room for.
fn is_cut_everywhere(alloc: Global, pauli: &Pauli, text: &str) -> Result<bool, Refusal> {
    for room in 0..text.len() {
        if !is_cut(alloc, pauli, text, room)? {
            return Ok(false);
        }
    }
    Ok(true)
}

// Whether that holds, and the whole text is printed.
fn is_printed(alloc: Global, text: &str) -> Result<bool, Refusal> {
    let pauli = read(alloc, text)?;
    both(
        is_cut_everywhere(alloc, &pauli, text),
        prints(alloc, &pauli, text),
    )
}

const TEXTS: &[&str] = &[
    "+",
    "-_XY",
    "-_XYZ_XYZ_XYZ_XYZ_XYZ_XYZ_XYZ_XYZ_XYZ_XYZ_XYZ_XYZ_XYZ_XYZ_XYZ_XYZ_XYZ_XYZ",
];

#[test]
fn a_failing_output_keeps_a_prefix_of_the_text(rt: HostRuntime) -> Result<(), Fail> {
    for text in TEXTS {
        let right = is_printed(rt.alloc(), text)?;
        assert!(rt; right, "{text}");
    }
    Ok(())
}

// Whether all letters are the same one.
fn is_repeated(pauli: &Pauli, letter: Letter) -> bool {
    let mut all = true;
    for qubit in 0..pauli.len() {
        all &= pauli.letter(qubit) == letter;
    }
    all
}

// Whether n letters X and n letters Z commute or do not, and the product, times i if they do not, has this sign
// and letters Y alone.
fn x_times_z(alloc: Global, n: usize, commutes: bool, negative: bool) -> Result<bool, Refusal> {
    let mut pauli = repeated(alloc, n, Letter::X)?;
    let other = repeated(alloc, n, Letter::Z)?;
    let reported = commute(&pauli, &other) == commutes;
    let multiplied = multiply(&mut pauli, &other);
    Ok(reported && multiplied && pauli.is_negative() == negative && is_repeated(&pauli, Letter::Y))
}

// XZ is -iY, so the product of n is (-i)^n times Y, and i times that for odd n.
const X_AND_Z: &[(usize, bool, bool)] = &[
    (0, true, false),
    (1, false, false),
    (2, true, true),
    (63, false, true),
    (64, true, false),
    (65, false, false),
    (66, true, true),
    (255, false, true),
    (256, true, false),
    (257, false, false),
    (258, true, true),
    (1022, true, true),
    (1023, false, true),
    (1024, true, false),
];

#[test]
fn strings_of_x_and_z_multiply_over_all_qubits(rt: HostRuntime) -> Result<(), Fail> {
    for &(n, commutes, negative) in X_AND_Z {
        let right = x_times_z(rt.alloc(), n, commutes, negative)?;
        assert!(rt; right, "{n}");
    }
    Ok(())
}
