//! Letters and powers of i.
use stab_gates::Phase;
use stab_pauli::Letter;

// A number by its real and imaginary part.
type Complex = (i32, i32);
// A matrix by its rows.
type Matrix = [[Complex; 2]; 2];

const LETTERS: [Letter; 4] = [Letter::I, Letter::X, Letter::Y, Letter::Z];

const PHASES: [Phase; 4] = [
    Phase::Zero,
    Phase::Quarter,
    Phase::Half,
    Phase::ThreeQuarters,
];

fn matrix(letter: Letter) -> Matrix {
    let (zero, one, i) = ((0, 0), (1, 0), (0, 1));
    match letter {
        Letter::I => [[one, zero], [zero, one]],
        Letter::X => [[zero, one], [one, zero]],
        Letter::Y => [[zero, (0, -1)], [i, zero]],
        Letter::Z => [[one, zero], [zero, (-1, 0)]],
    }
}

fn number(phase: Phase) -> Complex {
    match phase {
        Phase::Zero => (1, 0),
        Phase::Quarter => (0, 1),
        Phase::Half => (-1, 0),
        Phase::ThreeQuarters => (0, -1),
    }
}

fn times(a: Complex, b: Complex) -> Complex {
    let real = a.0.wrapping_mul(b.0).wrapping_sub(a.1.wrapping_mul(b.1));
    let imaginary = a.0.wrapping_mul(b.1).wrapping_add(a.1.wrapping_mul(b.0));
    (real, imaginary)
}

fn plus(a: Complex, b: Complex) -> Complex {
    (a.0.wrapping_add(b.0), a.1.wrapping_add(b.1))
}

fn scaled(factor: Complex, a: Matrix) -> Matrix {
    [
        [times(factor, a[0][0]), times(factor, a[0][1])],
        [times(factor, a[1][0]), times(factor, a[1][1])],
    ]
}

fn product(a: Matrix, b: Matrix) -> Matrix {
    let entry = |row: usize, column: usize| plus(
        times(a[row][0], b[0][column]),
        times(a[row][1], b[1][column]),
    );
    [[entry(0, 0), entry(0, 1)], [entry(1, 0), entry(1, 1)]]
}

// Whether the product of two letters, with its power of i, is that of their matrices, and is negated if the two
// are exchanged and anticommute.
fn multiply(a: Letter, b: Letter) -> bool {
    let found = scaled(number(a.product_phase(b)), matrix(a.times(b)));
    let sign = if a.anticommutes(b) { (-1, 0) } else { (1, 0) };
    found == product(matrix(a), matrix(b)) && found == scaled(sign, product(matrix(b), matrix(a)))
}

// Whether a power of i is multiplied by each of the others, and by i, as numbers are.
fn phases(a: Phase) -> bool {
    let all = PHASES
        .iter()
        .all(|b| number(a.times(*b)) == times(number(a), number(*b)));
    all && number(a.times_i()) == times((0, 1), number(a))
}

// Whether a sign is this number, and comes back from it.
fn is_sign(negative: bool, wanted: Complex) -> bool {
    let phase = Phase::of_sign(negative);
    number(phase) == wanted && phase.sign() == negative
}

#[test]
fn letters_multiply_as_their_matrices_and_phases_as_numbers(rt: HostRuntime) {
    for a in LETTERS {
        let multiply = LETTERS.iter().all(|b| multiply(a, *b));
        let has_x = a.has_x() == (matrix(a)[0][0] == (0, 0));
        assert!(rt; multiply && has_x, "{a:?}");
    }
    assert!(rt; LETTERS.map(Letter::symbol) == *b"_XYZ");
    let signs = (is_sign(false, (1, 0)), is_sign(true, (-1, 0)));
    assert_eq!(rt; (PHASES.map(phases), signs), ([true; 4], (true, true)));
}
