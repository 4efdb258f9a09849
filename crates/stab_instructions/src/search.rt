ghost use Rattle.std.specs.Prelude.{false, ◌≡◌, ◌≤◌, ◌<◌, ◌∷◌, length, take, MatchOption};
ghost use Rattle.std.specs.Option.{option_copied};
ghost use Rattle.std.specs.List.{position_or_len, list_any, slice_split};
ghost use Rattle.stab_instructions.specs.Lines.{is_brace as brace, is_byte};
ghost use Rattle.stab_instructions.specs.Words.{pieces_after};

// This many bytes are looked at at once.
const RUN: usize = 32;

/// Whether the byte is a curly bracket.
pub fn is_brace(byte: u8) -> bool
    ensures value { result ≡ brace byte }
{
    byte == b'{' || byte == b'}'
}

// Looks at all bytes, also after a brace, so the bytes of a run are looked at at once.
fn run_has_brace(run: &[u8]) -> bool
    ensures value { result ≡ list_any brace run.now }
{
    let mut found = false;
    for byte in run {
        found |= is_brace(*byte);
    }
    found
}

/// Whether a curly bracket occurs somewhere.
#[tactic(auto, using(crate::proofs::SearchLemmas::any_split))]
pub fn has_brace(bytes: &[u8]) -> bool
    ensures value { result ≡ list_any brace bytes.now }
{
    let mut rest = bytes;
    while rest.len() >= RUN {
        let (run, more) = rest.split_at(RUN);
        if run_has_brace(run) {
            return true;
        }
        rest = more;
    }
    run_has_brace(rest)
}

// Looks at all bytes, as `run_has_brace` does.
fn run_has_byte(run: &[u8], byte: u8) -> bool
    ensures value { result ≡ list_any (is_byte byte) run.now }
{
    let mut found = false;
    for other in run {
        found |= *other == byte;
    }
    found
}

/// How many bytes in front, by runs of 32, are all others.
#[tactic(auto, using(crate::proofs::SearchLemmas::others_more))]
fn others_in_front(bytes: &[u8], byte: u8) -> usize
    ensures within { result ≤ length bytes.now }
    ensures others { list_any (is_byte byte) (take result bytes.now) ≡ false }
{
    let mut length = 0;
    while bytes.len() - length >= RUN {
        let run = bytes.split_at(length).1.split_at(RUN).0;
        if run_has_byte(run, byte) {
            return length;
        }
        length += RUN;
    }
    length
}

/// Where the byte first occurs, or the length.
pub fn position_of(bytes: &[u8], byte: u8) -> usize
    ensures value { result ≡ position_or_len (is_byte byte) bytes.now }
    ensures within { result ≤ length bytes.now }
{
    let start = others_in_front(bytes, byte);
    let near = position_near(bytes.split_at(start).1, byte);
    start + near
}

fn position_near(bytes: &[u8], byte: u8) -> usize
    ensures value { result ≡ position_or_len (is_byte byte) bytes.now }
    ensures within { result ≤ length bytes.now }
{
    bytes.iter().take_while(|b| **b != byte).count()
}

/// What is before the first such byte, and what follows it, if it occurs somewhere.
#[tactic(auto, using(crate::proofs::PieceLemmas::pieces_more, crate::proofs::PieceLemmas::pieces_last))]
pub fn first_piece(bytes: &[u8], byte: u8) -> (&[u8], Option<&[u8]>)
    ensures value { slice_split (is_byte byte) bytes.now ≡ result.0.now ∷ pieces_after byte (option_copied result.1) }
    ensures shorter { MatchOption (option_copied result.1) (Unit {0}) (λ after. length after < length bytes.now) }
{
    let end = position_of(bytes, byte);
    if end == bytes.len() {
        return (bytes, None);
    }
    (bytes.split_at(end).0, Some(bytes.split_at(end + 1).1))
}
