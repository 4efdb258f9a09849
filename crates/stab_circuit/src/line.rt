ghost use Rattle.std.specs.Prelude.{IfErr, ◌≡◌, ◌≤◌, ◌<◌, IsTrue, length, take};
ghost use Rattle.std.specs.List.{position_or_len, prefix_len, list_all, list_any, before_first, slice_split};
ghost use Rattle.stab_io.specs.declared.refusal.Refusal.TheVariants.{BadLine};
ghost use Rattle.stab_circuit.specs.inner.Parts.{GivesBy};
ghost use Rattle.stab_instructions.specs.Lines.{is_spacing as spacing, is_letter as letter, is_digit as digit, is_name_byte as name_byte, is_brace as brace, trimmed_front, trimmed_end, trimmed, content_of, bracketed, is_byte, starts_with_byte, ends_with_byte, may_follow as can_follow};

use stab_instructions::{has_brace, is_spacing, position_of, without_spacing};
use stab_io::Refusal;

/// Whether the byte is a decimal digit.
pub fn is_digit(byte: u8) -> bool
    ensures value { result ≡ digit byte }
{
    b'0' <= byte && byte <= b'9'
}

fn is_letter(byte: u8) -> bool
    ensures value { result ≡ letter byte }
{
    (b'A' <= byte && byte <= b'Z') || (b'a' <= byte && byte <= b'z')
}

fn is_name_byte(byte: u8) -> bool
    ensures value { result ≡ name_byte byte }
{
    is_letter(byte) || is_digit(byte) || byte == b'_'
}

/// How many bytes in front may be in a name.
pub fn name_len(bytes: &[u8]) -> usize
    ensures value { result ≡ prefix_len name_byte bytes.now }
    ensures within { result ≤ length bytes.now }
{
    bytes.iter().take_while(|b| is_name_byte(**b)).count()
}

fn without_comment(line: &[u8]) -> &[u8]
    ensures value { result.now ≡ before_first (is_byte 35) line.now }
{
    &line[..position_of(line, b'#')]
}

/// What is left of a line without its comment and the spacing at both ends.
#[tactic(auto, unfolding(stab_instructions::specs::Lines::content_of))]
pub fn content(line: &[u8]) -> &[u8]
    ensures value { result.now ≡ content_of line.now }
{
    without_spacing(without_comment(line))
}

/// What the brackets directly in front hold, and what follows them.
#[tactic(auto, unfolding(stab_instructions::specs::Lines::bracketed))]
fn bracketed_in_front(bytes: &[u8], opening: u8, closing: u8) -> Result<(&[u8], &[u8]), Refusal>
    ensures gives { GivesBy (λ p. (p.0.now, p.1.now)) result (bracketed opening closing bytes.now) }
    ensures only { IfErr result (λ r. r ≡ BadLine) }
{
    if !starts_with(bytes, opening) {
        return Ok((&[], bytes));
    }
    let inside = bytes.split_at(1).1;
    let end = position_of(inside, closing);
    if end == inside.len() {
        return Err(Refusal::BadLine);
    }
    Ok((inside.split_at(end).0, inside.split_at(end + 1).1))
}

/// Whether the byte comes first.
pub fn starts_with(bytes: &[u8], byte: u8) -> bool
    ensures value { result ≡ starts_with_byte bytes.now byte }
    ensures some { IsTrue result → 0 < length bytes.now }
{
    match bytes.first() {
        Some(first) => *first == byte,
        None => false,
    }
}

/// Whether the byte comes last.
pub fn ends_with(bytes: &[u8], byte: u8) -> bool
    ensures value { result ≡ ends_with_byte bytes.now byte }
    ensures some { IsTrue result → 0 < length bytes.now }
{
    match bytes.last() {
        Some(last) => *last == byte,
        None => false,
    }
}

/// A name, its tag, arguments and targets as they are, and whether a block opens.
#[derive(Drop)]
pub struct Shape<'a> {
    pub name: &'a [u8],
    pub tag: &'a [u8],
    pub arguments: &'a [u8],
    pub targets: &'a [u8],
    pub opens: bool,
}

/// Whether targets may follow directly like this.
#[tactic(auto, unfolding(stab_instructions::specs::Lines::may_follow))]
fn may_follow(bytes: &[u8]) -> bool
    ensures value { result ≡ can_follow bytes.now }
{
    match bytes.first() {
        None => true,
        Some(first) => is_spacing(*first) || (bytes.len() == 1 && *first == b'{'),
    }
}

impl<'a> Shape<'a> {
    ghost use Rattle.std.specs.Prelude.{false, ◌≡◌, IfErr};
    ghost use Rattle.stab_io.specs.declared.refusal.Refusal.TheVariants.{BadLine};
    ghost use Rattle.stab_circuit.specs.inner.Parts.{GivesBy, shape_shown};
    ghost use Rattle.stab_instructions.specs.Lines.{shape_of};

    /// The shape of a content; refusal `BadLine` alone.
    #[tactic(auto, unfolding(stab_instructions::specs::Lines::shape_of))]
    pub fn of(content: &'a [u8]) -> Result<Shape<'a>, Refusal>
        ensures gives { GivesBy shape_shown result (shape_of content.entry.now) }
        ensures only { IfErr result (λ r. r ≡ BadLine) }
    {
        let (name, rest) = content.split_at(name_len(content));
        let (tag, rest) = bracketed_in_front(rest, b'[', b']')?;
        let (arguments, rest) = bracketed_in_front(rest, b'(', b')')?;
        let opens = ends_with(rest, b'{');
        let targets = if opens {
            rest.split_at(rest.len() - 1).0
        } else {
            rest
        };
        if starts_with_letter(content)
            && may_follow(rest)
            && !has_brace(arguments)
            && !has_brace(targets)
        {
            Ok(Shape {
                name,
                tag,
                arguments,
                targets,
                opens,
            })
        } else {
            Err(Refusal::BadLine)
        }
    }
}

/// Whether a letter comes first.
pub fn starts_with_letter(bytes: &[u8]) -> bool
    ensures value { result ≡ list_any letter (take 1 bytes.now) }
{
    match bytes.first() {
        Some(first) => is_letter(*first),
        None => false,
    }
}
