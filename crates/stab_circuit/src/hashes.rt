ghost use Rattle.std.specs.Prelude.{◌+◌, ◌≤◌, length};

/// How many slots the table of known lines has.
pub(crate) const LINE_SLOTS: usize = 32_768;

/// How many slots the table of known stretches has.
pub(crate) const STRETCH_SLOTS: usize = 1024;

/// A line's slot comes from this many of its first bytes.
const LINE_FRONT: usize = 16;

/// A stretch's slot comes from this many of its first bytes, which are of a few lines.
const STRETCH_FRONT: usize = 32;

/// An odd number by which sums of bytes are spread over the slots.
const SPREAD: u64 = 0x9E37_79B9_7F4A_7C15;

/// The hash of the first bytes of a line or a stretch: a slot in a table, and a check, by which most of one slot
/// are distinguished without a look at them.
#[derive(Clone, Copy)]
pub(crate) struct Hash {
    pub(crate) slot: usize,
    pub(crate) check: u16,
}

/// Past each table.
pub(crate) const NO_HASH: Hash = Hash {
    slot: LINE_SLOTS,
    check: 0,
};

/// The hash of the line that a text begins with, by its first 16 bytes.
pub(crate) fn line_hash(text: &[u8]) -> Hash {
    if text.len() < LINE_FRONT {
        return NO_HASH;
    }
    let (first, second) = (word_at(text, 0), word_at(text, 8));
    let ends = line_ends(first);
    let following = if ends == 0 {
        before_end(second, line_ends(second))
    } else {
        0
    };
    let both = before_end(first, ends) ^ following.rotate_left(29);
    let sum = (both ^ (both >> 32)).wrapping_mul(SPREAD);
    Hash {
        slot: (sum >> 49) as usize,
        check: (sum >> 36 & 0xFFFF) as u16,
    }
}

/// The hash of the stretch that a text begins with, by its first 32 bytes.
pub(crate) fn stretch_hash(text: &[u8]) -> Hash {
    if text.len() < STRETCH_FRONT {
        return NO_HASH;
    }
    let first = word_at(text, 0) ^ word_at(text, 8).rotate_left(29);
    let second = word_at(text, 16) ^ word_at(text, 24).rotate_left(29);
    let both = first.wrapping_mul(SPREAD) ^ second;
    let sum = (both ^ (both >> 32)).wrapping_mul(SPREAD);
    Hash {
        slot: (sum >> 54) as usize,
        check: (sum >> 36 & 0xFFFF) as u16,
    }
}

/// The eight bytes from a position on, as one number.
#[inline(always)]
fn word_at(bytes: &[u8], position: usize) -> u64
    requires inside { position + 8 ≤ length bytes.now }
{
    u64::from_le_bytes([
        bytes[position],
        bytes[position + 1],
        bytes[position + 2],
        bytes[position + 3],
        bytes[position + 4],
        bytes[position + 5],
        bytes[position + 6],
        bytes[position + 7],
    ])
}

/// The highest bit of the first of eight bytes that ends a line, and perhaps of others after it: a byte
/// becomes 0 where it ends one.
#[inline(always)]
fn line_ends(word: u64) -> u64 {
    let distinct = word ^ 0x0A0A_0A0A_0A0A_0A0A;
    distinct.wrapping_sub(0x0101_0101_0101_0101) & !distinct & 0x8080_8080_8080_8080
}

/// The bytes before the first that ends a line, and 0 for the others; all if none does.
#[inline(always)]
fn before_end(word: u64, ends: u64) -> u64 {
    let end = (ends & 0_u64.wrapping_sub(ends)) >> 7;
    word & end.wrapping_sub(1)
}
