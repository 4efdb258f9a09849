use crate::sequence::Sequence;
use std::alloc::{AllocError, Global};
use std::marker::Model;

/// How many bytes are stored without memory of their own.
const SHORT: usize = 22;

/// Coordinates, each as it was written.
///
/// They are stored in one piece, with what was between them. Few take no memory.
pub struct Coordinates {
    written: BracketText,
}

/// What brackets held.
#[derive(Drop)]
enum BracketText {
    /// The bytes up to this number of them.
    Short { len: u8, bytes: [u8; 22] },
    // In a box, so that coordinates stay small.
    Long(Box<Sequence<u8>>),
}

// Written out, so that a proof sees the drop of a value as one call, and not one for each of its parts.
impl Drop for Coordinates {
    fn drop(self) {
        let Coordinates { written: _ } = self;
    }
}

impl Model for Coordinates {
    ghost use Rattle.std.specs.Prelude.{ℕ, List};
    ghost use Rattle.stab_instructions.specs.Words.{arguments_of};

    ghost Value = { List (List ℕ) };

    ghost use Rattle.stab_instructions.specs.inner.BracketTexts.{bracket_bytes, IsBracketText};

    ghost view = { λ c. arguments_of (bracket_bytes c.written) };

    ghost invariant = { λ c. IsBracketText c.written };
}

impl BracketText {
    ghost use Rattle.std.specs.Prelude.{◌≡◌, ◌≤◌, length};
    ghost use Rattle.stab_instructions.specs.inner.BracketTexts.{bracket_bytes, IsBracketText};

    /// A copy of a few bytes.
    fn short(text: &[u8]) -> BracketText
        requires few { length text.now ≤ 22 }
        ensures value { bracket_bytes result ≡ text.now }
        ensures preserved { IsBracketText result }
    {
        let len = text.len();
        let mut bytes = [0; SHORT];
        bytes[..len].copy_from_slice(text);
        BracketText::Short {
            len: len as u8,
            bytes,
        }
    }

    /// The bytes.
    fn bytes(&self) -> &[u8]
        requires preserved { IsBracketText self.now }
        ensures value { result.now ≡ bracket_bytes self.now }
    {
        match self {
            BracketText::Short { len, bytes } => &bytes[..usize::from(*len)],
            BracketText::Long(bytes) => bytes.as_slice(),
        }
    }
}

impl Coordinates {
    ghost use Rattle.std.specs.Prelude.{◌≡◌, IfOk};
    ghost use Rattle.stab_instructions.specs.Words.{arguments_of};

    /// A copy of what the brackets hold.
    pub fn of(alloc: Global, arguments: &[u8]) -> Result<Coordinates, AllocError>
        ensures ok { IfOk result (λ c. c ≡ arguments_of arguments.now) }
    {
        let written = if arguments.len() <= SHORT {
            BracketText::short(arguments)
        } else {
            let bytes = Sequence::of_bytes(alloc, arguments)?;
            BracketText::Long(Box::new(alloc, bytes)?)
        };
        Ok(Coordinates { written })
    }

    /// What the brackets held.
    pub(crate) fn written(&self) -> &[u8]
        ensures value { arguments_of result.now ≡ self.now }
    {
        self.written.bytes()
    }

    /// A copy.
    pub fn copy(&self, alloc: Global) -> Result<Coordinates, AllocError>
        ensures ok { IfOk result (λ c. c ≡ self.now) }
    {
        Coordinates::of(alloc, self.written())
    }
}
