ghost use Rattle.std.specs.Prelude.{◌≡◌};

use std::alloc::{AllocError, AllocFailed};
use thiserror::Error;

/// Why a text, a command or a call was refused.
///
/// Each refusal has a number and a name, which fault lines and replies are printed with; the
/// text of `Display` is for people, and nothing rests on it.
#[derive(Clone, Copy, Debug, PartialEq, Eq, Error)]
pub enum Refusal {
    /// 1: an instruction's name isn't among those that stabsim reads.
    #[error("the name is not supported")]
    UnsupportedName,
    /// 2: arguments are missing, not allowed, or of wrong characters.
    #[error("the arguments are wrong")]
    BadArguments,
    /// 3: a target is misspelt, or of a kind that the instruction doesn't take.
    #[error("a target is wrong")]
    BadTarget,
    /// 4: targets that come in pairs are odd in number, or a pair has one qubit twice.
    #[error("the targets do not pair")]
    BadPairing,
    /// 5: a block isn't closed, isn't open, or its count is wrong.
    #[error("a block is wrong")]
    BadBlock,
    /// 6: a qubit's number is 1,024 or more, or not below the given number of qubits.
    #[error("a qubit is out of range")]
    QubitOutOfRange,
    /// 7: an observable's number is 4,096 or more.
    #[error("an observable is out of range")]
    ObservableOutOfRange,
    /// 8: a lookback reaches past the first record.
    #[error("a lookback reaches past the first record")]
    LookbackTooFar,
    /// 9: a circuit has more than 1,048,576 unrolled steps.
    #[error("there are too many steps")]
    TooManySteps,
    /// 10: blocks are nested over 16 deep.
    #[error("blocks are nested too deep")]
    TooDeep,
    /// 11: a line isn't shaped as a line.
    #[error("a line has no line's shape")]
    BadLine,
    /// 12: an edit's place is past the list.
    #[error("the place is past the list")]
    PlaceOutOfRange,
    /// 13: a script's line is no command.
    #[error("the line is no command")]
    BadCommand,
    /// 14: a text, a script's line or a script is over its limit.
    #[error("the text is too long")]
    TooLong,
    /// 15: the input failed.
    #[error("the input failed")]
    ReadFault,
    /// 16: the output failed.
    #[error("the output failed")]
    WriteFault,
    /// 17: a number of a path before its last is the position of an item that isn't a block.
    #[error("the path leads into an item that is not a block")]
    NotABlock,
    /// 18: a detector's or observable's bit depends on the random bits, and it must not.
    #[error("a detector or observable is not the same for all coins")]
    NotDeterministic,
    /// 20: memory was refused.
    #[error("memory was refused")]
    OutOfMemory,
}

impl Refusal {
    ghost use Rattle.std.specs.Prelude.{◌≡◌};
    ghost use Rattle.stab_io.specs.Refusals.{refusal_number, refusal_name};

    /// The number that the refusal is printed with: 1 to 18, or 20.
    pub fn number(self) -> u8
        ensures value { result ≡ refusal_number self }
    {
        match self {
            Refusal::UnsupportedName => 1,
            Refusal::BadArguments => 2,
            Refusal::BadTarget => 3,
            Refusal::BadPairing => 4,
            Refusal::BadBlock => 5,
            Refusal::QubitOutOfRange => 6,
            Refusal::ObservableOutOfRange => 7,
            Refusal::LookbackTooFar => 8,
            Refusal::TooManySteps => 9,
            Refusal::TooDeep => 10,
            Refusal::BadLine => 11,
            Refusal::PlaceOutOfRange => 12,
            Refusal::BadCommand => 13,
            Refusal::TooLong => 14,
            Refusal::ReadFault => 15,
            Refusal::WriteFault => 16,
            Refusal::NotABlock => 17,
            Refusal::NotDeterministic => 18,
            Refusal::OutOfMemory => 20,
        }
    }

    /// The name that the refusal is printed with.
    pub fn name(self) -> &'static str
        ensures value { result.now ≡ refusal_name self }
    {
        match self {
            Refusal::UnsupportedName => "UnsupportedName",
            Refusal::BadArguments => "BadArguments",
            Refusal::BadTarget => "BadTarget",
            Refusal::BadPairing => "BadPairing",
            Refusal::BadBlock => "BadBlock",
            Refusal::QubitOutOfRange => "QubitOutOfRange",
            Refusal::ObservableOutOfRange => "ObservableOutOfRange",
            Refusal::LookbackTooFar => "LookbackTooFar",
            Refusal::TooManySteps => "TooManySteps",
            Refusal::TooDeep => "TooDeep",
            Refusal::BadLine => "BadLine",
            Refusal::PlaceOutOfRange => "PlaceOutOfRange",
            Refusal::BadCommand => "BadCommand",
            Refusal::TooLong => "TooLong",
            Refusal::ReadFault => "ReadFault",
            Refusal::WriteFault => "WriteFault",
            Refusal::NotABlock => "NotABlock",
            Refusal::NotDeterministic => "NotDeterministic",
            Refusal::OutOfMemory => "OutOfMemory",
        }
    }
}

impl From<AllocError> for Refusal {
    ghost use Rattle.std.specs.Prelude.{◌≡◌};
    ghost use Rattle.stab_io.specs.declared.refusal.Refusal.TheVariants.{OutOfMemory};

    ghost from_gives = { λ _ r. r ≡ OutOfMemory };

    fn from(_error: AllocError) -> Refusal {
        Refusal::OutOfMemory
    }
}

impl<T: Drop> From<AllocFailed<T>> for Refusal {
    ghost use Rattle.std.specs.Prelude.{◌≡◌};
    ghost use Rattle.stab_io.specs.declared.refusal.Refusal.TheVariants.{OutOfMemory};

    ghost from_gives = { λ _ r. r ≡ OutOfMemory };

    fn from(_error: AllocFailed<T>) -> Refusal {
        Refusal::OutOfMemory
    }
}

/// A refusal with the line of the text that it comes from.
#[derive(Clone, Copy, Debug, PartialEq, Eq)]
pub struct Fault {
    /// Why.
    pub refusal: Refusal,
    /// The line, counted from 1, or 0 if the refusal belongs to no line.
    pub line: u64,
}

impl Fault {
    ghost use Rattle.std.specs.Prelude.{◌≡◌};
    ghost use Rattle.stab_io.specs.Refusals.{whole};

    /// The fault of a refusal that belongs to no line.
    pub fn whole(refusal: Refusal) -> Fault
        ensures value { result ≡ whole refusal }
    {
        Fault { refusal, line: 0 }
    }
}

impl From<AllocError> for Fault {
    ghost use Rattle.std.specs.Prelude.{◌≡◌};
    ghost use Rattle.stab_io.specs.Refusals.{whole};
    ghost use Rattle.stab_io.specs.declared.refusal.Refusal.TheVariants.{OutOfMemory};

    ghost from_gives = { λ _ f. f ≡ whole OutOfMemory };

    fn from(_error: AllocError) -> Fault {
        Fault::whole(Refusal::OutOfMemory)
    }
}

impl<T: Drop> From<AllocFailed<T>> for Fault {
    ghost use Rattle.std.specs.Prelude.{◌≡◌};
    ghost use Rattle.stab_io.specs.Refusals.{whole};
    ghost use Rattle.stab_io.specs.declared.refusal.Refusal.TheVariants.{OutOfMemory};

    ghost from_gives = { λ _ f. f ≡ whole OutOfMemory };

    fn from(_error: AllocFailed<T>) -> Fault {
        Fault::whole(Refusal::OutOfMemory)
    }
}
