//! The coins of a file, which is read whole.
ghost use Rattle.stab_cli.specs.Coins.{ReadsCoins};

use stab_args::file_coins;
use stab_circuit::read_text;
use stab_io::{Input, Refusal};
use std::alloc::{AllocError, Global};

/// Why a file gave no coins.
#[derive(Clone, Copy, Debug)]
pub enum CoinsFault {
    /// It was not read whole, by `TooLong` or `ReadFault`, or the answer is 20.
    Unread(Refusal),
    /// It has something other than characters 0 and 1 and a line end after them.
    Wrong,
}

impl From<Refusal> for CoinsFault {
    ghost use Rattle.std.specs.Prelude.{◌≡◌};
    ghost use Rattle.stab_cli.specs.declared.coins.CoinsFault.TheVariants.{Unread};

    ghost from_gives = { λ r f. f ≡ Unread r };

    fn from(refusal: Refusal) -> CoinsFault {
        CoinsFault::Unread(refusal)
    }
}

impl From<AllocError> for CoinsFault {
    ghost use Rattle.std.specs.Prelude.{◌≡◌};
    ghost use Rattle.stab_io.specs.declared.refusal.Refusal.TheVariants.{OutOfMemory};
    ghost use Rattle.stab_cli.specs.declared.coins.CoinsFault.TheVariants.{Unread};

    ghost from_gives = { λ _ f. f ≡ Unread OutOfMemory };

    fn from(_error: AllocError) -> CoinsFault {
        CoinsFault::Unread(Refusal::OutOfMemory)
    }
}

/// Reads all of an input as the coins of a file: characters 0 and 1, coin 0 first, and at most one line
/// end after them, in at most 16,777,216 bytes.
///
/// No coins if another byte is met (`CoinsFault::Wrong`), or if the input failed, has more bytes, or
/// memory was refused (`CoinsFault::Unread`). At most 4,096 bytes past the limit are read.
pub fn read_coins<I: Input>(alloc: Global, input: &mut I) -> Result<Vec<bool>, CoinsFault>
    ensures reads { ReadsCoins (I.seen input.old) (I.seen input.new) result }
{
    let text = read_text(alloc, input)?;
    match file_coins(alloc, text.as_slice())? {
        Some(coins) => Ok(coins),
        None => Err(CoinsFault::Wrong),
    }
}
