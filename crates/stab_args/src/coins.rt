//! Coins that are written as characters 0 and 1, in a word or in a file.
ghost use Rattle.std.specs.Prelude.{◌≡◌, ◌++◌, ◌∷◌, Bool, List, true, false, IfOk, IfSome, IfNone};
ghost use Rattle.stab_args.specs.Coins.{IsFileEnd, IsLineEnd, StandsForCoins, coin_character, coin_text};
ghost use Rattle.stab_args.specs.inner.Parts.{BeginsWithNoCoin};

use std::alloc::{AllocError, Global};

/// What is said about coins that are no coins.
pub const NO_COINS: &str = "stabsim: coins are 0 and 1\n";

/// The coin that the first character of a text writes, and the text after it.
fn first_coin(text: &[u8]) -> Option<(bool, &[u8])>
    ensures some { IfSome result (λ r. text.now ≡ coin_character r.0 ∷ r.1.now) }
    ensures none { IfNone result (BeginsWithNoCoin text.now) }
{
    match text.split_first() {
        Some((b'0', rest)) => Some((false, rest)),
        Some((b'1', rest)) => Some((true, rest)),
        _ => None,
    }
}

/// The coins that the characters of a text write, up to the first that is no coin's, and the text from
/// there on.
fn coins_at_front(alloc: Global, text: &[u8]) -> Result<(Vec<bool>, &[u8]), AllocError>
    ensures split { IfOk result (λ r. text.now ≡ coin_text r.0.items ++ r.1.now) }
    ensures rest { IfOk result (λ r. BeginsWithNoCoin r.1.now) }
{
    let mut coins = Vec::with_capacity(alloc, text.len())?;
    let mut rest = text;
    while let Some((coin, after)) = first_coin(rest) {
        coins.push(coin)?;
        rest = after;
    }
    Ok((coins, rest))
}

/// The coins that a text writes, or `None` if one of its characters is neither 0 nor 1.
pub(crate) fn coins_of(alloc: Global, text: &[u8]) -> Result<Option<Vec<bool>>, AllocError>
    ensures some { IfOk result (λ r. IfSome r (λ list. text.now ≡ coin_text list.items)) }
    ensures none { IfOk result (λ r. IfNone r ((list : List Bool) → text.now ≡ coin_text list → ⊥)) }
{
    let (coins, rest) = coins_at_front(alloc, text)?;
    if rest.is_empty() {
        Ok(Some(coins))
    } else {
        Ok(None)
    }
}

/// Whether this is a line end.
fn is_line_end(bytes: &[u8]) -> bool
    ensures end { result ≡ true → IsLineEnd bytes.now }
    ensures other { result ≡ false → IsLineEnd bytes.now → ⊥ }
{
    bytes == b"\n".as_slice() || bytes == b"\r\n".as_slice()
}

/// Whether this may follow the coins of a file: nothing, or one line end.
fn is_file_end(bytes: &[u8]) -> bool
    ensures end { result ≡ true → IsFileEnd bytes.now }
    ensures other { result ≡ false → IsFileEnd bytes.now → ⊥ }
{
    bytes.is_empty() || is_line_end(bytes)
}

/// The coins that the text of a file writes: characters 0 and 1, coin 0 first, and at most one line end after them. `None` if it writes
/// something else.
pub fn file_coins(alloc: Global, text: &[u8]) -> Result<Option<Vec<bool>>, AllocError>
    ensures some { IfOk result (λ r. IfSome r (λ list. StandsForCoins text.now list.items)) }
    ensures none { IfOk result (λ r. IfNone r ((list : List Bool) → StandsForCoins text.now list → ⊥)) }
{
    let (coins, rest) = coins_at_front(alloc, text)?;
    if is_file_end(rest) {
        Ok(Some(coins))
    } else {
        Ok(None)
    }
}
