ghost use Rattle.std.specs.Prelude.{◌≡◌, ◌+◌, ◌*◌, ◌^◌, ◌<◌, ℕ, Bool, false, slice_index_or};
ghost use Rattle.std.specs.Option.{ForSome};
ghost use Rattle.stab_run.specs.Coins.{one_more, list_coin, key_bytes, seed_coin, Listed, Seeded};

use rand_chacha::ChaCha8Rng;
use rand_core::SeedableRng;
use rand_core::utils::NextWord;
use std::marker::Model;

/// Bits by number, which decide the outcomes that nothing else decides.
///
/// A value stands for one fixed sequence of bits, which no call changes, and counts how often it
/// was asked.
pub trait Coins: Drop {
    // The bit of each number.
    ghost sequence: { Self → ℕ → Bool };
    // How often a coin was asked for, as far as 64 bits can count.
    ghost asks: { Self → ℕ };

    /// The coin with number `t`, counted from 0. Any coin may be asked for, in any order.
    fn coin(&mut self, t: u64) -> bool
        ensures bit { result ≡ sequence self.old t }
        ensures same { sequence self.new ≡ sequence self.old }
        ensures counted { asks self.new ≡ one_more (asks self.old) };
}

/// The coins of a list, and 0 past its end. It borrows the list and takes no memory. Contracts see
/// the list and the count of asks.
pub struct ListCoins<'a> {
    bits: &'a [bool],
    asks: u64,
}

// Written out, so that a proof sees the drop of a value as one call, and not one for each of its parts.
impl Drop for ListCoins<'_> {
    fn drop(self) {
        let ListCoins { bits: _, asks: _ } = self;
    }
}

impl<'a> Model for ListCoins<'a> {
    ghost Value = { Listed };

    ghost view = { λ c. record { bits = c.bits.now; asks = c.asks } };
}

impl<'a> ListCoins<'a> {
    /// Coin `t` is bit `t` of this list, or 0 past its end.
    pub fn new(bits: &'a [bool]) -> ListCoins<'a>
        ensures value { result ≡ record { bits = bits.entry.now; asks = 0 } }
    {
        ListCoins { bits, asks: 0 }
    }
}

impl Coins for ListCoins<'_> {
    ghost sequence = { λ c. list_coin c.bits };

    ghost asks = { λ c. c.asks };

    fn coin(&mut self, t: u64) -> bool {
        self.asks = self.asks.saturating_add(1);
        match self.bits.get(t as usize) {
            Some(bit) => *bit,
            None => false,
        }
    }
}

/// The coins of a seed and a shot. Contracts see both, and the count of asks.
///
/// The seed is the key of ChaCha8, as eight bytes with the least significant first and 24 zeros
/// after them, and the shot is its stream. The lowest bit of each 32-bit word is the coin of the
/// word's number. Coins are made 64 at a time, in four blocks of sixteen words, and the last 64 are
/// stored; so in ascending order each block is made once.
pub struct SeedCoins {
    seed: u64,
    shot: u64,
    asks: u64,
    // The last 64 coins begin at 64 times this number.
    group: Option<u64>,
    coins: [bool; 64],
}

// Written out, so that a proof sees the drop of a value as one call, and not one for each of its parts.
impl Drop for SeedCoins {
    fn drop(self) {
        let SeedCoins {
            seed: _,
            shot: _,
            asks: _,
            group: _,
            coins: _,
        } = self;
    }
}

impl Model for SeedCoins {
    ghost Value = { Seeded };

    ghost view = { λ c. record { seed = c.seed; shot = c.shot; asks = c.asks } };

    ghost invariant = { λ c. ForSome c.group (λ group. (k : ℕ) → k < 64 → slice_index_or c.coins k false ≡ seed_coin c.seed c.shot (64 * group + k)) };
}

impl SeedCoins {
    /// The coins of a shot under a seed. Nothing is made yet.
    pub fn new(seed: u64, shot: u64) -> SeedCoins
        ensures value { result ≡ record { seed = seed; shot = shot; asks = 0 } }
    {
        SeedCoins {
            seed,
            shot,
            asks: 0,
            group: None,
            coins: [false; 64],
        }
    }
}

impl Coins for SeedCoins {
    ghost sequence = { λ c. seed_coin c.seed c.shot };

    ghost asks = { λ c. c.asks };

    fn coin(&mut self, t: u64) -> bool {
        self.asks = self.asks.saturating_add(1);
        let group = t / 64;
        if self.group != Some(group) {
            self.coins = seed_coins(self.seed, self.shot, group);
            self.group = Some(group);
        }
        self.coins[(t % 64) as usize]
    }
}

/// The key of a seed.
#[tactic(auto, unfolding(crate::specs::Coins::key_bytes))]
fn key_bytes(seed: u64) -> [u8; 32]
    ensures value { result ≡ key_bytes seed }
{
    let mut bytes = [0; 32];
    bytes[..8].copy_from_slice(&seed.to_le_bytes());
    bytes
}

/// The 64 coins of a shot under a seed from 64 times the group's number on, in ascending order. They are those of
/// `SeedCoins`, without a count.
pub fn seed_coins(seed: u64, shot: u64, group: u64) -> [bool; 64]
    requires small { group < 2 ^ 58 }
    ensures each { (k : ℕ) → k < 64 → slice_index_or result k false ≡ seed_coin seed shot (64 * group + k) }
{
    let mut words = ChaCha8Rng::from_seed(key_bytes(seed));
    words.set_stream(shot);
    words.set_word_pos(u128::from(group) * 64);
    let mut coins = [false; 64];
    for coin in coins.iter_mut() {
        *coin = words.next_word() % 2 == 1;
    }
    coins
}
