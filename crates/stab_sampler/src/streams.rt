ghost use Rattle.std.specs.Prelude.{◌≡◌, ℕ, ◌+◌, ◌*◌, ◌<◌, ◌^◌, [], slice_index_or};
ghost use Rattle.rand_chacha.specs.ChaCha.{word_at};
ghost use Rattle.stab_run.specs.Coins.{key_bytes};
ghost use Rattle.stab_sampler.specs.Seeds.{shot_word};

use rand_chacha::ChaCha8Rng;
use rand_core::SeedableRng;
use rand_core::utils::NextWord;

/// The words of a shot's stream from 64 times the group's number on, in four blocks of sixteen.
pub fn words_of_shot(seed: u64, shot: u64, group: u64) -> [[u32; 16]; 4]
    requires small { group < 2 ^ 58 }
    ensures each { (b k : ℕ) → b < 4 → k < 16 → slice_index_or (slice_index_or result b []) k 0 ≡ shot_word seed shot (64 * group + (16 * b + k)) }
{
    let mut words = ChaCha8Rng::from_seed(key_bytes(seed));
    words.set_stream(shot);
    words.set_word_pos(u128::from(group) * 64);
    [
        next_block(&mut words),
        next_block(&mut words),
        next_block(&mut words),
        next_block(&mut words),
    ]
}

/// The key of a seed.
#[tactic(auto, unfolding(stab_run::specs::Coins::key_bytes))]
fn key_bytes(seed: u64) -> [u8; 32]
    ensures value { result ≡ key_bytes seed }
{
    let mut bytes = [0; 32];
    bytes[..8].copy_from_slice(&seed.to_le_bytes());
    bytes
}

/// The next sixteen words of a stream. They are asked for one by one, without a loop, and in the caller's own code: so the compiler
/// knows at each of them which position of its buffer the generator has come to, and need not ask whether a buffer is done.
#[inline(always)]
fn next_block(words: &mut ChaCha8Rng) -> [u32; 16]
    requires in_stream { words.old.word_pos + 16 < 2 ^ 68 }
    ensures each { (k : ℕ) → k < 16 → slice_index_or result k 0 ≡ word_at 4 words.old.key words.old.stream (words.old.word_pos + k) }
    ensures following { words.new ≡ record words.old { word_pos = words.old.word_pos + 16 } }
{
    [
        words.next_word(),
        words.next_word(),
        words.next_word(),
        words.next_word(),
        words.next_word(),
        words.next_word(),
        words.next_word(),
        words.next_word(),
        words.next_word(),
        words.next_word(),
        words.next_word(),
        words.next_word(),
        words.next_word(),
        words.next_word(),
        words.next_word(),
        words.next_word(),
    ]
}
