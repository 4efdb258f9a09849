//! Coins of lists and of seeds.
use stab_session::{Coins, ListCoins, SeedCoins};

/// Whether the coins of these numbers, asked for in this order, are these.
fn are<C: Coins>(mut coins: C, asked: &[(u64, bool)]) -> bool {
    let mut same = true;
    for &(t, bit) in asked {
        same &= coins.coin(t) == bit;
    }
    same
}

const OF_A_LIST: &[(u64, bool)] = &[
    (0, true),
    (1, false),
    (2, true),
    (3, false),
    (4, false),
    (5, false),
    (u64::MAX, false),
    (2, true),
];

const OF_NO_LIST: &[(u64, bool)] = &[(0, false), (1, false)];

// Whether zeros follow a list, and make up one of nothing.
fn zeros_follow() -> bool {
    are(ListCoins::new(&[true, false, true]), OF_A_LIST) && are(ListCoins::new(&[]), OF_NO_LIST)
}

// These bits come from a script in Python that follows Bernstein's definition of ChaCha with 8 rounds, a
// 64-bit block counter and the shot as 64-bit nonce, and gives the published first block for a key and a
// nonce of zeros, 3e00ef2f895f40d6 and so on. So do rows of crates/rows/data/seeds.rows, which have more.
const ASKED: &[(u64, u64, &[(u64, bool)])] = &[
    (
        0x0123_4567_89ab_cdef,
        0xfedc_ba98_7654_3210,
        &[
            (u64::MAX, true),
            (u64::MAX - 1, false),
            ((1 << 40) + 5, true),
            ((1 << 36) + 17, true),
            (0xffff_ffff, false),
            (79, true),
            (0, false),
        ],
    ),
    (
        7,
        2,
        &[(5, false), (0, true), (5, false), (100, false), (5, false)],
    ),
];

#[test]
fn any_coin_may_be_asked_for_and_stays_the_same(rt: HostRuntime) {
    assert!(rt; zeros_follow(), "a list");
    for &(seed, shot, asked) in ASKED {
        assert!(rt;
            are(SeedCoins::new(seed, shot), asked),
            "seed {seed}, shot {shot}"
        );
    }
}
