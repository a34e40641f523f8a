ghost use Rattle.std.specs.Prelude.{◌≡◌, ◌<◌, ℕ, List, length, slice_index};
ghost use Rattle.rand_xoshiro.specs.Xoshiro256.{state_bytes};
ghost use Rattle.jt_rng.specs.Generator.{IsGenerator};
ghost use Rattle.jt_rng.specs.Words.{nonzero, next_fork_word, child_word, child_words};

use rand_core::SeedableRng;
use rand_xoshiro::Xoshiro256PlusPlus;

// The step of the fifth word, after Steele and Vigna's table of multipliers.
const FORK_MULTIPLIER: u64 = 0xd134_2543_de82_ef95;

// What a fork mixes into the words of a child, and multiplies them by in the other order.
const MIXERS: [u64; 4] = [
    0x9e37_79b9_7f4a_7c15,
    0xbf58_476d_1ce4_e5b9,
    0x94d0_49bb_1331_11eb,
    0x2545_f491_4f6c_dd1d,
];

/// The fifth word after a fork.
pub fn next_fork_word(x: u64) -> u64
    ensures { result ≡ next_fork_word x }
{
    x.wrapping_mul(FORK_MULTIPLIER).wrapping_add(1)
}

fn child_word(s: u64, x: u64, mixer: u64, multiplier: u64) -> u64
    ensures { result ≡ child_word s x mixer multiplier }
{
    let scale = s.wrapping_mul(2).wrapping_add(1);
    let mut c = s.wrapping_add((x ^ mixer).wrapping_mul(scale));
    c ^= c >> ((c >> 59) + 5);
    c = c.wrapping_mul(multiplier);
    c ^ (c >> 43)
}

/// The four words of the child of a stream with these five.
pub fn child_words(s: [u64; 5]) -> [u64; 4]
    ensures { result ≡ child_words s }
{
    [
        child_word(s[0], s[4], MIXERS[0], MIXERS[3]),
        child_word(s[1], s[4], MIXERS[1], MIXERS[2]),
        child_word(s[2], s[4], MIXERS[2], MIXERS[1]),
        child_word(s[3], s[4], MIXERS[3], MIXERS[0]),
    ]
}

// All four words zero is no state of the generator.
fn nonzero(words: [u64; 4]) -> [u64; 4]
    ensures { result ≡ nonzero words }
{
    if words == [0; 4] { [1, 0, 0, 0] } else { words }
}

fn seed_of(words: &[u64; 4]) -> [u8; 32]
    ensures { result ≡ state_bytes words.now }
{
    let mut seed = [0; 32];
    seed[0..8].copy_from_slice(&words[0].to_le_bytes());
    seed[8..16].copy_from_slice(&words[1].to_le_bytes());
    seed[16..24].copy_from_slice(&words[2].to_le_bytes());
    seed[24..32].copy_from_slice(&words[3].to_le_bytes());
    seed
}

/// The generator with these four words, or with 1, 0, 0, 0 where all are zero.
pub fn generator_of(words: [u64; 4]) -> Xoshiro256PlusPlus
    ensures value { result ≡ nonzero words }
    ensures valid { IsGenerator result }
{
    Xoshiro256PlusPlus::from_seed(seed_of(&nonzero(words)))
}
