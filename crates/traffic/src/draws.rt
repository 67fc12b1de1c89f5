//! Values that look random, and are the same for the same seed: those of SplitMix64, by Steele, Lea and Flood ("Fast
//! splittable pseudorandom number generators", 2014), as Java's `SplittableRandom` has them.

ghost use Rattle.std.specs.Prelude.{◌≡◌, ◌<◌, ◌≤◌, ◌^◌};
ghost use Rattle.traffic.specs.Draws.{draw, fold_mul, value};

/// What the state of a generator grows by at each step.
const STEP: u64 = 0x9e37_79b9_7f4a_7c15;

/// A word with its high bits folded down by so many places, times a factor.
fn fold_mul(word: u64, places: u32, factor: u64) -> u64
    requires { places < 64 }
    ensures { result ≡ fold_mul word places factor }
{
    (word ^ (word >> places)).wrapping_mul(factor)
}

/// The value of a generator with this seed after so many others.
pub(crate) fn value(seed: u64, others: u64) -> u64
    ensures { result ≡ value seed others }
{
    let state = seed.wrapping_add(STEP.wrapping_mul(others.wrapping_add(1)));
    let word = fold_mul(state, 30, 0xbf58_476d_1ce4_e5b9);
    let word = fold_mul(word, 27, 0x94d0_49bb_1331_11eb);
    word ^ (word >> 31)
}

/// The number, at most so great, that the value of a generator with this seed after so many others draws.
pub(crate) fn draw(seed: u64, others: u64, most: u128) -> u128
    requires { most < 2 ^ 127 }
    ensures draw { result ≡ draw seed others most }
    ensures within { result ≤ most }
{
    u128::from(value(seed, others)) % (most + 1)
}
