// Where the search for a key begins.

ghost use Rattle.std.specs.Prelude.{◌≡◌, ◌<◌, ◌≤◌, ◌^◌};
ghost use Rattle.shard_tables.specs.Slots.{factor_of, folded as fold_of, mixed as mix_of, number_of as bits_of, spread as spread_of, start_by, start_of};

use session_values::Value;

/// The factor of seed 0: 2^64 over the golden ratio.
const FACTOR: u64 = 11400714819323198485;

/// The slot among `2^bits` at which the search for a key begins in an index without a seed.
pub fn start_slot(key: Value, bits: u32) -> u32
    requires some { 1 ≤ bits }
    requires few { bits ≤ 31 }
    ensures slot { result ≡ start_of key bits }
    ensures within { result < 2 ^ bits }
{
    start_slot_by(FACTOR, key, bits)
}

/// The slot among `2^bits` at which the search for a key begins where keys are spread by this
/// factor: multiplicative hashing by that of seed 0, a mixing of all bits under any other.
pub fn start_slot_by(factor: u64, key: Value, bits: u32) -> u32
    requires some { 1 ≤ bits }
    requires few { bits ≤ 31 }
    ensures slot { result ≡ start_by factor key bits }
    ensures within { result < 2 ^ bits }
{
    (spread(factor, number_of(key)) >> (64 - bits)) as u32
}

#[inline]
fn number_of(key: Value) -> u64
    ensures { result ≡ bits_of key }
{
    match key {
        Value::Nil => 0,
        Value::Num(n) => n.cast_unsigned(),
        Value::Sym(place) => u64::from(place) + (1 << 63),
    }
}

#[inline]
fn spread(factor: u64, number: u64) -> u64
    ensures { result ≡ spread_of factor number }
{
    if factor == FACTOR {
        number.wrapping_mul(factor)
    } else {
        mixed(factor, number)
    }
}

// The finaliser of SplitMix64 (Steele, Lea and Flood, 2014) with the shifts and factors of David
// Stafford's variant 13. Its last step would change none of the upper bits, which alone are used.
#[inline]
fn mixed(factor: u64, number: u64) -> u64
    ensures { result ≡ mix_of factor number }
{
    let first = folded(30, number ^ factor).wrapping_mul(0xbf58_476d_1ce4_e5b9);
    folded(27, first).wrapping_mul(0x94d0_49bb_1331_11eb)
}

#[inline]
fn folded(from: u32, number: u64) -> u64
    requires { from < 64 }
    ensures { result ≡ fold_of from number }
{
    number ^ (number >> from)
}

/// The factor by which a seed spreads keys, an odd number. Two seeds that are 2^63 apart have one
/// factor.
pub fn seed_factor(seed: u64) -> u64
    ensures { result ≡ factor_of seed }
{
    seed.wrapping_mul(FACTOR)
        .wrapping_mul(2)
        .wrapping_add(1)
        .wrapping_mul(FACTOR)
}
