//! Vector registers as two halves, since an export takes no number of 128 bits.
ghost use Rattle.std.specs.Prelude.{◌≡◌, ℕ, ◌+◌, ◌*◌, ◌/◌, ◌%◌, ◌^◌, ◌<◌, length, slice_index};

/// The numbers of these halves.
pub fn numbers_of_halves(high: &[u64; 32], low: &[u64; 32]) -> [u128; 32]
    ensures long { length result ≡ 32 }
    ensures halves { (length high.now ≡ 32) × (length low.now ≡ 32) }
    ensures each { (i : ℕ) → i < 32
        → slice_index result i ≡ slice_index high.now i * 2 ^ 64 + slice_index low.now i }
{
    let mut joined = [0u128; 32];
    for i in 0..32usize {
        joined[i] = u128::from(high[i]) * 18446744073709551616 + u128::from(low[i]);
    }
    joined
}

/// Their left halves.
pub fn high_halves(numbers: &[u128; 32]) -> [u64; 32]
    ensures long { length result ≡ 32 }
    ensures each { (i : ℕ) → i < 32 → slice_index result i ≡ slice_index numbers.now i / 2 ^ 64 }
{
    let mut halves = [0u64; 32];
    for i in 0..32usize {
        halves[i] = (numbers[i] / 18446744073709551616) as u64;
    }
    halves
}

/// Their right halves.
pub fn low_halves(numbers: &[u128; 32]) -> [u64; 32]
    ensures long { length result ≡ 32 }
    ensures numbers { length numbers.now ≡ 32 }
    ensures each { (i : ℕ) → i < 32 → slice_index result i ≡ slice_index numbers.now i % 2 ^ 64 }
{
    let mut halves = [0u64; 32];
    for i in 0..32usize {
        halves[i] = (numbers[i] % 18446744073709551616) as u64;
    }
    halves
}
