//! Numbers for runs of 256 shards, with two bits for each of their runs of 16. Bit `j`, below 16, is 1 if run `j` of 16
//! may have a live shard. Bit `16 + j` is 1 if it has a shard.

ghost use Rattle.std.specs.Prelude.{◌≡◌, ◌+◌, ◌*◌, ◌/◌, ◌%◌, ◌^◌, ◌<◌, ◌≤◌, ◌↔◌, ℕ, IsTrue, true, length, slice_index};
ghost use Rattle.std.specs.Int.{bit_at};
ghost use Rattle.space.specs.Runs.{IsRevived};

/// How many runs of 16 shards a run of 256 has.
pub const LEAVES: usize = 16;

/// The first run of 16 shards from one on, and before an end, that may have a live shard; the end where there is none.
pub fn next_with_life(runs: &[u32], from: usize, end: usize) -> usize
    requires from { from < end }
    requires end { end ≤ length runs.now * 16 }
    requires few { end ≤ 2 ^ 20 }
    ensures from { from ≤ result }
    ensures end { result ≤ end }
    ensures dead { (run : ℕ) → from ≤ run → run < result → bit_at (slice_index runs.now (run / 16)) (run % 16) ≡ 0 }
{
    let first = from / LEAVES;
    let leaf = next_leaf(runs[first], from % LEAVES);
    if leaf < LEAVES {
        return end.min(first * LEAVES + leaf);
    }
    let behind = end.div_ceil(LEAVES);
    let number = next_number(runs, first + 1, behind);
    if number == behind {
        return end;
    }
    end.min(number * LEAVES + next_leaf(runs[number], 0))
}

/// The first number from one on, and before an end, whose run may have a live shard; the end where there is none. It
/// looks at eight at once.
fn next_number(runs: &[u32], from: usize, end: usize) -> usize
    requires from { from ≤ end }
    requires end { end ≤ length runs.now }
    ensures from { from ≤ result }
    ensures end { result ≤ end }
    ensures dead { (k : ℕ) → from ≤ k → k < result → (leaf : ℕ) → leaf < 16 → bit_at (slice_index runs.now k) leaf ≡ 0 }
{
    let mut at = from;
    while end - at >= 8 && are_dead(runs, at) {
        at += 8;
    }
    while at < end && next_leaf(runs[at], 0) == LEAVES {
        at += 1;
    }
    at
}

/// Whether eight numbers from one on are those of runs without a live shard.
fn are_dead(runs: &[u32], at: usize) -> bool
    requires { at + 8 ≤ length runs.now }
    ensures { result ≡ true → (k : ℕ) → at ≤ k → k < at + 8 → (leaf : ℕ) → leaf < 16 → bit_at (slice_index runs.now k) leaf ≡ 0 }
{
    let front = runs[at] | runs[at + 1] | runs[at + 2] | runs[at + 3];
    let behind = runs[at + 4] | runs[at + 5] | runs[at + 6] | runs[at + 7];
    next_leaf(front | behind, 0) == LEAVES
}

/// The first run of 16 shards from one on, in the run of a number, that may have a live shard; 16 where there is none.
fn next_leaf(number: u32, from: usize) -> usize
    requires { from < 16 }
    ensures from { from ≤ result }
    ensures end { result ≤ 16 }
    ensures dead { (leaf : ℕ) → from ≤ leaf → leaf < result → bit_at number leaf ≡ 0 }
{
    let bits = (number | 1 << LEAVES) >> from;
    from + bits.trailing_zeros() as usize
}

/// Whether a run of 16 shards, in the run of a number, may have a live shard.
pub fn has_life(number: u32, leaf: usize) -> bool
    requires { leaf < 16 }
    ensures { IsTrue result ↔ bit_at number leaf ≡ 1 }
{
    number >> leaf & 1 == 1
}

/// The number of a run after one of its runs of 16 has got a live shard.
pub fn with_life(number: u32, leaf: usize) -> u32
    requires { leaf < 16 }
    ensures life { bit_at result leaf ≡ 1 }
    ensures there { bit_at result (16 + leaf) ≡ 1 }
    ensures others { (i : ℕ) → bit_at result i ≡ 0 → bit_at number i ≡ 0 }
{
    number | 1 << leaf | 1 << (LEAVES + leaf)
}

/// The number of a run after one of its runs of 16 has lost its last live shard.
pub fn without_life(number: u32, leaf: usize) -> u32
    requires { leaf < 16 }
    ensures { (i : ℕ) → i < 32 → (i ≡ leaf → ⊥) → bit_at result i ≡ bit_at number i }
{
    number & !(1 << leaf)
}

/// Has each run of 16 live that has a shard.
pub fn revive_runs(runs: &mut [u32])
    ensures each { length runs.new ≡ length runs.old }
    ensures all { (k : ℕ) → IsRevived (slice_index runs.old k) (slice_index runs.new k) }
{
    for k in 0..runs.len() {
        runs[k] = revived(runs[k]);
    }
}

/// The number of a run after each of its runs of 16 that has a shard has got a live one.
fn revived(number: u32) -> u32
    ensures { IsRevived number result }
{
    number | number >> LEAVES
}
