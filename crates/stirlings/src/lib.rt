// Stirling numbers of the second kind, below 2^64, past the rows that are stored. A band of their triangle, worked out once a call and lent, has every
// number that the ranks of one family read; one number alone takes one row.
#![tactic(auto)]

ghost use Rattle.std.specs.Prelude.{◌≡◌, ℕ, suc, ◌+◌, ◌-◌, ◌*◌, ◌≤◌, ◌<◌, ◌^◌, ◌⊎◌, ltb, length, get_or};
ghost use Rattle.basics.specs.Limits.{places};
ghost use Rattle.numbers.specs.Numbers.{stirling_of};
ghost use Rattle.stirlings.specs.Inner.Band.{Filled, Stands};

use basics::PLACES;
use stirling_rows::{LAST_ROW, entry};

// The band of the most models in as many blocks is the largest.
const BLOCKS: usize = 74;

// As many numbers as it has.
pub const CAPACITY: usize = (PLACES as usize - BLOCKS + 1) * (BLOCKS + 1);

// As many numbers as a row has.
const COLUMNS: usize = PLACES as usize + 1;

// By d: the last k for which S(k + d, k) is below 2^64, or a larger one where all with k + d within the places are. Read off the computed triangle; the
// proof tests every number of it.
static LAST_COLUMNS: [u64; COLUMNS] = [
    80, 80, 80, 80, 80, 80, 80, 59, 41, 30, 24, 19, 16, 14, 12, 11, 10, 9, 8, 7, 7, 6, 6, 5, 5, 5,
    4, 4, 4, 4, 4, 3, 3, 3, 3, 3, 3, 3, 3, 3, 2, 2, 2, 2, 2, 2, 2, 2, 2, 2, 2, 2, 2, 2, 2, 2, 2, 2,
    2, 2, 2, 2, 2, 2, 1, 1, 1, 1, 1, 1, 1, 1, 1, 1, 1, 1, 1, 1, 1, 1, 1,
];

// Is the number of partitions of n models into k blocks below 2^64?
pub fn stirling_fits(n: u64, k: u64) -> bool
    requires { n ≤ places }
    ensures { result ≡ ltb (stirling_of n k) (2 ^ 64) }
{
    if n <= LAST_ROW || n < k {
        return true;
    }
    k <= LAST_COLUMNS[(n - k) as usize]
}

// Row d + 1 out of row d, the rows standing `stride` apart: behind it, or in its place where they stand 0 apart. To what stands on the left comes j times
// what stands above.
// w and stride stay numbers beside the slice: so one proof serves the band and the single row.
fn next_row(t: &mut [u64], w: usize, stride: usize, d: usize)
    requires apart { (stride ≡ 0) ⊎ (w ≤ stride) }
    requires room { d * stride + stride + w ≤ length t.old }
    requires by_index { (j : ℕ) → j < w → stirling_of (j + suc d) j < 2 ^ 64 }
    requires row { Stands t.old (d * stride) w d }
    ensures row { Stands t.new (d * stride + stride) w (suc d) }
    ensures before { (m : ℕ) → m < d * stride + stride → get_or t.new m 0 ≡ get_or t.old m 0 }
{
    let above = d * stride;
    let mut left = 0;
    for at in above..above + w {
        left += (at - above) as u64 * t[at];
        t[at + stride] = left;
    }
}

// Every number that a rank among the partitions of n models into k blocks reads: S(j + d, j), for d up to n - k and j up to k, at d * (k + 1) + j.
// Row 0, as many blocks as models, has to be there: an array of ones has it.
pub fn fill(n: u64, k: u64, t: &mut [u64; CAPACITY])
    requires n_le_places { (n ≤ places) × ((k ≤ n) × (stirling_of n k < 2 ^ 64)) }
    requires filled { Filled t.old (k + 1) 1 }
    ensures { Filled t.new (k + 1) (n - k + 1) }
{
    let w = k as usize + 1;
    for d in 0..(n - k) as usize {
        next_row(t, w, w, d);
    }
}

// The number of partitions of n models into k blocks: stored, or at the end of the last row.
pub fn stirling(n: u64, k: u64) -> u64
    requires { (n ≤ places) × (stirling_of n k < 2 ^ 64) }
    ensures { result ≡ stirling_of n k }
{
    if n <= LAST_ROW {
        return entry(n, k);
    }
    if n < k {
        return 0;
    }
    let mut row = [1u64; COLUMNS];
    let w = k as usize + 1;
    let rows = (n - k) as usize;
    for d in 0..rows {
        next_row(&mut row, w, 0, d);
    }
    row[k as usize]
}
