// The Stirling numbers of the second kind up to the last row whose every number is below 2^64: literals, read one at a time. The rank of a small
// partition reads a few of them, and working out all of them costs more.
#![tactic(auto)]

ghost use Rattle.std.specs.Prelude.{◌≡◌, ◌+◌, ◌-◌, ◌*◌, ◌/◌, ◌≤◌, ◌<◌};
ghost use Rattle.numbers.specs.Numbers.{stirling_of};
ghost use Rattle.stirling_rows.specs.Inner.Stored.{last_row};

mod literals;

use literals::NUMBERS;

// The last row whose every number is below 2^64.
pub const LAST_ROW: u64 = 26;

// Where the number of n models in k blocks stands: rows 3 and on are stored, each without its ends.
fn place(n: u64, k: u64) -> usize
    requires { (n ≤ last_row) × ((2 ≤ k) × (k < n)) }
    ensures value { result ≡ (n - 2) * (n - 3) / 2 + k - 2 }
    ensures bound { result < 300 }
{
    ((n - 2) * (n - 3) / 2 + k - 2) as usize
}

// The number of partitions of n models into k blocks. The ends of a row are known.
pub fn entry(n: u64, k: u64) -> u64
    requires { n ≤ last_row }
    ensures { result ≡ stirling_of n k }
{
    if k == n {
        return 1;
    }
    if n < k {
        return 0;
    }
    if k < 2 {
        return k;
    }
    NUMBERS[place(n, k)]
}

// The numbers of partitions of n models into one block fewer and into the same number of blocks.
#[derive(Clone, Copy)]
pub struct Pair {
    pub fewer: u64,
    pub same: u64,
}

// What a rank reads of one model more: both numbers at once, the place worked out once. All but one block: two of the models share one.
pub fn both(n: u64, k: u64) -> Pair
    requires { (n ≤ last_row) × ((0 < k) × (k ≤ n)) }
    ensures fewer { result.fewer ≡ stirling_of n (k - 1) }
    ensures same { result.same ≡ stirling_of n k }
{
    if k == 1 {
        return Pair { fewer: 0, same: 1 };
    }
    if k == n {
        return Pair {
            fewer: n * (n - 1) / 2,
            same: 1,
        };
    }
    let at = place(n, k);
    let same = NUMBERS[at];
    if k == 2 {
        return Pair { fewer: 1, same };
    }
    Pair {
        fewer: NUMBERS[at - 1],
        same,
    }
}
