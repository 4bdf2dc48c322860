// What COUNT answers for subsets: out of one constant table of 2,346 numbers, and beyond its last row by additions.
#![tactic(auto)]

ghost use Rattle.std.specs.Prelude.{◌≡◌, ◌≤◌, ◌<◌, ◌^◌};
ghost use Rattle.basics.specs.Limits.{places};
ghost use Rattle.numbers.specs.Numbers.{choose};

mod lent;
mod triangle;
mod window;

use lent::Rows;

// The last row of the table.
const LAST_ROW: u64 = 67;

// The entry k of row n, where it is below 2^64.
pub fn entry(n: u64, k: u64) -> u64
    requires { (n ≤ places) × (choose n k < 2 ^ 64) }
    ensures { result ≡ choose n k }
{
    if n < k {
        return 0;
    }
    if n <= LAST_ROW {
        return Rows::of_table().entry(n, k);
    }
    Rows::of_table().climb(n, k)
}
