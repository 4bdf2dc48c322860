// Binomial coefficients without a table of them: n! / k! / (n - k)!, with the factors 2 counted apart and the odd parts divided modulo 2^64, where
// an odd number has an inverse. Exact wherever the coefficient is below 2^64.
#![tactic(auto)]

ghost use Rattle.std.specs.Prelude.{◌≡◌, ◌^◌, ◌<◌, ◌≤◌, nat_lt};
ghost use Rattle.basics.specs.Limits.{places};
ghost use Rattle.numbers.specs.Numbers.{choose};

mod factorials;

use factorials::{FIRST_SHORT_ROW, last_column, parts_of};

// Is k out of n below 2^64?
pub fn coefficient_fits(n: u64, k: u64) -> bool
    requires { n ≤ places }
    ensures { result ≡ nat_lt (choose n k) (2 ^ 64) }
{
    if n < k || n < FIRST_SHORT_ROW {
        return true;
    }
    let last = last_column(n);
    k <= last || n - k <= last
}

// k out of n, where that is below 2^64.
pub fn coefficient(n: u64, k: u64) -> u64
    requires { (n ≤ places) × (choose n k < 2 ^ 64) }
    ensures { result ≡ choose n k }
{
    if n < k {
        return 0;
    }
    let taken = parts_of(k);
    let left = parts_of(n - k);
    let all = parts_of(n);
    let inverse = taken.inverse.wrapping_mul(left.inverse);
    let odd = all.odd.wrapping_mul(inverse);
    odd << (all.twos - (taken.twos + left.twos))
}
