// The multinomial as a product of binomials, from the last letter to the first.
ghost use Rattle.std.specs.Prelude.{◌<◌, ◌≤◌, ◌^◌, SomeIff};
ghost use Rattle.basics.specs.Limits.{places};
ghost use Rattle.basics.specs.Sums.{total};
ghost use Rattle.numbers.specs.Numbers.{choose, multinomial_of};

use binomials::{coefficient, coefficient_fits};

// k out of n, where that is below 2^64.
pub fn ways_out_of(n: u64, k: u64) -> Option<u64>
    requires { n ≤ places }
    ensures { SomeIff result (choose n k < 2 ^ 64) (choose n k) }
{
    coefficient_fits(n, k).then(|| coefficient(n, k))
}

// The words of the last letters, one letter more at each turn: first the places of that letter, then the word of the others.
pub fn of_binomials(counts: &[u8]) -> Option<u64>
    requires { total counts.now ≤ places }
    ensures { SomeIff result (multinomial_of counts.now < 2 ^ 64) (multinomial_of counts.now) }
{
    let mut words: u64 = 1;
    let mut length: u64 = 0;
    for c in counts.iter().rev() {
        let places = u64::from(*c);
        length += places;
        words = words.checked_mul(ways_out_of(length, places)?)?;
    }
    Some(words)
}
