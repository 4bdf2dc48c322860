// The limits of paper 01's table of families, as specs/Limits.antt has them; sums of bytes, which the counts, the kinds and the questions share; and the
// test of a product, for bytes that are many parts of one length.
#![tactic(auto)]

ghost use Rattle.std.specs.Prelude.{◌≡◌, ◌+◌, ◌*◌, ◌<◌, ◌^◌, min, eqb};
ghost use Rattle.basics.specs.Sums.{total};

// "A family has no more than 80 places".
pub const PLACES: u64 = 80;

// Kind 6: "n branches, 0 to 40".
pub const BRANCHES: u64 = 40;

// The largest floor of a family, which is no number of places.
pub const FLOORS: u64 = 80;

// The room that any object needs.
pub const LONGEST_OBJECT: usize = PLACES as usize;

// The sum of bytes that are few or small.
#[tactic(auto, using(crate::proofs::Totals::total_is_sum))]
pub fn sum(bytes: &[u8]) -> u64
    requires { total bytes.now < 2 ^ 64 }
    ensures { result ≡ total bytes.now }
{
    bytes.iter().map(|b| u64::from(*b)).sum()
}

// The sum where it is at most the limit, and one more than the limit where it isn't: it stops at the first byte that leads past it.
// No Option: the clause, the smaller of the total and limit + 1, is what the counts and the questions are proved by.
#[tactic(auto, using(crate::proofs::Totals::total_is_sum, std::proofs::lemmas::List::Sums::sum_by_more_le, std::proofs::lemmas::Grind::common_steps))]
pub fn sum_to_limit(limit: u64, bytes: &[u8]) -> u64
    requires { limit + 256 < 2 ^ 64 }
    ensures { result ≡ min (total bytes.now) (limit + 1) }
{
    let mut sum: u64 = 0;
    for b in bytes {
        sum += u64::from(*b);
        if limit < sum {
            return limit + 1;
        }
    }
    sum
}

// Is whole the product of many and size? Nothing is multiplied, since the product of two lengths may be too large.
#[tactic(auto, using(crate::proofs::Products::remainder_none, crate::proofs::Products::quotient_tells))]
pub fn is_product(whole: usize, many: usize, size: usize) -> bool
    ensures { result ≡ eqb whole (many * size) }
{
    if size == 0 {
        return whole == 0;
    }
    whole % size == 0 && whole / size == many
}
