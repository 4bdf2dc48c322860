// The answers about the counts of paper 01's families: each exact, too large, or of arguments outside the limits of the paper's table.
// `catalan_that_fits` and `derangement_that_fits`, for ranks, answer a plain number, and 0 where it doesn't fit: their clause is what the ranks go by.
#![tactic(auto, using(crate::proofs::Answers::fits_small, crate::proofs::Answers::fits_or, crate::proofs::Answers::fits_or_none))]

ghost use Rattle.std.specs.Prelude.{◌≡◌, ◌≤◌, ◌<◌, ◌&&◌, cond, leb, MatchResult};
ghost use Rattle.basics.specs.Limits.{places, branches, floors};
ghost use Rattle.basics.specs.Sums.{total};
ghost use Rattle.numbers.specs.Numbers.{choose, factorial_of, multinomial_of, stirling_of, parts_from, catalan_of, derangements_of};
ghost use Rattle.counting.specs.declared.CountError.TheVariants.{Outside};
ghost use Rattle.counting.specs.Answers.{fits, if_fits};

mod product;
mod short;

use basics::{BRANCHES, FLOORS, PLACES, sum_to_limit};

// Why there is no count to give.
#[derive(Clone, Copy, Debug, PartialEq, Eq)]
pub enum CountError {
    // The count is 2^64 or more.
    TooLarge,
    // The arguments lie outside the limits of the table of families.
    Outside,
}

// The count, below 2^64, or why there is none.
pub type Count = Result<u64, CountError>;

// Passes what is within its limit.
fn within(n: u64, limit: u64) -> Result<(), CountError>
    ensures { MatchResult result (λ _. n ≤ limit) (λ e. (limit < n) × (e ≡ Outside)) }
{
    if n <= limit {
        Ok(())
    } else {
        Err(CountError::Outside)
    }
}

// Kind 1, what COUNT answers: subsets of k out of n, a number of paper 01's constant table or worked out from it.
// A function a count, here and below: its clause names its number.
pub fn subset_count(n: u64, k: u64) -> Count
    ensures { result ≡ cond (leb n places && leb k places) (fits (choose n k)) (Err Outside) }
{
    within(n, PLACES)?;
    within(k, PLACES)?;
    let number = binomials::coefficient_fits(n, k).then(|| pascal::entry(n, k));
    number.ok_or(CountError::TooLarge)
}

// The same number for the questions and for products, by a few multiplications whatever the row.
pub fn coefficient(n: u64, k: u64) -> Count
    ensures { result ≡ cond (leb n places && leb k places) (fits (choose n k)) (Err Outside) }
{
    within(n, PLACES)?;
    within(k, PLACES)?;
    product::ways_out_of(n, k).ok_or(CountError::TooLarge)
}

// Kind 2: anagrams, letter i as often as counts[i] says.
pub fn multinomial(counts: &[u8]) -> Count
    ensures { result ≡ cond (leb (total counts.now) places) (fits (multinomial_of counts.now)) (Err Outside) }
{
    within(sum_to_limit(PLACES, counts), PLACES)?;
    product::of_binomials(counts).ok_or(CountError::TooLarge)
}

// Kind 3: permutations of n.
pub fn factorial(n: u64) -> Count
    ensures { result ≡ cond (leb n places) (fits (factorial_of n)) (Err Outside) }
{
    within(n, PLACES)?;
    short::factorial(n).ok_or(CountError::TooLarge)
}

// Kind 4: partitions of a set of n into k blocks.
pub fn stirling(n: u64, k: u64) -> Count
    ensures { result ≡ cond (leb n places && leb k places) (fits (stirling_of n k)) (Err Outside) }
{
    within(n, PLACES)?;
    within(k, PLACES)?;
    let number = stirlings::stirling_fits(n, k).then(|| stirlings::stirling(n, k));
    number.ok_or(CountError::TooLarge)
}

// Kind 5: partitions of the number n into exactly k parts, each at least the floor.
pub fn partitions(floor: u64, n: u64, k: u64) -> Count
    ensures { result ≡ cond ((leb 1 floor && leb floor floors) && (leb n places && leb k places)) (fits (parts_from floor n k)) (Err Outside) }
{
    if floor == 0 {
        return Err(CountError::Outside);
    }
    within(floor, FLOORS)?;
    within(n, PLACES)?;
    within(k, PLACES)?;
    Ok(partition_numbers::at_least(floor, n, k))
}

// Kind 6: Dyck words with n of each.
pub fn catalan(n: u64) -> Count
    ensures { result ≡ cond (leb n branches) (fits (catalan_of n)) (Err Outside) }
{
    within(n, BRANCHES)?;
    short::catalan(n).ok_or(CountError::TooLarge)
}

// The same number where it fits, else 0: plain, for ranks, which know that it fits and would have to take an Option apart.
pub fn catalan_that_fits(n: u64) -> u64
    ensures { result ≡ if_fits (catalan_of n) }
{
    short::catalan(n).unwrap_or(0)
}

// Kind 7: derangements of n.
pub fn derangement(n: u64) -> Count
    ensures { result ≡ cond (leb n places) (fits (derangements_of n)) (Err Outside) }
{
    within(n, PLACES)?;
    short::derangement(n).ok_or(CountError::TooLarge)
}

// The same number where it fits, else 0: plain, for ranks, which know that it fits and would have to take an Option apart.
pub fn derangement_that_fits(n: u64) -> u64
    ensures { result ≡ if_fits (derangements_of n) }
{
    short::derangement(n).unwrap_or(0)
}
