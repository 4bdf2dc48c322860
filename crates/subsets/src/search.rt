// The searches behind the steps and ranks of subsets: each reads, and answers a place or a number.
ghost use Rattle.std.specs.Prelude.{◌≡◌, suc, ◌+◌, ◌≤◌, ◌<◌, ◌^◌, length, get_or, MatchOption};
ghost use Rattle.basics.specs.Limits.{places};
ghost use Rattle.numbers.specs.Numbers.{choose};
ghost use Rattle.subsets.specs.Inner.Searches.{Tight, Low};

use binomials::coefficient;

// The number behind place i, or the end behind the last. Partitions of a number have the same line, and it is not in `listings`: here an edit changes it, which
// makes a wrong NEXT of subsets alone.
fn behind(object: &[u8], i: usize, end: u64) -> u64
    requires { i < length object.now }
    ensures { result ≡ get_or object.now (i + 1) end }
{
    object.get(i + 1).map_or(end, |b| u64::from(*b))
}

// The first place whose number leaves room below the next, or below n + 1 at the last place.
pub fn number_to_raise(n: u64, object: &[u8]) -> Option<usize>
    requires { n ≤ places }
    ensures { MatchOption result (Tight n object.now (length object.now)) (λ i. (i < length object.now) × (Tight n object.now i) × (suc (get_or object.now i 0) < get_or object.now (suc i) (suc n))) }
{
    (0..object.len()).find(|i| u64::from(object[*i]) + 1 < behind(object, *i, n + 1))
}

// The first place whose number is above the smallest it can be, its place counted from 1.
pub fn number_to_lower(object: &[u8]) -> Option<usize>
    ensures { MatchOption result (Low object.now (length object.now)) (λ i. (i < length object.now) × (Low object.now i) × (suc i < get_or object.now i 0)) }
{
    (0..object.len()).find(|i| *i + 1 < usize::from(object[*i]))
}

// The largest number below n out of which at most rank subsets of k can be made, and how many can.
#[derive(Clone, Copy)]
pub struct Top {
    pub top: u64,
    pub below: u64,
}

// The top for a rank, from n down.
#[tactic(auto, using(crate::proofs::Ranks::fewer_numbers))]
pub fn largest_top(rank: u64, n: u64, k: u64) -> Top
    requires n_le_places { (n ≤ places) × (choose n k < 2 ^ 64) }
    requires k_nonzero { (0 < k) × (rank < choose n k) }
    ensures { (result.top < n) × ((result.below ≡ choose result.top k) × ((choose result.top k ≤ rank) × (rank < choose (suc result.top) k))) }
{
    // A `for` would test at each number for an end that is never reached: two instructions more, up to 13 percent of an UNRANK, where 5
    // are the bar.
    let mut top = n;
    loop {
        top -= 1;
        let below = coefficient(top, k);
        if below <= rank {
            return Top { top, below };
        }
    }
}
