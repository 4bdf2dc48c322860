// The ranks of permutations. Where it lends a list of ones it proves nothing again. Their number is a factorial, which costs less than the
// same number by the counts of letters.
ghost use Rattle.std.specs.Prelude.{◌≡◌, true, map, ℕ, ◌≤◌, ◌<◌, ◌^◌, length, get_or};
ghost use Rattle.basics.specs.Limits.{places};
ghost use Rattle.numbers.specs.Numbers.{factorial_of};
ghost use Rattle.listings.specs.Places.{At, count_before};
ghost use Rattle.anagrams.specs.Objects.{anagram_before};
ghost use Rattle.anagrams.specs.Permutations.{is_permutation, permutations};
ghost use Rattle.anagram_ranks.specs.Inner.Raised.{raised};

use crate::ranking::rank_of;
use anagrams::permutations::all_ones;
use counting::factorial;

// The number of permutations of n, where it fits.
#[tactic(auto, using(crate::proofs::Counts::answer_is_exact))]
fn all_permutations(n: usize) -> u64
    requires { (n ≤ places) × (factorial_of n < 2 ^ 64) }
    ensures { result ≡ factorial_of n }
{
    factorial(n as u64).unwrap()
}

// How many permutations come before it.
pub fn rank(object: &[u8]) -> u64
    requires object_len_bound { length object.now ≤ places }
    requires object_value { is_permutation (length object.now) object.now ≡ true }
    requires object_bound { factorial_of (length object.now) < 2 ^ 64 }
    ensures { result ≡ count_before anagram_before object.now (permutations (length object.now)) }
{
    let n = object.len();
    rank_of(&mut all_ones()[..n], all_permutations(n), object)
}

// Makes letter a free: the letters of the part from a on go up by one.
fn raise(part: &mut [u8], a: u8)
    requires { (i : ℕ) → get_or part.old i 0 < 255 }
    ensures { part.new ≡ map (raised a) part.old }
{
    for letter in part.iter_mut() {
        *letter += u8::from(a <= *letter);
    }
}

// The permutation of a rank, from the last letter to the first, with one division for each: how many of the letters behind it are smaller
// is a digit of the rank in factorials.
pub fn unrank(rank: u64, object: &mut [u8])
    requires object_len_bound { length object.old ≤ places }
    requires rank_bound { rank < factorial_of (length object.old) }
    ensures { At (permutations (length object.old)) object.new rank }
{
    let n = object.len();
    let mut rest = rank;
    for i in (0..n).rev() {
        let size = (n - i) as u64;
        let letter = (rest % size + 1) as u8;
        rest /= size;
        raise(&mut object[i + 1..], letter);
        object[i] = letter;
    }
}
