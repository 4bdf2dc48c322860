// Kind 3: permutations of 1 to n, the anagrams with every letter once. It lends a list of ones and proves nothing again; the steps are
// those of anagrams.
ghost use Rattle.std.specs.Prelude.{◌≡◌, ℕ, ◌≤◌, length, take};
ghost use Rattle.basics.specs.Limits.{places, longest_object};
ghost use Rattle.listings.specs.Places.{First, Last};
ghost use Rattle.anagrams.specs.Permutations.{ones, is_permutation, permutations};

use basics::LONGEST_OBJECT;

// The counts of every letter: the first n are those of the permutations of n. An array and no Vec: nothing in the library takes memory.
pub fn all_ones() -> [u8; LONGEST_OBJECT]
    ensures { (longest_object ≡ length result) × ((n : ℕ) → n ≤ longest_object → take n result ≡ ones n) }
{
    [1u8; LONGEST_OBJECT]
}

// Does the slice hold each of 1 to n?
pub fn is_object(n: usize, object: &[u8]) -> bool
    requires { n ≤ places }
    ensures { result ≡ is_permutation n object.now }
{
    crate::is_object(&all_ones()[..n], object)
}

// The earliest: 1, 2, .., n.
pub fn first(object: &mut [u8])
    requires { length object.old ≤ places }
    ensures { First (permutations (length object.old)) object.new }
{
    let n = object.len();
    crate::first(&all_ones()[..n], object);
}

// The latest: n, .., 2, 1.
pub fn last(object: &mut [u8])
    requires { length object.old ≤ places }
    ensures { Last (permutations (length object.old)) object.new }
{
    let n = object.len();
    crate::last(&all_ones()[..n], object);
}
