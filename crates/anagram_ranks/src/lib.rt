// The ranks of kinds 2 and 3, which need the counts: how many anagrams or permutations come before one, and the one of a rank. Called by
// `families`, which shows what each function requires.
#![tactic(auto)]

ghost use Rattle.std.specs.Prelude.{◌≡◌, true, ◌≤◌, ◌<◌, ◌^◌, length};
ghost use Rattle.basics.specs.Limits.{places};
ghost use Rattle.basics.specs.Sums.{total};
ghost use Rattle.numbers.specs.Numbers.{multinomial_of};
ghost use Rattle.listings.specs.Places.{At, count_before};
ghost use Rattle.anagrams.specs.Objects.{is_anagram, anagram_before};
ghost use Rattle.anagrams.specs.Listing.{anagrams};

pub mod permutations;
mod ranking;

use listings::copied;

// How many words come before it.
pub fn rank(counts: &[u8], object: &[u8]) -> u64
    requires counts_len_bound { length counts.now ≤ places }
    requires counts_bound { total counts.now ≤ places }
    requires object_value { is_anagram counts.now object.now ≡ true }
    requires counts_bound_2 { multinomial_of counts.now < 2 ^ 64 }
    ensures { result ≡ count_before anagram_before object.now (anagrams counts.now) }
{
    let mut left = copied(counts);
    ranking::rank_of(
        &mut left[..counts.len()],
        ranking::all_words(counts),
        object,
    )
}

// The word of a rank.
pub fn unrank(rank: u64, counts: &[u8], object: &mut [u8])
    requires counts_len_bound { length counts.now ≤ places }
    requires counts_bound { (total counts.now ≤ places) × (length object.old ≡ total counts.now) }
    requires counts_bound_2 { multinomial_of counts.now < 2 ^ 64 }
    requires rank_bound { rank < multinomial_of counts.now }
    ensures { At (anagrams counts.now) object.new rank }
{
    let mut left = copied(counts);
    ranking::write_word(
        rank,
        &mut left[..counts.len()],
        ranking::all_words(counts),
        object,
    );
}
