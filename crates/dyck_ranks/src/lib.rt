// Ranks of kind 6, Dyck words with n of each: the rank of a word, and the word of a rank. Called by `families`, which shows what each
// function requires.
#![tactic(auto)]

ghost use Rattle.std.specs.Prelude.{◌≡◌, true, ◌*◌, ◌≤◌, ◌<◌, ◌^◌, length};
ghost use Rattle.basics.specs.Limits.{branches};
ghost use Rattle.numbers.specs.Numbers.{catalan_of};
ghost use Rattle.listings.specs.Places.{At, count_before};
ghost use Rattle.dyck_words.specs.Objects.{is_dyck_word};
ghost use Rattle.dyck_words.specs.Trees.{dyck_before};
ghost use Rattle.dyck_words.specs.Listing.{dyck_words};

mod ranking;

use dyck_words::rows_by_place;

// How many words come before it.
#[tactic(auto, using(dyck_words::proofs::Theorem::short, crate::proofs::Ranks::place_tells))]
pub fn rank(n: u64, object: &[u8]) -> u64
    requires n_le_branches { n ≤ branches }
    requires object_value { is_dyck_word n object.now ≡ true }
    requires n_bound { catalan_of n < 2 ^ 64 }
    ensures { result ≡ count_before dyck_before object.now (dyck_words n) }
{
    let rows = rows_by_place(object);
    ranking::rank_of(n, object, &rows)
}

// The word of a rank.
pub fn unrank(rank: u64, n: u64, object: &mut [u8])
    requires object_len { length object.old ≡ 2 * n }
    requires n_bound { catalan_of n < 2 ^ 64 }
    requires rank_bound { rank < catalan_of n }
    ensures { At (dyck_words n) object.new rank }
{
    ranking::write_word(rank, n, object);
}
