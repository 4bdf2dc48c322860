// The number of a Dyck word and the word of a number: first the words with a shorter inside, then the inside's rank times the rests, then
// the rest's.
ghost use Rattle.std.specs.Prelude.{◌≡◌, true, suc, ◌+◌, ◌*◌, ◌-◌, ◌≤◌, ◌<◌, ◌^◌, length};
ghost use Rattle.numbers.specs.Numbers.{catalan_of};
ghost use Rattle.listings.specs.Places.{At};
ghost use Rattle.dyck_words.specs.Objects.{is_dyck_word};
ghost use Rattle.dyck_words.specs.Listing.{dyck_words};
ghost use Rattle.dyck_words.specs.Inner.Reading.{RowsTold};
ghost use Rattle.dyck_ranks.specs.Inner.Shorter.{shorter};

use counting::catalan_that_fits;

// Words with n of each, where their number fits.
#[tactic(auto, using(counting::proofs::Answers::if_small))]
fn ways(n: u64) -> u64
    requires { catalan_of n < 2 ^ 64 }
    ensures { result ≡ catalan_of n }
{
    catalan_that_fits(n)
}

// Words with n + 1 of each whose inside has j.
#[tactic(auto, using(crate::proofs::Ranks::fewer_fit, crate::proofs::Ranks::share_fits))]
fn with_inside(n: u64, j: u64) -> u64
    requires { (j ≤ n) × (catalan_of (suc n) < 2 ^ 64) }
    ensures { result ≡ catalan_of j * catalan_of (n - j) }
{
    ways(j) * ways(n - j)
}

// Words with n + 1 of each whose inside has fewer than j.
fn shorter_insides(n: u64, j: u64) -> u64
    requires { (j ≤ n) × (catalan_of (suc n) < 2 ^ 64) }
    ensures { result ≡ shorter n j }
{
    (0..j).map(|i| with_inside(n, i)).sum()
}

// Ranking lends the inside and the rest to itself as parts from the middle of the word.
#[tactic(auto, using(crate::proofs::Cutting::inside_fits, crate::proofs::Cutting::branches_fit, crate::proofs::Ranks::fewer_fit))]
pub fn rank_of(n: u64, object: &[u8], rows: &[u8]) -> u64
    requires object_value { is_dyck_word n object.now ≡ true }
    requires rows_told { RowsTold object.now rows.now }
    requires n_bound { catalan_of n < 2 ^ 64 }
    ensures { At (dyck_words n) object.now result }
{
    if n == 0 {
        return 0;
    }
    // the inside is the row that starts behind the 1
    let len = rows[1] as usize;
    let close = len + 1;
    let rest = len + 2;
    let j = (len / 2) as u64;
    let m = n - 1;
    let k = m - j;
    let inside_rank = rank_of(j, &object[1..close], &rows[1..]);
    let rest_rank = rank_of(k, &object[rest..], &rows[rest..]);
    shorter_insides(m, j) + inside_rank * ways(k) + rest_rank
}

// Where a rank falls among the words with n + 1 of each: the size of the inside, and the rank among the words with an inside of that size.
#[derive(Clone, Copy)]
struct RankedInside {
    size: u64,
    left: u64,
}

// As many words have a smaller inside as fit into the rank.
#[tactic(auto, using(crate::proofs::Ranks::shares))]
fn inside_of_rank(rank: u64, n: u64) -> RankedInside
    requires { (catalan_of (suc n) < 2 ^ 64) × (rank < catalan_of (suc n)) }
    ensures { (result.size ≤ n) × (shorter n result.size + result.left ≡ rank) × (rank < shorter n (suc result.size)) }
{
    let mut left = rank;
    for size in 0..n {
        let words = with_inside(n, size);
        if left < words {
            return RankedInside { size, left };
        }
        left -= words;
    }
    RankedInside { size: n, left }
}

// Writes the word of a rank: what is left behind the shorter insides, divided by the rests, gives the ranks of the inside and the rest.
#[tactic(auto, using(crate::proofs::Ranks::fewer_fit, numbers::proofs::Laws::catalan_positive))]
pub fn write_word(rank: u64, n: u64, object: &mut [u8])
    requires object_len { length object.old ≡ 2 * n }
    requires n_bound { catalan_of n < 2 ^ 64 }
    requires rank_bound { rank < catalan_of n }
    ensures { At (dyck_words n) object.new rank }
{
    if n == 0 {
        return;
    }
    let m = n - 1;
    let RankedInside { size: j, left } = inside_of_rank(rank, m);
    let k = m - j;
    let rests = ways(k);
    let inside_rank = left / rests;
    let rest_rank = left % rests;
    let close = (2 * j + 1) as usize;
    object[0] = 1;
    object[close] = 0;
    write_word(inside_rank, j, &mut object[1..close]);
    write_word(rest_rank, k, &mut object[close + 1..]);
}
