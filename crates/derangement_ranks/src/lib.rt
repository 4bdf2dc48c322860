// Ranks of kind 7, derangements of n places: the rank of a derangement, and the derangement of a rank, key by key. Called by `families`, which shows what
// each function requires.
#![tactic(auto)]

ghost use Rattle.std.specs.Prelude.{◌≡◌, true, ◌≤◌, ◌<◌, ◌^◌, length};
ghost use Rattle.basics.specs.Limits.{places};
ghost use Rattle.numbers.specs.Numbers.{derangements_of};
ghost use Rattle.listings.specs.Places.{At, count_before};
ghost use Rattle.derangements.specs.Objects.{is_derangement, derangement_before};
ghost use Rattle.derangements.specs.Listing.{derangements};

mod keys;

use derangements::cycles::{left_of, put_together, take_apart};
use keys::LeftCounts;
use listings::copied;

// Through the rank of the derangement left. The bytes are taken apart on the way, so they are a copy.
fn rank_of(object: &mut [u8]) -> u64
    requires object_len_bound { length object.old ≤ places }
    requires object_value { is_derangement (length object.old) object.old ≡ true }
    requires object_bound { derangements_of (length object.old) < 2 ^ 64 }
    ensures { At (derangements (length object.old)) object.old result }
{
    let n = object.len();
    if n == 0 {
        return 0;
    }
    let counts = LeftCounts::of(n as u64);
    let key = take_apart(object);
    let left = left_of(n, key);
    counts.earlier(key) + rank_of(&mut object[..left])
}

// How many derangements come before it.
pub fn rank(object: &[u8]) -> u64
    requires object_len_bound { length object.now ≤ places }
    requires object_value { is_derangement (length object.now) object.now ≡ true }
    requires object_bound { derangements_of (length object.now) < 2 ^ 64 }
    ensures { result ≡ count_before (derangement_before (length object.now)) object.now (derangements (length object.now)) }
{
    // In an array with room for any object, and no Vec: the calls take no memory.
    let n = object.len();
    let mut bytes = copied(object);
    rank_of(&mut bytes[..n])
}

// The object of a rank: its key, and in front the derangement left, of what is left of the rank.
pub fn unrank(rank: u64, object: &mut [u8])
    requires object_len_bound { length object.old ≤ places }
    requires object_bound { derangements_of (length object.old) < 2 ^ 64 }
    requires rank_bound { rank < derangements_of (length object.old) }
    ensures { At (derangements (length object.old)) object.new rank }
{
    let n = object.len();
    if n == 0 {
        return;
    }
    let place = LeftCounts::of(n as u64).place_at(rank);
    let left = left_of(n, place.key);
    unrank(place.rank, &mut object[..left]);
    put_together(place.key, object);
}
