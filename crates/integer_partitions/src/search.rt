// The searches behind the steps and ranks of integer partitions: each reads, and answers a place or a number.
ghost use Rattle.std.specs.Prelude.{◌≡◌, ◌+◌, ◌-◌, ◌≤◌, ◌<◌, length, get_or};
ghost use Rattle.basics.specs.Limits.{places};
ghost use Rattle.basics.specs.Sums.{total};
ghost use Rattle.numbers.specs.Numbers.{parts_from};
ghost use Rattle.integer_partitions.specs.Inner.Searches.{ToRaise, ToLower};

use partition_numbers::at_least;

// The first place, from the second on, whose part can go up by one: the parts in front have one to give and stay at least as large.
#[tactic(auto, using(crate::proofs::Sums::sums))]
pub fn part_to_raise(object: &[u8]) -> Option<usize>
    requires { (total object.now ≤ places) × (length object.now ≤ places) }
    ensures { ToRaise object.now result }
{
    let mut front = 0;
    for (i, p) in object.iter().enumerate() {
        let p = u64::from(*p);
        if i as u64 * (p + 1) < front {
            return Some(i);
        }
        front += p;
    }
    None
}

// The part behind place i, or the end behind the last; the same line as in `subsets`, where an edit changes it for subsets
// alone.
fn behind(object: &[u8], i: usize, end: u64) -> u64
    requires { i < length object.now }
    ensures { result ≡ get_or object.now (i + 1) end }
{
    object.get(i + 1).map_or(end, |p| u64::from(*p))
}

// The first place, from the second on, whose part is above the next, or above the floor at the last place.
#[tactic(auto, using(listings::proofs::Standing::get_d_default))]
pub fn part_to_lower(floor: u64, object: &[u8]) -> Option<usize>
    ensures { ToLower floor object.now result }
{
    for i in 1..object.len() {
        if behind(object, i, floor) < u64::from(object[i]) {
            return Some(i);
        }
    }
    None
}

// Those of k parts of at least the floor whose last part is below p. None where p is the floor, which is often so and spares the reads.
#[tactic(auto, using(numbers::proofs::Laws::floor_mono))]
pub fn with_smaller(floor: u64, p: u64, n: u64, k: u64) -> u64
    requires floor_nonzero { (0 < floor) × ((n ≤ places) × (k ≤ places)) }
    requires floor_le_p { (floor ≤ p) × (p ≤ 256) }
    ensures { result ≡ parts_from floor n k - parts_from p n k }
{
    if p == floor {
        return 0;
    }
    at_least(floor, n, k) - at_least(p, n, k)
}
