// Kind 5: partitions of the number n into k parts, each at least a floor, over lent byte slices. Called by `families`,
// which shows what each function requires. The steps need no counts.
// n and the bytes stay plain: with a struct round the lent bytes each clause would promise their length too.
#![tactic(auto)]

ghost use Rattle.std.specs.Prelude.{◌≡◌, true, ◌*◌, ◌≤◌, ◌<◌, length};
ghost use Rattle.basics.specs.Limits.{places};
ghost use Rattle.numbers.specs.Numbers.{parts_from};
ghost use Rattle.listings.specs.Calls.{NEXT, PREVIOUS, Said, act};
ghost use Rattle.listings.specs.Places.{At, First, Last, count_before};
ghost use Rattle.listings.specs.Steps.{step_as};
ghost use Rattle.integer_partitions.specs.Objects.{is_integer_partition, integer_partition_before};
ghost use Rattle.integer_partitions.specs.Listing.{integer_partitions};

mod search;

use basics::sum;
use listings::Step;
use partition_numbers::at_least;
use search::{part_to_lower, part_to_raise, with_smaller};

// Does the slice hold k parts of at least the floor, weakly descending, with the sum n?
#[tactic(auto, using(crate::proofs::Testing::test_steps))]
pub fn is_object(floor: u64, n: u64, k: u64, object: &[u8]) -> bool
    ensures { result ≡ is_integer_partition floor n k object.now }
{
    if object.len() as u64 != k {
        return false;
    }
    let mut least = floor;
    let mut left = n;
    for p in object.iter().rev() {
        let p = u64::from(*p);
        if p < least || left < p {
            return false;
        }
        left -= p;
        least = p;
    }
    left == 0
}

// The earliest: all parts at the floor but the first.
#[tactic(auto, using(crate::proofs::Places::first_written))]
pub fn first(floor: u64, n: u64, object: &mut [u8])
    requires n_le_places { (n ≤ places) × (length object.old * floor ≤ n) }
    requires n_value { length object.old ≡ 0 → n ≡ 0 }
    ensures { First (integer_partitions floor n (length object.old)) object.new }
{
    let k = object.len();
    if k == 0 {
        return;
    }
    object.fill(floor as u8);
    object[0] = (n - (k as u64 - 1) * floor) as u8;
}

// The latest: all parts as equal as can be, the larger ones in front.
#[tactic(auto, using(crate::proofs::Places::last_written))]
pub fn last(floor: u64, n: u64, object: &mut [u8])
    requires n_le_places { (n ≤ places) × (length object.old * floor ≤ n) }
    requires n_value { length object.old ≡ 0 → n ≡ 0 }
    ensures { Last (integer_partitions floor n (length object.old)) object.new }
{
    let k = object.len() as u64;
    if k == 0 {
        return;
    }
    let more = (n % k) as usize;
    let part = (n / k) as u8;
    object.fill(part);
    object[..more].fill(part + 1);
}

// The first part that can go up by one does, and the parts in front of it start over.
pub fn next(floor: u64, n: u64, object: &mut [u8]) -> Step
    requires n_le_places { (n ≤ places) × (0 < floor) }
    requires object_value { is_integer_partition floor n (length object.old) object.old ≡ true }
    ensures { ◌≡◌ {A = Said} (step_as result, object.new) (act NEXT integer_partition_before (integer_partitions floor n (length object.old)) object.old) }
{
    let Some(i) = part_to_raise(object) else {
        return Step::End;
    };
    let p = object[i] + 1;
    let others = sum(&object[..i]) - 1;
    first(u64::from(p), others, &mut object[..i]);
    object[i] = p;
    Step::Moved
}

// The first part behind the first that can go down by one does, and the parts in front of it become as equal as can be.
pub fn previous(floor: u64, n: u64, object: &mut [u8]) -> Step
    requires n_le_places { n ≤ places }
    requires object_value { is_integer_partition floor n (length object.old) object.old ≡ true }
    ensures { ◌≡◌ {A = Said} (step_as result, object.new) (act PREVIOUS integer_partition_before (integer_partitions floor n (length object.old)) object.old) }
{
    let Some(i) = part_to_lower(floor, object) else {
        return Step::End;
    };
    let p = object[i] - 1;
    let others = sum(&object[..i]) + 1;
    last(u64::from(p), others, &mut object[..i]);
    object[i] = p;
    Step::Moved
}

// How many come before it: at each part those with a smaller one there and the same behind it.
pub fn rank(floor: u64, n: u64, object: &[u8]) -> u64
    requires n_le_places { (n ≤ places) × (0 < floor) }
    requires object_value { is_integer_partition floor n (length object.now) object.now ≡ true }
    ensures { result ≡ count_before integer_partition_before object.now (integer_partitions floor n (length object.now)) }
{
    let mut earlier = 0;
    let mut least = floor;
    let mut left = n;
    for i in (0..object.len()).rev() {
        let p = u64::from(object[i]);
        earlier += with_smaller(least, p, left, i as u64 + 1);
        least = p;
        left -= p;
    }
    earlier
}

// The object of a rank, from its last part on. Those that have the least part there come first: the rank is among them, or the part is larger.
// No `for` over the places: once the rank is used up the first partition fills those left, whatever the floor is by then. A `for` with a search for
// each part took 23 to 42 percent more instructions, where 5 percent is the bar.
#[tactic(auto, using(crate::proofs::Counts::counts))]
pub fn unrank(rank: u64, floor: u64, n: u64, object: &mut [u8])
    requires n_le_places { (n ≤ places) × ((0 < floor) × (length object.old ≤ places)) }
    requires rank_bound { rank < parts_from floor n (length object.old) }
    ensures { At (integer_partitions floor n (length object.old)) object.new rank }
{
    let mut rest = rank;
    let mut least = floor;
    let mut left = n;
    let mut k = object.len();
    while 0 < rest {
        let here = at_least(least, left - least, k as u64 - 1);
        if rest < here {
            k -= 1;
            left -= least;
            object[k] = least as u8;
        } else {
            rest -= here;
            least += 1;
        }
    }
    first(least, left, &mut object[..k]);
}
