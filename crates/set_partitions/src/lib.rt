// Kind 4: partitions of n models into k blocks, over lent byte slices, in the order of either edition: a number that isn't 2 is read as 1. Called by
// `families`, which shows what each function requires. Nothing here needs counts.
// n and the bytes stay plain: with a struct round the lent bytes each clause would promise their length too.
#![tactic(auto)]

ghost use Rattle.std.specs.Prelude.{◌≡◌, true, ◌≤◌, length};
ghost use Rattle.basics.specs.Limits.{places};
ghost use Rattle.listings.specs.Calls.{NEXT, PREVIOUS, Said, act};
ghost use Rattle.listings.specs.Places.{First, Last};
ghost use Rattle.listings.specs.Steps.{step_as};
ghost use Rattle.set_partitions.specs.KeyOrder.{edition_of};
ghost use Rattle.set_partitions.specs.Objects.{is_set_partition, set_partition_before};
ghost use Rattle.set_partitions.specs.Listing.{set_partitions};

pub mod edition;
mod ends;
mod stepping;

pub use edition::Edition;
use ends::ListingEnd;
use listings::Step;
use stepping::step;

// Does the slice hold a partition of n models into k blocks?
#[tactic(auto, using(crate::proofs::Testing::test_steps))]
pub fn is_object(n: u64, k: u64, object: &[u8]) -> bool
    ensures { result ≡ is_set_partition n k object.now }
{
    if object.len() as u64 != n {
        return false;
    }
    let mut used: u64 = 0;
    for block in object {
        let b = u64::from(*block);
        if b == 0 || used + 1 < b {
            return false;
        }
        used = used.max(b);
    }
    used == k
}

// The earliest.
// The edition stays a number, here and in the other calls: any number is one, and an enum in its place would ask more of callers.
pub fn first(edition: u64, k: u64, object: &mut [u8])
    requires object_len_bound { length object.old ≤ places }
    requires k_in_bounds { (k ≤ length object.old) × (k ≡ 0 → length object.old ≡ 0) }
    ensures { First (set_partitions (edition_of edition) (length object.old) k) object.new }
{
    ListingEnd::new(edition, false).write(k, object);
}

// The latest.
pub fn last(edition: u64, k: u64, object: &mut [u8])
    requires object_len_bound { length object.old ≤ places }
    requires k_in_bounds { (k ≤ length object.old) × (k ≡ 0 → length object.old ≡ 0) }
    ensures { Last (set_partitions (edition_of edition) (length object.old) k) object.new }
{
    ListingEnd::new(edition, true).write(k, object);
}

// The partition just after.
pub fn next(edition: u64, k: u64, object: &mut [u8]) -> Step
    requires object_len_bound { length object.old ≤ places }
    requires object_value { is_set_partition (length object.old) k object.old ≡ true }
    ensures { ◌≡◌ {A = Said} (step_as result, object.new) (act NEXT (set_partition_before (edition_of edition)) (set_partitions (edition_of edition) (length object.old) k) object.old) }
{
    step(ListingEnd::new(edition, true), k, object)
}

// The partition just before.
pub fn previous(edition: u64, k: u64, object: &mut [u8]) -> Step
    requires object_len_bound { length object.old ≤ places }
    requires object_value { is_set_partition (length object.old) k object.old ≡ true }
    ensures { ◌≡◌ {A = Said} (step_as result, object.new) (act PREVIOUS (set_partition_before (edition_of edition)) (set_partitions (edition_of edition) (length object.old) k) object.old) }
{
    step(ListingEnd::new(edition, false), k, object)
}
