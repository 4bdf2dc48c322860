// Kind 1: subsets of k out of 1 to n, over lent byte slices. Called by `families`, which shows what each function requires.
// n and the bytes stay plain: with a struct round the lent bytes each clause would promise their length too.
#![tactic(auto)]

ghost use Rattle.std.specs.Prelude.{◌≡◌, true, ◌≤◌, ◌<◌, ◌^◌, length};
ghost use Rattle.basics.specs.Limits.{places};
ghost use Rattle.numbers.specs.Numbers.{choose};
ghost use Rattle.listings.specs.Calls.{NEXT, PREVIOUS, Said, act};
ghost use Rattle.listings.specs.Places.{At, First, Last, count_before};
ghost use Rattle.listings.specs.Steps.{step_as};
ghost use Rattle.subsets.specs.Objects.{is_subset, subset_before};
ghost use Rattle.subsets.specs.Listing.{subsets};

mod search;

use binomials::coefficient;
use listings::{Step, fill_up};
use search::{largest_top, number_to_lower, number_to_raise};

// Does the slice hold a subset of k out of 1 to n?
#[tactic(auto, using(crate::proofs::Testing::test_steps))]
pub fn is_object(n: u64, k: u64, object: &[u8]) -> bool
    ensures { result ≡ is_subset n k object.now }
{
    if object.len() as u64 != k {
        return false;
    }
    let mut last: u64 = 0;
    for b in object {
        let b = u64::from(*b);
        if b <= last || n < b {
            return false;
        }
        last = b;
    }
    true
}

// The earliest: 1, 2, .., k.
#[tactic(auto, using(crate::proofs::Places::lowest_first))]
pub fn first(n: u64, object: &mut [u8])
    requires { (n ≤ places) × (length object.old ≤ n) }
    ensures { First (subsets n (length object.old)) object.new }
{
    fill_up(object, 1);
}

// The latest: n - k + 1, .., n.
#[tactic(auto, using(crate::proofs::Places::highest_last))]
pub fn last(n: u64, object: &mut [u8])
    requires { (n ≤ places) × (length object.old ≤ n) }
    ensures { Last (subsets n (length object.old)) object.new }
{
    let k = object.len() as u64;
    let from = (n - k + 1) as u8;
    fill_up(object, from);
}

// The first number that can go up by one does, and those in front of it start over.
pub fn next(n: u64, object: &mut [u8]) -> Step
    requires { (n ≤ places) × (is_subset n (length object.old) object.old ≡ true) }
    ensures { ◌≡◌ {A = Said} (step_as result, object.new) (act NEXT subset_before (subsets n (length object.old)) object.old) }
{
    let Some(i) = number_to_raise(n, object) else {
        return Step::End;
    };
    object[i] += 1;
    fill_up(&mut object[..i], 1);
    Step::Moved
}

// The first number that can go down by one does, and those in front of it become the largest below it.
pub fn previous(n: u64, object: &mut [u8]) -> Step
    requires { (n ≤ places) × (is_subset n (length object.old) object.old ≡ true) }
    ensures { ◌≡◌ {A = Said} (step_as result, object.new) (act PREVIOUS subset_before (subsets n (length object.old)) object.old) }
{
    let Some(i) = number_to_lower(object) else {
        return Step::End;
    };
    let top = object[i] - 1;
    object[i] = top;
    let from = top - (i as u8);
    fill_up(&mut object[..i], from);
    Step::Moved
}

// How many come before it, with a summand for each place, from the last to the first: a number b at place j, counted from 1, adds those that have a
// smaller one there and the same ones behind it, the subsets of j out of the numbers below b. So 3 4 6 7 has 15 + 10 + 3 + 2 before it.
pub fn rank(n: u64, object: &[u8]) -> u64
    requires n_le_places { n ≤ places }
    requires object_value { is_subset n (length object.now) object.now ≡ true }
    requires object_bound { choose n (length object.now) < 2 ^ 64 }
    ensures { result ≡ count_before subset_before object.now (subsets n (length object.now)) }
{
    let mut before = 0;
    for i in (0..object.len()).rev() {
        let below = u64::from(object[i]) - 1;
        before += coefficient(below, i as u64 + 1);
    }
    before
}

// The object of a rank: its last number leaves as many below it as fit into the rank, and the others make up the rest.
pub fn unrank(rank: u64, n: u64, object: &mut [u8])
    requires n_le_places { n ≤ places }
    requires object_bound { choose n (length object.old) < 2 ^ 64 }
    requires rank_bound { rank < choose n (length object.old) }
    ensures { At (subsets n (length object.old)) object.new rank }
{
    let mut rest = rank;
    let mut top = n;
    for end in (0..object.len()).rev() {
        let found = largest_top(rest, top, end as u64 + 1);
        rest -= found.below;
        top = found.top;
        object[end] = (top + 1) as u8;
    }
}
