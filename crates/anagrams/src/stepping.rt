// A step to the next or the previous word: one function for both directions.
ghost use Rattle.std.specs.Prelude.{◌≡◌, true, List, ℕ, ◌+◌, ◌<◌, length, get_or, drop, MatchOption};
ghost use Rattle.listings.specs.Calls.{Said, act};
ghost use Rattle.listings.specs.Directions.{step_call};
ghost use Rattle.listings.specs.Steps.{step_as};
ghost use Rattle.anagrams.specs.Objects.{is_anagram, anagram_before};
ghost use Rattle.anagrams.specs.Listing.{anagrams};
ghost use Rattle.anagrams.specs.Inner.Directions.{precedes_by, Spent, NoneBeyond};

use listings::Step;

// Does a come before b, or, going back, after it? The direction is a bool all along: in its place a closure would bring its law, that it
// answers `precedes_by`, into the contract of each function that it passes through.
#[tactic(auto, unfolding(crate::specs::Inner::Directions::precedes_by))]
fn precedes(a: u8, b: u8, up: bool) -> bool
    ensures { result ≡ precedes_by up a b }
{
    if up { a < b } else { b < a }
}

// The last place whose letter precedes the next one. No letter behind it precedes a later one, so no word of the same letters comes after that tail.
fn pivot_of(object: &[u8], up: bool) -> Option<usize>
    ensures { MatchOption result (Spent up object.now)
        (λ pivot. (pivot + 1 < length object.now) × (precedes_by up (get_or object.now pivot 0) (get_or object.now (pivot + 1) 0) ≡ true) × Spent up (drop (pivot + 1) object.now)) }
{
    for tail in (1..object.len()).rev() {
        if precedes(object[tail - 1], object[tail], up) {
            return Some(tail - 1);
        }
    }
    None
}

// The last place behind the pivot whose letter the pivot's precedes.
fn last_beyond(object: &[u8], pivot: usize, up: bool) -> usize
    requires pivot_in_bounds { pivot + 1 < length object.now }
    requires pivot_value { precedes_by up (get_or object.now pivot 0) (get_or object.now (pivot + 1) 0) ≡ true }
    ensures lower_bound { (pivot < result) × (result < length object.now) }
    ensures result_value { precedes_by up (get_or object.now pivot 0) (get_or object.now result 0) ≡ true }
    ensures none_beyond { NoneBeyond up (get_or object.now pivot 0) (drop (result + 1) object.now) }
{
    for place in (pivot + 2..object.len()).rev() {
        if precedes(object[pivot], object[place], up) {
            return place;
        }
    }
    pivot + 1
}

// The pivot in front of the tail takes the next letter of the tail, and the tail starts over.
pub fn step(object: &mut [u8], up: bool) -> Step
    ensures { (cs : List ℕ) → is_anagram cs object.old ≡ true → ◌≡◌ {A = Said} (step_as result, object.new) (act (step_call up) anagram_before (anagrams cs) object.old) }
{
    let Some(pivot) = pivot_of(object, up) else {
        return Step::End;
    };
    let other = last_beyond(object, pivot, up);
    object.swap(pivot, other);
    object[pivot + 1..].reverse();
    Step::Moved
}
