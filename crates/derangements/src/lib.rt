// Kind 7: derangements of n places, the permutations of 1 to n that leave no number at its place, over lent byte slices. Called by `families`, which shows
// what each function requires. Nothing here needs counts.
#![tactic(auto)]

ghost use Rattle.std.specs.Prelude.{◌≡◌, true, ◌≤◌, length};
ghost use Rattle.basics.specs.Limits.{places};
ghost use Rattle.listings.specs.Calls.{NEXT, PREVIOUS, Said, act};
ghost use Rattle.listings.specs.Places.{First, Last};
ghost use Rattle.listings.specs.Steps.{step_as};
ghost use Rattle.derangements.specs.Objects.{has_fixed_point, is_derangement, derangement_before};
ghost use Rattle.derangements.specs.Listing.{derangements};

pub mod cycles;
mod ends;
mod labels;
mod stepping;

use anagrams::permutations;
use listings::Step;

// Does a number stand at its own place?
#[tactic(auto, using(crate::proofs::Images::fixed_here, crate::proofs::Images::unfixed_here, crate::proofs::Images::none_fixed))]
fn has_fixed_point(object: &[u8]) -> bool
    ensures { result ≡ has_fixed_point 1 object.now }
{
    for (i, label) in object.iter().enumerate() {
        if *label as usize == i + 1 {
            return true;
        }
    }
    false
}

// Does the slice hold a derangement of n places?
#[tactic(auto, unfolding(crate::specs::Objects::is_derangement))]
pub fn is_object(n: u64, object: &[u8]) -> bool
    requires { n ≤ places }
    ensures { result ≡ is_derangement n object.now }
{
    permutations::is_object(n as usize, object) && !has_fixed_point(object)
}

// The earliest.
pub fn first(object: &mut [u8])
    requires object_len_bound { length object.old ≤ places }
    requires fact { length object.old ≡ 1 → ⊥ }
    ensures { First (derangements (length object.old)) object.new }
{
    ends::write_first(object);
}

// The latest.
pub fn last(object: &mut [u8])
    requires object_len_bound { length object.old ≤ places }
    requires fact { length object.old ≡ 1 → ⊥ }
    ensures { Last (derangements (length object.old)) object.new }
{
    ends::write_last(object);
}

// The derangement just after.
pub fn next(object: &mut [u8]) -> Step
    requires object_len_bound { length object.old ≤ places }
    requires object_value { is_derangement (length object.old) object.old ≡ true }
    ensures { ◌≡◌ {A = Said} (step_as result, object.new) (act NEXT (derangement_before (length object.old)) (derangements (length object.old)) object.old) }
{
    stepping::step_object(true, object)
}

// The derangement just before.
pub fn previous(object: &mut [u8]) -> Step
    requires object_len_bound { length object.old ≤ places }
    requires object_value { is_derangement (length object.old) object.old ≡ true }
    ensures { ◌≡◌ {A = Said} (step_as result, object.new) (act PREVIOUS (derangement_before (length object.old)) (derangements (length object.old)) object.old) }
{
    stepping::step_object(false, object)
}
