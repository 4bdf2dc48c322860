// A step to the next or the previous derangement: one function for both directions. What is left without the key moves first, and where it can't the key does.
// `up` is a bool, as the direction is in what all kinds say of a step (`Beside`, `Edge` and `step_call` of `listings`).
ghost use Rattle.std.specs.Prelude.{◌≡◌, true, ◌*◌, ◌≤◌, length, take, if◌then◌else◌};
ghost use Rattle.basics.specs.Limits.{places};
ghost use Rattle.listings.specs.Calls.{Said, act};
ghost use Rattle.listings.specs.Directions.{Edge, step_call};
ghost use Rattle.listings.specs.Steps.{step_as};
ghost use Rattle.derangements.specs.Objects.{is_derangement, derangement_before};
ghost use Rattle.derangements.specs.Listing.{join, derangements};
ghost use Rattle.derangements.specs.Inner.Keys.{left_of, low_key, high_key, Keyed};
ghost use Rattle.derangements.specs.Inner.Moves.{goes, key_beside, AfterStep};

use crate::cycles::{left_of, put_together, take_apart};
use crate::ends::write_end;
use listings::Step;

// The lowest key that a derangement of n places has.
#[tactic(auto, unfolding(crate::specs::Inner::Keys::low_key))]
fn low_key(n: usize) -> u8
    ensures { result ≡ low_key n }
{
    if n == 2 { 2 } else { 1 }
}

// The highest: of three places none has key 3 or 4, which would leave one place.
#[tactic(auto, unfolding(crate::specs::Inner::Keys::high_key))]
fn high_key(n: usize) -> u8
    requires { (2 ≤ n) × (n ≤ places) }
    ensures { result ≡ high_key n }
{
    if n == 3 { 2 } else { 2 * (n - 1) as u8 }
}

// The key beside this one, if there is one.
#[tactic(auto, unfolding(crate::specs::Inner::Moves::goes))]
fn beside(up: bool, n: usize, key: u8) -> Option<u8>
    requires { (2 ≤ n) × (n ≤ places) }
    ensures { result ≡ (if goes up n key then Some (key_beside up key) else None) }
{
    match up {
        true if key < high_key(n) => Some(key + 1),
        false if low_key(n) < key => Some(key - 1),
        _ => None,
    }
}

// What is left can't move: the key does, and what is left with it starts over; or all is put together as it was.
fn turn(up: bool, key: u8, object: &mut [u8]) -> Step
    requires in_bounds { (2 ≤ length object.old) × (length object.old ≤ places) }
    requires keyed { Keyed (length object.old) key object.old }
    requires edge { Edge up (derangements (left_of (length object.old) key)) (take (left_of (length object.old) key) object.old) }
    ensures { AfterStep up (derangements (length object.old)) (join (length object.old) key (take (left_of (length object.old) key) object.old)) result object.new }
{
    let n = object.len();
    let Some(moved) = beside(up, n, key) else {
        put_together(key, object);
        return Step::End;
    };
    let left = left_of(n, moved);
    write_end(!up, &mut object[..left]);
    put_together(moved, object);
    Step::Moved
}

// The key is taken off, what is left steps, and the whole is put together again.
fn step(up: bool, object: &mut [u8]) -> Step
    requires object_len_bound { length object.old ≤ places }
    requires object_value { is_derangement (length object.old) object.old ≡ true }
    ensures { AfterStep up (derangements (length object.old)) object.old result object.new }
{
    if object.is_empty() {
        return Step::End;
    }
    let key = take_apart(object);
    let left = left_of(object.len(), key);
    match step(up, &mut object[..left]) {
        Step::Moved => {
            put_together(key, object);
            Step::Moved
        }
        Step::End => turn(up, key, object),
    }
}

// The derangement just after, or going back just before.
pub fn step_object(up: bool, object: &mut [u8]) -> Step
    requires object_len_bound { length object.old ≤ places }
    requires object_value { is_derangement (length object.old) object.old ≡ true }
    ensures { ◌≡◌ {A = Said} (step_as result, object.new) (act (step_call up) (derangement_before (length object.old)) (derangements (length object.old)) object.old) }
{
    step(up, object)
}
