// Kind 2: anagrams, the words with letter i (from 1) as often as counts[i - 1] says, over lent byte slices. Called by `families`, which
// shows what each function requires: the counts are lent by C as they are, and a struct round them would be made at each call for one clause.
// Nothing here counts the words: the ranks are in `anagram_ranks`.
#![tactic(auto)]

ghost use Rattle.std.specs.Prelude.{◌≡◌, true, List, ℕ, ◌≤◌, length};
ghost use Rattle.basics.specs.Limits.{places};
ghost use Rattle.basics.specs.Sums.{total};
ghost use Rattle.listings.specs.Calls.{NEXT, PREVIOUS, Said, act};
ghost use Rattle.listings.specs.Places.{First, Last};
ghost use Rattle.listings.specs.Steps.{step_as};
ghost use Rattle.anagrams.specs.Objects.{is_anagram, anagram_before};
ghost use Rattle.anagrams.specs.Listing.{anagrams};

mod letters;
pub mod permutations;
mod stepping;

use listings::{Step, copied};

// Does the slice hold a word of these letters?
pub fn is_object(counts: &[u8], object: &[u8]) -> bool
    requires { length counts.now ≤ places }
    ensures { result ≡ is_anagram counts.now object.now }
{
    letters::spend_all(&mut copied(counts)[..counts.len()], object)
}

// The earliest: the letters in ascending order.
pub fn first(counts: &[u8], object: &mut [u8])
    requires { (length counts.now ≤ places) × (length object.old ≡ total counts.now) }
    ensures { First (anagrams counts.now) object.new }
{
    let mut start = 0;
    for (i, count) in counts.iter().enumerate() {
        let end = start + usize::from(*count);
        object[start..end].fill((i + 1) as u8);
        start = end;
    }
}

// The latest: the letters in descending order.
pub fn last(counts: &[u8], object: &mut [u8])
    requires { (length counts.now ≤ places) × (length object.old ≡ total counts.now) }
    ensures { Last (anagrams counts.now) object.new }
{
    first(counts, object);
    object.reverse();
}

// The word just after, whatever its letters are.
pub fn next(object: &mut [u8]) -> Step
    ensures { (cs : List ℕ) → is_anagram cs object.old ≡ true → ◌≡◌ {A = Said} (step_as result, object.new) (act NEXT anagram_before (anagrams cs) object.old) }
{
    stepping::step(object, true)
}

// The word just before.
pub fn previous(object: &mut [u8]) -> Step
    ensures { (cs : List ℕ) → is_anagram cs object.old ≡ true → ◌≡◌ {A = Said} (step_as result, object.new) (act PREVIOUS anagram_before (anagrams cs) object.old) }
{
    stepping::step(object, false)
}
