// Letters that are left: taken one by one, and whether none is left.
ghost use Rattle.std.specs.Prelude.{◌≡◌, ℕ, ◌+◌, ◌<◌, eqb, get_or, MatchOption};
ghost use Rattle.basics.specs.Sums.{total};
ghost use Rattle.anagrams.specs.Objects.{is_anagram};

// Is no letter left?
fn none_left(left: &[u8]) -> bool
    ensures { result ≡ eqb 0 (total left.now) }
{
    left.iter().all(|count| *count == 0)
}

// The place in the counts of a letter that is left.
fn place_left(left: &[u8], letter: u8) -> Option<usize>
    ensures { MatchOption result ((i : ℕ) → letter ≡ i + 1 → get_or left.now i 0 ≡ 0) (λ i. (letter ≡ i + 1) × (0 < get_or left.now i 0)) }
{
    // Letter 0 wraps to a place that no slice has, so it takes no test of its own: one branch fewer at each letter.
    let place = usize::from(letter).wrapping_sub(1);
    let count = *left.get(place)?;
    (0 < count).then_some(place)
}

// Takes each letter of the word from those left. Is every one there, and none left at the end?
pub fn spend_all(left: &mut [u8], object: &[u8]) -> bool
    ensures { result ≡ is_anagram left.old object.now }
{
    for letter in object {
        let Some(place) = place_left(left, *letter) else {
            return false;
        };
        left[place] -= 1;
    }
    none_left(left)
}
