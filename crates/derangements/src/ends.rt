// The earliest derangement, one cycle 2, 3, .., n, 1, and the latest, of cycles of two, with one of three where n is odd.
ghost use Rattle.std.specs.Prelude.{◌≡◌, ◌≤◌, length};
ghost use Rattle.basics.specs.Limits.{places};
ghost use Rattle.listings.specs.Directions.{Edge};
ghost use Rattle.listings.specs.Places.{First, Last};
ghost use Rattle.derangements.specs.Listing.{derangements};

use listings::fill_up;

// The earliest: each place holds the next one's number, and the last 1.
#[tactic(auto, using(crate::proofs::FirstLast::first_none, crate::proofs::FirstLast::first_some))]
pub fn write_first(object: &mut [u8])
    requires object_len_bound { length object.old ≤ places }
    requires fact { length object.old ≡ 1 → ⊥ }
    ensures { First (derangements (length object.old)) object.new }
{
    fill_up(object, 2);
    if let Some(end) = object.len().checked_sub(1) {
        object[end] = 1;
    }
}

// The latest: the last two places hold each other's numbers, behind the latest of the others.
#[tactic(auto, using(crate::proofs::FirstLast::last_none, crate::proofs::FirstLast::last_of_three, crate::proofs::FirstLast::last_behind))]
pub fn write_last(object: &mut [u8])
    requires object_len_bound { length object.old ≤ places }
    requires fact { length object.old ≡ 1 → ⊥ }
    ensures { Last (derangements (length object.old)) object.new }
{
    let n = object.len();
    match n {
        0 => {}
        3 => object.copy_from_slice(&[3, 1, 2]),
        _ => {
            let (others, pair) = object.split_at_mut(n - 2);
            pair[0] = n as u8;
            pair[1] = n as u8 - 1;
            write_last(others);
        }
    }
}

// The latest, or, going back, the earliest.
pub fn write_end(up: bool, object: &mut [u8])
    requires object_len_bound { length object.old ≤ places }
    requires fact { length object.old ≡ 1 → ⊥ }
    ensures { Edge up (derangements (length object.old)) object.new }
{
    if up {
        write_last(object);
    } else {
        write_first(object);
    }
}
