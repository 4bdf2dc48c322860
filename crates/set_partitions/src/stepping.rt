// A step to the next or the previous partition: one function for both directions, in both editions.
ghost use Rattle.std.specs.Prelude.{◌≡◌, true, false, cond, not, ◌&&◌, ◌+◌, ◌-◌, ◌≤◌, ◌<◌, max, ltb, eqb, length, get_or};
ghost use Rattle.basics.specs.Limits.{places};
ghost use Rattle.listings.specs.Calls.{Said, act};
ghost use Rattle.listings.specs.Directions.{step_call};
ghost use Rattle.listings.specs.Steps.{step_as};
ghost use Rattle.set_partitions.specs.Objects.{is_set_partition, set_partition_before};
ghost use Rattle.set_partitions.specs.Listing.{others_in, block_of, set_partitions};
ghost use Rattle.set_partitions.specs.Inner.Moves.{opens_late, rest_block, key_to, Searched};

use crate::ends::ListingEnd;
use listings::Step;

// Where a key can move: at a place, behind models in the blocks 1 to a number.
#[derive(Clone, Copy)]
struct Spot {
    place: usize,
    used: u8,
}

// The block of a model whose key has moved, and how many blocks those in front of it are in.
#[derive(Clone, Copy)]
struct Moved {
    block: u8,
    used: u8,
}

// How a key leaves an end at which the models in front of it stand.
impl ListingEnd {
    // Can a model leave the new block that it opens, behind as many models as its place says, in the blocks 1 to `used`?
    fn leaves_new(self, place: usize, used: u8) -> bool
        ensures { result ≡ (not (opens_late self.edition self.up) && ltb used place) }
    {
        !self.opens_late() && usize::from(used) < place
    }

    // Can it leave block b of theirs?
    fn leaves_block(self, used: u8, b: u8) -> bool
        ensures { result ≡ cond (opens_late self.edition self.up) (ltb 1 used) (not (eqb b (rest_block self.up used))) }
    {
        if self.opens_late() {
            return 1 < used;
        }
        b != self.rest_block(used)
    }

    // The block beside block b, on the way there.
    fn beside(self, b: u8) -> u8
        requires { (1 ≤ b) × (b ≤ places + 1) }
        ensures { result ≡ cond self.up (b + 1) (b - 1) }
    {
        if self.up { b + 1 } else { b - 1 }
    }
}

// The first place whose key can move. In front of it stands the latest partition, or, going back, the earliest. There the byte before need not be the
// highest block (1, 2, .., m, 1, .., 1), so the search keeps it.
#[tactic(auto, using(crate::proofs::Searching::search_steps))]
fn block_to_move(end: ListingEnd, object: &[u8]) -> Option<Spot>
    requires { 0 < length object.now → get_or object.now 0 0 ≡ 1 }
    ensures { Searched (opens_late end.edition end.up) end.up object.now result }
{
    let mut used: u8 = 1;
    for place in 1..object.len() {
        let b = object[place];
        if used < b {
            if end.leaves_new(place, used) {
                return Some(Spot { place, used });
            }
            used = b;
        } else if end.leaves_block(used, b) {
            return Some(Spot { place, used });
        }
    }
    None
}

// One of two numbers: where nobody can foresee which, both are worked out and the processor has nothing to guess.
fn pick(first: bool, a: u8, b: u8) -> u8
    ensures { result ≡ cond first a b }
{
    if first { a } else { b }
}

// A key that moves: from a new block to block 1, or, going back, to the last; from the last block to go to, to a new one; else to the block beside it.
fn move_key(end: ListingEnd, used: u8, b: u8) -> Moved
    requires { (1 ≤ b) × ((b ≤ used + 1) × ((1 ≤ used) × (used ≤ places))) }
    ensures { (result.block ≡ block_of (max used b - 1) (key_to end.up used b)) × (result.used ≡ others_in (max used b - 1) (key_to end.up used b)) }
{
    let new = used < b;
    let last = b == end.rest_block(used);
    let block = pick(last, used, end.beside(b));
    Moved {
        block: pick(new, end.opposite().rest_block(b), block),
        used: pick(new, b, pick(last, used - 1, used)),
    }
}

// The first model whose key can move does, and the models in front of it start over. Inlined, so that each direction has a search of its own.
#[inline]
pub fn step(end: ListingEnd, k: u64, object: &mut [u8]) -> Step
    requires object_len_bound { length object.old ≤ places }
    requires object_value { is_set_partition (length object.old) k object.old ≡ true }
    ensures { ◌≡◌ {A = Said} (step_as result, object.new) (act (step_call end.up) (set_partition_before end.edition) (set_partitions end.edition (length object.old) k) object.old) }
{
    let Some(Spot { place, used }) = block_to_move(end, object) else {
        return Step::End;
    };
    let moved = move_key(end, used, object[place]);
    object[place] = moved.block;
    end.opposite()
        .write(u64::from(moved.used), &mut object[..place]);
    Step::Moved
}
