// The latest partition and the earliest: one function for both ends of the listing, in both editions.
ghost use Rattle.std.specs.Prelude.{◌≡◌, not, ◌++◌, ◌-◌, ◌≤◌, length, replicate};
ghost use Rattle.basics.specs.Limits.{places};
ghost use Rattle.basics.specs.Sums.{range};
ghost use Rattle.listings.specs.Directions.{Edge};
ghost use Rattle.set_partitions.specs.KeyOrder.{edition_of};
ghost use Rattle.set_partitions.specs.Listing.{set_partitions};
ghost use Rattle.set_partitions.specs.Inner.Moves.{opens_late, rest_block};

use crate::edition::Edition;
use listings::fill_up;

// An end of the listing in the order of an edition: that of the latest partition, going up, or of the earliest.
// `up` is a truth value: a closure would bring its law into each contract.
#[derive(Clone, Copy)]
pub struct ListingEnd {
    pub edition: Edition,
    pub up: bool,
}

impl ListingEnd {
    pub fn new(edition: u64, up: bool) -> Self
        ensures { (result.edition ≡ edition_of edition) × (result.up ≡ up) }
    {
        ListingEnd {
            edition: Edition::from(edition),
            up,
        }
    }

    // The other end.
    pub fn opposite(self) -> Self
        ensures { (result.edition ≡ self.edition) × (result.up ≡ not self.up) }
    {
        ListingEnd {
            edition: self.edition,
            up: !self.up,
        }
    }

    // Do the last models open the blocks there?
    #[tactic(auto, unfolding(crate::specs::Inner::Moves::opens_late))]
    pub fn opens_late(self) -> bool
        ensures { result ≡ opens_late self.edition self.up }
    {
        match self.edition {
            Edition::One => !self.up,
            Edition::Two => self.up,
        }
    }

    // The block of the models that open none, where the first ones open all.
    pub fn rest_block(self, used: u8) -> u8
        ensures { result ≡ rest_block self.up used }
    {
        if self.up { used } else { 1 }
    }

    // The partition that stands there.
    #[tactic(auto, using(crate::proofs::Places::late_end, crate::proofs::Places::early_end))]
    pub fn write(self, k: u64, object: &mut [u8])
        requires object_len_bound { length object.old ≤ places }
        requires k_in_bounds { (k ≤ length object.old) × (k ≡ 0 → length object.old ≡ 0) }
        ensures { Edge self.up (set_partitions self.edition (length object.old) k) object.new }
    {
        if self.opens_late() {
            open_late(k, object);
        } else {
            open_early(k, self.rest_block(k as u8), object);
        }
    }
}

// All in block 1 but the last models, which open the others: 1, .., 1, 2, .., k.
fn open_late(k: u64, object: &mut [u8])
    requires { (length object.old ≤ places) × (k ≤ length object.old) }
    ensures { object.new ≡ replicate (length object.old - k) 1 ++ range 1 k }
{
    let at = object.len() - (k as usize);
    object[..at].fill(1);
    fill_up(&mut object[at..], 1);
}

// The first models open all blocks, and the others are in block b: 1, 2, .., k, b, .., b.
fn open_early(k: u64, b: u8, object: &mut [u8])
    requires { (length object.old ≤ places) × (k ≤ length object.old) }
    ensures { object.new ≡ range 1 k ++ replicate (length object.old - k) b }
{
    let at = k as usize;
    fill_up(&mut object[..at], 1);
    object[at..].fill(b);
}
