// How many models are in how many blocks, and what the key of the last one says of it. A key is a number, as in the definition: 0 where the model opens
// its block, else the block.
ghost use Rattle.std.specs.Prelude.{◌≡◌, ◌-◌, ◌≤◌, ◌<◌, ◌^◌};
ghost use Rattle.basics.specs.Limits.{places};
ghost use Rattle.numbers.specs.Numbers.{stirling_of};
ghost use Rattle.set_partitions.specs.Listing.{others_in, block_of as block_by};

// n models in k blocks, within the limits.
#[derive(Clone, Copy)]
pub struct Size {
    pub n: usize,
    pub k: u64,
    ghost in_limits: { (n ≤ places) × (stirling_of n k < 2 ^ 64) },
}

impl Size {
    // The others, without the last model, by its key.
    pub fn others(self, key: u64) -> Self
        requires { (0 < self.k) × (self.k < self.n) }
        ensures { (result.n ≡ self.n - 1) × (result.k ≡ others_in (self.k - 1) key) }
    {
        Size {
            n: self.n - 1,
            k: others_in(self.k, key),
        }
    }

    // The block of the last model, by its key.
    #[tactic(auto, unfolding(set_partitions::specs::Listing::block_of))]
    pub fn block_of(self, key: u64) -> u8
        requires { (0 < self.k) × ((self.k ≤ self.n) × (key ≤ self.k)) }
        ensures { result ≡ block_by (self.k - 1) key }
    {
        if key == 0 { self.k as u8 } else { key as u8 }
    }
}

// In how many blocks the others are, where all are in k.
#[tactic(auto, unfolding(set_partitions::specs::Listing::others_in))]
fn others_in(k: u64, key: u64) -> u64
    requires { 0 < k }
    ensures { result ≡ others_in (k - 1) key }
{
    if key == 0 { k - 1 } else { k }
}
