// What the key of the last model says: the ranks know the order of the keys, and what follows from a key, only from here.
ghost use Rattle.std.specs.Prelude.{◌≡◌, ◌+◌, ◌-◌, ◌*◌, ◌/◌, ◌%◌, ◌≤◌, ◌<◌, ◌^◌};
ghost use Rattle.set_partitions.specs.Inner.Keys.{earlier_by, Placed};

use set_partitions::Edition;

// The key of a partition, and its rank among those with that key.
// A struct of its own beside that of derangements: the keys are other numbers, and a type over both would be no shorter.
#[derive(Clone, Copy)]
pub struct Place {
    pub key: u64,
    pub rank: u64,
}

// The partitions into k blocks, split by the last model: how many have it alone in its block, how many have it in a given block of the others, and
// how far in front of the number of all these numbers stand.
#[derive(Clone, Copy)]
pub struct Split {
    pub alone: u64,
    pub joined: u64,
    pub alone_back: usize,
    pub joined_back: usize,
}

impl Split {
    // How many come before those with a key.
    #[tactic(auto, unfolding(set_partitions::specs::Inner::Keys::earlier_by))]
    pub fn earlier(self, edition: Edition, k: u64, key: u64) -> u64
        requires { earlier_by edition k key self.alone self.joined < 2 ^ 64 }
        ensures { result ≡ earlier_by edition k key self.alone self.joined }
    {
        match edition {
            Edition::One => {
                if key == 0 {
                    return 0;
                }
                self.alone + (key - 1) * self.joined
            }
            Edition::Two => {
                let blocks = if key == 0 { k } else { key - 1 };
                blocks * self.joined
            }
        }
    }

    // The place of the partition of a rank.
    pub fn place_at(self, edition: Edition, k: u64, rank: u64) -> Place
        requires joined_nonzero { (0 < self.joined) × (rank < self.alone + k * self.joined) }
        requires joined_bound { self.alone + k * self.joined < 2 ^ 64 }
        ensures { Placed edition k rank self.alone self.joined result.key result.rank }
    {
        match edition {
            Edition::One => {
                if rank < self.alone {
                    return Place { key: 0, rank };
                }
                self.joined_place(rank - self.alone)
            }
            Edition::Two => {
                let before = k * self.joined;
                if before <= rank {
                    return Place {
                        key: 0,
                        rank: rank - before,
                    };
                }
                self.joined_place(rank)
            }
        }
    }

    // The place among those whose last model is in a block of the others.
    fn joined_place(self, rank: u64) -> Place
        requires { (0 < self.joined) × (rank / self.joined + 1 < 2 ^ 64) }
        ensures { (result.key ≡ rank / self.joined + 1) × (result.rank ≡ rank % self.joined) }
    {
        Place {
            key: rank / self.joined + 1,
            rank: rank % self.joined,
        }
    }

    // Where the number of the others stands, if that of all stands at a place.
    pub fn others_at(self, at: usize, key: u64) -> usize
        requires { (self.alone_back ≤ at) × (self.joined_back ≤ at) }
        ensures alone { key ≡ 0 → result ≡ at - self.alone_back }
        ensures joined { 0 < key → result ≡ at - self.joined_back }
    {
        let back = if key == 0 {
            self.alone_back
        } else {
            self.joined_back
        };
        at - back
    }
}
