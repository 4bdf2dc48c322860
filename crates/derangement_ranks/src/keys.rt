// What the key says of a rank: the ranks know the order of the keys only from here.
ghost use Rattle.std.specs.Prelude.{◌≡◌, ◌-◌, ◌≤◌, ◌<◌, ◌^◌};
ghost use Rattle.basics.specs.Limits.{places};
ghost use Rattle.numbers.specs.Numbers.{derangements_of};
ghost use Rattle.derangement_ranks.specs.Inner.Ranks.{earlier_by, Placed};

use counting::derangement_that_fits;

// How many derangements are left with a key of n places: `longer` of n - 1 places, with each key below n, and `shorter` of n - 2, with each from n on.
#[derive(Clone, Copy)]
pub struct LeftCounts {
    n: u64,
    longer: u64,
    shorter: u64,
    ghost bounds: { (2 ≤ n) × (n ≤ places) },
    ghost longer_is: { longer ≡ derangements_of (n - 1) },
    ghost shorter_is: { shorter ≡ derangements_of (n - 2) },
    ghost fits: { derangements_of n < 2 ^ 64 },
}

// The key of a derangement, and its rank among those with that key.
// A struct of its own beside that of set partitions: the keys are other numbers, and a type over both would be no shorter.
#[derive(Clone, Copy)]
pub struct Place {
    pub key: u8,
    pub rank: u64,
}

impl LeftCounts {
    pub fn of(n: u64) -> LeftCounts
        requires bounds { (2 ≤ n) × (n ≤ places) }
        requires fits { derangements_of n < 2 ^ 64 }
        ensures { result.n ≡ n }
    {
        LeftCounts {
            n,
            longer: derangement_that_fits(n - 1),
            shorter: derangement_that_fits(n - 2),
        }
    }

    // How many derangements of n places have a smaller key.
    #[tactic(auto, unfolding(crate::specs::Inner::Ranks::earlier_by))]
    pub fn earlier(self, key: u8) -> u64
        requires from { 1 ≤ key }
        requires fits { earlier_by self.n key self.longer self.shorter < 2 ^ 64 }
        ensures { result ≡ earlier_by self.n key self.longer self.shorter }
    {
        let key = u64::from(key);
        if key < self.n {
            (key - 1) * self.longer
        } else {
            (self.n - 1) * self.longer + (key - self.n) * self.shorter
        }
    }

    // The place of the derangement of a rank.
    pub fn place_at(self, rank: u64) -> Place
        requires { rank < derangements_of self.n }
        ensures { Placed self.n rank self.longer self.shorter result.key result.rank }
    {
        let before = (self.n - 1) * self.longer;
        if rank < before {
            return Place {
                key: (rank / self.longer + 1) as u8,
                rank: rank % self.longer,
            };
        }
        let rest = rank - before;
        Place {
            key: (self.n + rest / self.shorter) as u8,
            rank: rest % self.shorter,
        }
    }
}
