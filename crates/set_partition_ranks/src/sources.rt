// Where a rank reads its numbers: those of few models are stored, and those of many stand in a band that is worked out once a call.
ghost use Rattle.std.specs.Prelude.{ℕ, ◌+◌, ◌-◌, ◌*◌, ◌≡◌, ◌≤◌, ◌<◌, replicate};
ghost use Rattle.stirling_rows.specs.Inner.Stored.{last_row};
ghost use Rattle.stirlings.specs.Inner.Band.{capacity, Filled, Reaches};
ghost use Rattle.set_partition_ranks.specs.Inner.Ranks.{Numbers};

use crate::last_key::Split;
use crate::size::Size;
use stirling_rows::both;
use stirlings::{CAPACITY, fill};

// A source of the numbers. A place in it goes with n and k, and is handed on beside it: with these in one struct, calls would pass it through memory.
pub trait Source: Copy {
    // It has all that a rank among the partitions of n models into k blocks reads, and their own number stands at a place.
    ghost reaches: { Self → ℕ → ℕ → ℕ → Type 0 };

    // Of n models in k blocks: the partitions with the last one alone, and those with it in a given block of the others.
    fn split(self, at: usize, size: Size) -> Split
        requires inside { (0 < size.k) × (size.k < size.n) }
        requires reaches { reaches self at size.n size.k }
        ensures numbers { Numbers size.n size.k result.alone result.joined }
        ensures back { (result.alone_back ≤ at) × (result.joined_back ≤ at) }
        ensures alone { reaches self (at - result.alone_back) (size.n - 1) (size.k - 1) }
        ensures joined { reaches self (at - result.joined_back) (size.n - 1) size.k };
}

// The numbers that are stored, which n and k find without a place.
#[derive(Clone, Copy)]
pub struct Stored;

impl Source for Stored {
    ghost reaches = { λ _ _ n _. n ≤ last_row };

    fn split(self, _at: usize, size: Size) -> Split {
        let numbers = both(size.n as u64 - 1, size.k);
        Split {
            alone: numbers.fewer,
            joined: numbers.same,
            alone_back: 0,
            joined_back: 0,
        }
    }
}

// A band, whose rows have a width. The number of those with the last model alone stands one place before, and of those with it in a given block a row
// before.
#[derive(Clone, Copy)]
pub struct Band<'a> {
    pub numbers: &'a [u64; CAPACITY],
    pub width: usize,
}

impl Band<'_> {
    // The band of all that ranks among partitions of a size read, worked out in a room of ones.
    pub fn of(room: &mut [u64; CAPACITY], size: Size) -> Band<'_>
        requires many { size.k ≤ size.n }
        requires ones { room.old ≡ replicate capacity 1 }
        ensures { (result.width ≡ size.k + 1) × Filled result.numbers.now (size.k + 1) (size.n - size.k + 1) }
    {
        fill(size.n as u64, size.k, room);
        Band {
            numbers: room,
            width: size.k as usize + 1,
        }
    }

    // Where their own number stands in it.
    pub fn place_of(self, size: Size) -> usize
        requires { (size.k ≤ size.n) × (self.width ≡ size.k + 1) }
        ensures { result ≡ (size.n - size.k) * (size.k + 1) + size.k }
    {
        (size.n - size.k as usize) * self.width + size.k as usize
    }
}

impl Source for Band<'_> {
    ghost reaches = { λ band at n k. Reaches band.numbers.now band.width at n k };

    fn split(self, at: usize, _size: Size) -> Split {
        Split {
            alone: self.numbers[at - 1],
            joined: self.numbers[at - self.width],
            alone_back: 1,
            joined_back: self.width,
        }
    }
}
