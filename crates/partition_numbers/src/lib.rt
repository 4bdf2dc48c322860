// The number of partitions of n into exactly k parts, each at least a floor, for all within the places. A number is named by e = n - k, what is left when each part has one, and its
// column k. Only the even columns are stored, from e = k - 1 on: with more parts than e it makes no difference how many there are. A number of an odd
// column is the difference of two of the next.
#![tactic(auto)]

ghost use Rattle.std.specs.Prelude.{◌≡◌, ◌+◌, ◌*◌, ◌%◌, ◌≤◌, ◌<◌};
ghost use Rattle.basics.specs.Limits.{places};
ghost use Rattle.numbers.specs.Numbers.{parts_from, partitions_of};

mod words;

use words::WORDS;

// As many bits as a stored number has in its word.
const BITS: usize = 21;

// Where a number of an even column is. The column is 0 only where e is 0, which the last of the bounds says.
#[derive(Clone, Copy)]
struct Place {
    e: u64,
    column: u64,
    ghost in_table: { (column % 2 ≡ 0) × ((e + column ≤ places + 1) × (e ≤ (places + 1) * column)) },
}

impl Place {
    // Where the same number is in a column that is at most e + 1.
    fn narrowed(self) -> Self
        ensures place { (result.e ≡ self.e) × (result.column ≤ self.e + 1) }
        ensures number { partitions_of (result.e + result.column) result.column ≡ partitions_of (self.e + self.column) self.column }
    {
        Place {
            e: self.e,
            column: self.column.min(self.e + self.e % 2),
        }
    }

    // The number where the column is at most e + 1. Column 2 is worked out; the others stand one after the other, and a word has the numbers of three
    // places, as many apart as there are words.
    fn stored(self) -> u64
        requires { self.column ≤ self.e + 1 }
        ensures { result ≡ partitions_of (self.e + self.column) self.column }
    {
        if self.column < 4 {
            return self.e / 2 + 1;
        }
        let at = (self.column / 2 * (83 - self.column) + self.e - 161) as usize;
        (WORDS[at % WORDS.len()] >> (BITS * (at / WORDS.len()))) % (1 << BITS)
    }

    fn number(self) -> u64
        ensures { result ≡ partitions_of (self.e + self.column) self.column }
    {
        self.narrowed().stored()
    }
}

// The count of the partitions of n into exactly k parts.
fn partitions(n: u64, k: u64) -> u64
    requires { n ≤ places }
    ensures { result ≡ partitions_of n k }
{
    if n < k {
        return 0;
    }
    let e = n - k;
    if k % 2 == 1 {
        let v = Place { e, column: k + 1 }.number();
        if e < k + 1 {
            return v;
        }
        let e = e - (k + 1);
        return v - Place { e, column: k + 1 }.number();
    }
    if k == 0 {
        return u64::from(n == 0);
    }
    Place { e, column: k }.number()
}

// The same with every part at least the floor: floor - 1 is taken off each part, so one number is read.
pub fn at_least(floor: u64, n: u64, k: u64) -> u64
    requires floor_nonzero { (0 < floor) × ((n ≤ places) × (k ≤ places)) }
    requires floor_bound { floor ≤ 256 }
    ensures { result ≡ parts_from floor n k }
{
    let off = k * (floor - 1);
    if n < off {
        return 0;
    }
    partitions(n - off, k)
}
