// The rows of Pascal's triangle from the table's last row to the limit, worked out from that row by additions. Each sum on the way is part of the entry that is worked out.
ghost use Rattle.std.specs.Prelude.{◌≡◌, ℕ, suc, ◌+◌, ◌≤◌, ◌<◌, ◌^◌, length, get_or};
ghost use Rattle.basics.specs.Limits.{places};
ghost use Rattle.numbers.specs.Numbers.{choose};
ghost use Rattle.pascal.specs.Inner.Triangle.{last_row};
ghost use Rattle.pascal.specs.Inner.Window.{width, back, Added};

use crate::LAST_ROW;
use crate::lent::Rows;
use basics::PLACES;

// As many entries as the last of these rows is worked out from: one more for each row.
const WIDTH: usize = (PLACES - LAST_ROW) as usize + 1;

// Adds to each of the first m entries its right neighbour.
fn add_neighbours(w: &mut [u64], m: usize)
    requires m_in_bounds { m < length w.old }
    requires by_index { (i : ℕ) → i < m → get_or w.old i 0 + get_or w.old (suc i) 0 < 2 ^ 64 }
    ensures { Added w.old m w.new }
{
    for i in 0..m {
        w[i] += w[i + 1];
    }
}

impl Rows<'_> {
    // The entry of the last row that lies i places before k, and 0 before the row's first.
    fn before_place(self, k: u64, i: u64) -> u64
        ensures { result ≡ back last_row k i }
    {
        let Some(at) = k.checked_sub(i) else {
            return 0;
        };
        if LAST_ROW < at {
            return 0;
        }
        self.entry(LAST_ROW, at)
    }

    // The part of the last row that an entry k of the rows above is worked out from: the entry k and those in front of it.
    fn last_row(self, k: u64) -> [u64; WIDTH]
        ensures { (i : ℕ) → i < width → get_or result i 0 ≡ back last_row k i }
    {
        let mut w = [0u64; WIDTH];
        for (i, entry) in w.iter_mut().enumerate() {
            *entry = self.before_place(k, i as u64);
        }
        w
    }

    // The entry k of row n, a row up at each turn.
    pub fn climb(self, n: u64, k: u64) -> u64
        requires { (last_row ≤ n) × ((n ≤ places) × (choose n k < 2 ^ 64)) }
        ensures { result ≡ choose n k }
    {
        let mut w = self.last_row(k);
        for left in (0..(n - LAST_ROW) as usize).rev() {
            add_neighbours(&mut w, left + 1);
        }
        w[0]
    }
}
