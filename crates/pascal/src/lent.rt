// The rows of the table, which are lent, and an entry of them.
ghost use Rattle.std.specs.Prelude.{◌≡◌, ◌+◌, ◌*◌, ◌/◌, ◌≤◌};
ghost use Rattle.numbers.specs.Numbers.{choose};
ghost use Rattle.pascal.specs.Inner.Triangle.{last_row, Triangle};

use crate::triangle::{ENTRIES, PASCAL};

// A static lies in memory that is only read, where a const would be written out on the stack at each use.
static TABLE: [u64; ENTRIES] = PASCAL;

// Rows 0 to 67 of Pascal's triangle, row after row.
#[derive(Clone, Copy)]
pub struct Rows<'a> {
    entries: &'a [u64; ENTRIES],
    ghost triangle: { Triangle entries.now },
}

// Where the entry k of row n stands in a triangle that is written row after row.
fn place(n: u64, k: u64) -> usize
    requires { (n ≤ last_row) × (k ≤ n) }
    ensures { result ≡ n * (n + 1) / 2 + k }
{
    (n * (n + 1) / 2 + k) as usize
}

impl Rows<'_> {
    // The table's, tested as a whole: whoever names the table pays for the test, so here only.
    pub fn of_table() -> Rows<'static> {
        Rows { entries: &TABLE }
    }

    // The entry k of row n.
    pub fn entry(self, n: u64, k: u64) -> u64
        requires { (n ≤ last_row) × (k ≤ n) }
        ensures { result ≡ choose n k }
    {
        let at = place(n, k);
        self.entries[at]
    }
}
