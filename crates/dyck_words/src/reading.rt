// The readers of a Dyck word: "a row is branches one after another; a branch is 1, a row, 0". They call each other, and the bytes that are
// left fall. And a table of how long each row is, so that steps and ranks need not read an inside again at each level.

ghost use Rattle.std.specs.Prelude.{ℕ, ◌≡◌, ◌+◌, ◌≤◌, ◌<◌, length, get_or};
ghost use Rattle.basics.specs.Limits.{longest_object};
ghost use Rattle.dyck_words.specs.Trees.{Tree, word, node};
ghost use Rattle.dyck_words.specs.Inner.Reading.{RowRead, BranchRead, RowsFit, RowHere, RowsTold, Told};

use basics::LONGEST_OBJECT;

// As many rows as the longest word has: one for each of its bytes, and one for its end.
pub const ROWS: usize = LONGEST_OBJECT + 1;

// Reads branches from a place on, until no 1 stands there, and answers where it came to; or None where no row stands there.
#[cycle(branch_row)]
pub fn row(object: &[u8], at: usize) -> Option<usize>
    requires { at ≤ length object.now }
    ensures { RowRead object.now at result }
{
    let Some(1) = object.get(at) else {
        return Some(at);
    };
    let next = branch(object, at)?;
    row(object, next)
}

// Reads a 1, a row and a 0.
#[cycle(branch_row)]
#[tactic(auto, using(crate::proofs::Testing::branch_reads))]
fn branch(object: &[u8], at: usize) -> Option<usize>
    requires { (at < length object.now) × (get_or object.now at 0 ≡ 1) }
    ensures { BranchRead object.now at result }
{
    let end = row(object, at + 1)?;
    let Some(0) = object.get(end) else {
        return None;
    };
    Some(end + 1)
}

// How long the row is that starts with the byte first, in front of bytes whose rows are known, with one for their end: 1, an inside, 0, a rest.
// 0 also where an inside ends nowhere: the table is read of words alone, and an Option would take two bytes a place.
fn row_here(first: u8, behind: &[u8]) -> u8
    requires { RowsFit behind.now }
    ensures { RowHere first behind.now result }
{
    if first != 1 {
        return 0;
    }
    let inside = behind[0];
    let close = inside as usize;
    match behind.get(close + 1) {
        Some(rest) => inside + 2 + rest,
        None => 0,
    }
}

// The table: for each place of a word that an object may be, and for its end, how long the row is that starts there. One pass from the right.
pub fn rows_by_place(object: &[u8]) -> [u8; ROWS]
    requires { length object.now ≤ longest_object }
    ensures told { RowsTold object.now result }
    ensures low { (k : ℕ) → k ≤ length object.now → k + get_or result k 0 ≤ length object.now }
{
    let mut rows = [0; ROWS];
    for at in (0..object.len()).rev() {
        rows[at] = row_here(object[at], &rows[at + 1..=object.len()]);
    }
    rows
}

// The same table by how many bytes are left where a row starts. For callers: steps and ranks go by place.
pub fn row_lengths(object: &[u8]) -> [u8; ROWS]
    requires { length object.now ≤ longest_object }
    ensures { Told object.now (length object.now) result }
{
    let by_place = rows_by_place(object);
    let mut rows = [0; ROWS];
    for left in 0..=object.len() {
        rows[left] = by_place[object.len() - left];
    }
    rows
}

// How long the inside is of a word that isn't empty, with left bytes from its start on: that table has it.
pub fn inside_len(object: &[u8], rows: &[u8; ROWS], left: usize) -> usize
    requires object_nonzero { (0 < length object.now) × (length object.now ≤ left) × (left ≤ longest_object) }
    requires told { Told object.now left rows.now }
    ensures { (i u : Tree) → object.now ≡ word (node i u) → result ≡ length (word i) }
{
    usize::from(rows[left - 1])
}
