// The steps of Dyck words, one function for both directions: the rest moves first, then the inside, then the inside's length; what lies behind
// the place that moved starts over. Each part of a word is lent beside its part of the table of rows: two slices and no struct with that as its
// invariant, since the bytes are written while the table stays.
ghost use Rattle.std.specs.Prelude.{◌≡◌, true, ℕ, suc, ◌+◌, ◌*◌, ◌≤◌, ◌<◌, length};
ghost use Rattle.basics.specs.Limits.{branches};
ghost use Rattle.listings.specs.Calls.{Said, act};
ghost use Rattle.listings.specs.Directions.{step_call};
ghost use Rattle.listings.specs.Steps.{step_as};
ghost use Rattle.dyck_words.specs.Objects.{is_dyck_word};
ghost use Rattle.dyck_words.specs.Trees.{Tree, node, word, dyck_before};
ghost use Rattle.dyck_words.specs.Listing.{dyck_words};
ghost use Rattle.dyck_words.specs.Inner.Moves.{start_tree, AtEdge, AfterStep, Parts};
ghost use Rattle.dyck_words.specs.Inner.Reading.{RowsTold};

use crate::reading::rows_by_place;
use listings::Step;

// The word that a part starts over with: going up the first, 1 0 1 0 .., going back the last, 1 .. 1 0 .. 0.
// `up` is a truth value, here and below: a closure would bring its law into each contract.
#[tactic(auto, using(crate::proofs::Places::alternates, crate::proofs::Places::nested))]
pub fn start_over(up: bool, object: &mut [u8])
    ensures { (n : ℕ) → length object.old ≡ 2 * n → object.new ≡ word (start_tree up n) }
{
    if up {
        for (i, byte) in object.iter_mut().enumerate() {
            *byte = ((i + 1) % 2) as u8;
        }
        return;
    }
    let half = object.len() / 2;
    let (ones, zeros) = object.split_at_mut(half);
    ones.fill(1);
    zeros.fill(0);
}

// An inside up to close and the rest behind it, both started over.
fn write_parts(up: bool, object: &mut [u8], close: usize)
    requires { (0 < close) × (close < length object.old) }
    ensures { (a b : ℕ) → close ≡ 2 * a + 1 → length object.old ≡ 2 * suc (a + b) → object.new ≡ word (node (start_tree up a) (start_tree up b)) }
{
    object[0] = 1;
    object[close] = 0;
    start_over(up, &mut object[1..close]);
    start_over(up, &mut object[close + 1..]);
}

// The inside longer by one branch, or going back shorter by one, and both parts started over; or END where there is no branch to take.
#[tactic(auto, using(crate::proofs::Steps::end_without_rest, crate::proofs::Steps::end_without_inside))]
fn resize_inside(up: bool, object: &mut [u8], len: usize) -> Step
    requires { (i : Tree) × (r : Tree) × Parts object.old len i r }
    ensures { (i r : Tree) → Parts object.old len i r → AtEdge up i → AtEdge up r → AfterStep up (node i r) result object.new }
{
    if up {
        if len + 2 == object.len() {
            return Step::End;
        }
        write_parts(up, object, len + 3);
        return Step::Moved;
    }
    if len == 0 {
        return Step::End;
    }
    write_parts(up, object, len - 1);
    Step::Moved
}

// The rest; or the inside, with the rest started over; or the inside's length.
#[tactic(auto, using(crate::proofs::Lent::row_fits, crate::proofs::Steps::empty_edge))]
fn step(up: bool, object: &mut [u8], rows: &[u8]) -> Step
    requires object_value { (t : Tree) × (object.old ≡ word t) }
    requires rows_told { RowsTold object.old rows.now }
    ensures { (t : Tree) → object.old ≡ word t → AfterStep up t result object.new }
{
    if object.is_empty() {
        return Step::End;
    }
    // the inside is the row that starts behind the 1
    let len = rows[1] as usize;
    let close = len + 1;
    let rest = len + 2;
    let Step::End = step(up, &mut object[rest..], &rows[rest..]) else {
        return Step::Moved;
    };
    let Step::Moved = step(up, &mut object[1..close], &rows[1..]) else {
        return resize_inside(up, object, len);
    };
    start_over(up, &mut object[rest..]);
    Step::Moved
}

// The word just after, or going back just before.
#[tactic(auto, using(crate::proofs::Theorem::short, crate::proofs::Theorem::spelled))]
pub fn step_word(up: bool, n: u64, object: &mut [u8]) -> Step
    requires n_le_branches { n ≤ branches }
    requires object_value { is_dyck_word n object.old ≡ true }
    ensures { ◌≡◌ {A = Said} (step_as result, object.new) (act (step_call up) dyck_before (dyck_words n) object.old) }
{
    let rows = rows_by_place(object);
    step(up, object, &rows)
}
