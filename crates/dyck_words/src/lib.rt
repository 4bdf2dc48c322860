// Kind 6: Dyck words with n of each, over lent byte slices. Called by `families`, which shows what each function requires. A word that isn't
// empty is 1, its inside, 0, its rest (paper 01's row is a word, its branch a prime word, 1 inside 0). Nothing here needs counts: ranks,
// which do, are in `dyck_ranks` and use the table of rows that is passed on below.
// n and the bytes stay plain: with a struct round the lent bytes each clause would promise their length too.
#![tactic(auto)]

ghost use Rattle.std.specs.Prelude.{◌≡◌, true, ◌*◌, ◌≤◌, length};
ghost use Rattle.basics.specs.Limits.{branches};
ghost use Rattle.listings.specs.Calls.{NEXT, PREVIOUS, Said, act};
ghost use Rattle.listings.specs.Places.{First, Last};
ghost use Rattle.listings.specs.Steps.{step_as};
ghost use Rattle.dyck_words.specs.Objects.{is_dyck_word};
ghost use Rattle.dyck_words.specs.Trees.{dyck_before};
ghost use Rattle.dyck_words.specs.Listing.{dyck_words};

mod reading;
mod stepping;

use listings::Step;
pub use reading::{ROWS, inside_len, row_lengths, rows_by_place};

// Does the slice hold a Dyck word with n of each? The reader of a row has to come to the end.
#[tactic(auto, using(crate::proofs::Testing::wrong_length, crate::proofs::Testing::row_tells))]
pub fn is_object(n: u64, object: &[u8]) -> bool
    requires { n ≤ branches }
    ensures { result ≡ is_dyck_word n object.now }
{
    object.len() as u64 == 2 * n && reading::row(object, 0) == Some(object.len())
}

// The earliest: 1 0 1 0 ..
#[tactic(auto, using(crate::proofs::Neighbours::first_word))]
pub fn first(n: u64, object: &mut [u8])
    requires { length object.old ≡ 2 * n }
    ensures { First (dyck_words n) object.new }
{
    stepping::start_over(true, object);
}

// The latest: 1 .. 1 0 .. 0.
#[tactic(auto, using(crate::proofs::Neighbours::last_word))]
pub fn last(n: u64, object: &mut [u8])
    requires { length object.old ≡ 2 * n }
    ensures { Last (dyck_words n) object.new }
{
    stepping::start_over(false, object);
}

// The word just after.
pub fn next(n: u64, object: &mut [u8]) -> Step
    requires n_le_branches { n ≤ branches }
    requires object_value { is_dyck_word n object.old ≡ true }
    ensures { ◌≡◌ {A = Said} (step_as result, object.new) (act NEXT dyck_before (dyck_words n) object.old) }
{
    stepping::step_word(true, n, object)
}

// The word just before.
pub fn previous(n: u64, object: &mut [u8]) -> Step
    requires n_le_branches { n ≤ branches }
    requires object_value { is_dyck_word n object.old ≡ true }
    ensures { ◌≡◌ {A = Said} (step_as result, object.new) (act PREVIOUS dyck_before (dyck_words n) object.old) }
{
    stepping::step_word(false, n, object)
}
