// Demand 3 of running code: a whole list of calls on one family, one buffer and unchanged lists, with a record of every answer and of the
// bytes after every call, which is the marker's run.
#![tactic(auto)]

ghost use Rattle.std.specs.Prelude.{◌≡◌, ◌++◌, map, ◌+◌, ◌*◌, ◌≤◌, is_ok, length, take};
ghost use Rattle.families.specs.Table.{lent};
ghost use Rattle.families.specs.Calls.{respond, run as heard};
ghost use Rattle.families.specs.Codes.{Coded, coded};
ghost use Rattle.replay.specs.Codes.{known as all_known, call_of, calls_of};
ghost use Rattle.replay.specs.Record.{buffers, kept, Outcome, outcome};

use families::{Family, Lists, codes};

// A code that is no call's, or a buffer of another length: nothing was run, and nothing touched.
#[derive(Clone, Copy, Debug, PartialEq, Eq)]
pub struct Misfit;

// Is every code that of a call?
#[tactic(auto, using(crate::proofs::Coding::low, crate::proofs::Coding::high, crate::proofs::Coding::known_on, crate::proofs::Coding::known_end))]
fn known(calls: &[u8]) -> bool
    ensures { result ≡ all_known calls.now }
{
    for call in calls {
        if *call < 1 || 5 < *call {
            return false;
        }
    }
    true
}

// One call, and its answer's code. What is not named is FIRST, as in `call_of`; past `known` that is 1 alone.
// Calls stay bytes, which the record speaks of: an enum would be read from them once more.
fn one_call<'a>(call: u8, rank: u64, f: Family, lists: Lists<'a>, object: &mut [u8]) -> u8
    ensures { ◌≡◌ {A = Coded} (result, object.new) (coded (respond (call_of call rank) f (lent (map (λ x. x.now) lists.entry)) object.old)) }
{
    match call {
        2 => codes::written(families::last(f, lists, object)),
        3 => codes::stepped(families::next(f, lists, object)),
        4 => codes::stepped(families::previous(f, lists, object)),
        5 => codes::written(families::unrank(rank, f, lists, object)),
        _ => codes::written(families::first(f, lists, object)),
    }
}

// The bytes after a call, at their place in the trail.
// A place and no chunks: an object may be empty.
fn keep(trail: &mut [u8], at: usize, object: &[u8])
    requires { at + length object.now ≤ length trail.old }
    ensures { take (at + length object.now) trail.new ≡ take at trail.old ++ object.now }
{
    trail[at..at + object.len()].copy_from_slice(object);
}

// The calls one after the other, each with its answer's code and the bytes after it.
fn run<'a>(
    calls: &[u8],
    ranks: &[u64],
    f: Family,
    lists: Lists<'a>,
    object: &mut [u8],
    answers: &mut [u8],
    trail: &mut [u8],
)
    requires ranked { length ranks.now ≡ length calls.now }
    requires answered { length answers.old ≡ length calls.now }
    requires room { length trail.old ≡ length calls.now * length object.old }
    ensures { buffers object.new answers.new trail.new ≡ kept object.old (heard (calls_of calls.now ranks.now) f (lent (map (λ x. x.now) lists.entry)) object.old) }
{
    let mut at = 0;
    for (i, call) in calls.iter().enumerate() {
        answers[i] = one_call(*call, ranks[i], f, lists, object);
        keep(trail, at, object);
        at += object.len();
    }
}

// Runs the calls one after the other, from the bytes in object.
pub fn replay<'a>(
    calls: &[u8],
    ranks: &[u64],
    f: Family,
    lists: Lists<'a>,
    object: &mut [u8],
    answers: &mut [u8],
    trail: &mut [u8],
) -> Result<(), Misfit>
    ensures { ◌≡◌ {A = Outcome} (is_ok result, buffers object.new answers.new trail.new) (outcome calls.now ranks.now f (lent (map (λ x. x.now) lists.entry)) (buffers object.old answers.old trail.old)) }
{
    if !known(calls) {
        return Err(Misfit);
    }
    if ranks.len() != calls.len() {
        return Err(Misfit);
    }
    if answers.len() != calls.len() {
        return Err(Misfit);
    }
    if !basics::is_product(trail.len(), calls.len(), object.len()) {
        return Err(Misfit);
    }
    run(calls, ranks, f, lists, object, answers, trail);
    Ok(())
}
