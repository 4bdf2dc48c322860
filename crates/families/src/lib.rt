// The seven calls on families of objects. No function has a `requires`: any family, any lists and buffers of any length are answered, or
// refused by the first question that they miss, and a refusal leaves every byte.
#![tactic(auto)]

ghost use Rattle.std.specs.Prelude.{◌≡◌, map, []};
ghost use Rattle.listings.specs.Calls.{COUNT, FIRST, LAST, NEXT, PREVIOUS, RANK, UNRANK, Said, first_no};
ghost use Rattle.families.specs.Table.{lent, only_counts, plain_family};
ghost use Rattle.families.specs.Families.{is_object, count_of};
ghost use Rattle.families.specs.Questions.{rank_refusal};
ghost use Rattle.families.specs.Questions.{opening as opening_of};
ghost use Rattle.families.specs.Calls.{respond, measured};
ghost use Rattle.families.specs.Answers.{call_as, verdict_as, counted_as, ranked_as, written_as, stepped_as, length_as};

mod admitted;
pub mod codes;
mod kind;
mod kinds;
mod questions;
mod refusal;
mod table;

use listings::Step;
pub use questions::{Call, ask};
pub use refusal::Refusal;

// "A family is passed by value: its kind, n and k, each an unsigned 64-bit number." "A family gains a floor", which every part of kind 5 has at least.
// "A family says edition 1 or 2", by which kind 4 is ordered.
#[repr(C)]
#[derive(Clone, Copy)]
pub struct Family {
    pub kind: u64,
    pub n: u64,
    pub k: u64,
    pub floor: u64,
    pub edition: u64,
}

// Everything lent beside a family, by place: the letter counts of kind 2.
pub type Lists<'a> = [&'a [u8]; 1];

// A family of which no more is said than this: floor and edition, and later fields, have their defaults.
pub fn plain_family(kind: u64, n: u64, k: u64) -> Family
    ensures { result ≡ plain_family kind n k }
{
    Family {
        kind,
        n,
        k,
        floor: 1,
        edition: 1,
    }
}

// Letter counts, and no other list.
pub fn only_counts<'a>(counts: &'a [u8]) -> Lists<'a>
    ensures { lent (map (λ x. x.now) result) ≡ only_counts counts.now }
{
    [counts]
}

// No list at all. A list needs bytes to point at: none of these is lent.
pub fn no_lists<'a>(any: &'a [u8]) -> Lists<'a>
    ensures { lent (map (λ x. x.now) result) ≡ only_counts [] }
{
    only_counts(&any[..0])
}

// The length that a lent object buffer must have: the table's, where the questions pass that are put to all.
#[tactic(auto, using(crate::proofs::FamilyFacts::admits), unfolding(crate::specs::Calls::measured, crate::specs::Calls::unless_refused))]
pub fn object_length<'a>(f: Family, lists: Lists<'a>) -> Result<u64, Refusal>
    ensures { length_as result ≡ measured f (lent (map (λ x. x.now) lists.entry)) }
{
    let a = questions::asked_of_all(&f, &lists)?;
    Ok(table::object_length(a))
}

// The questions about the family alone, as they are put to a call.
pub fn opening<'a>(c: Call, f: Family, lists: Lists<'a>) -> Result<(), Refusal>
    ensures { verdict_as result ≡ first_no (opening_of (call_as c) f (lent (map (λ x. x.now) lists.entry))) }
{
    questions::opening(c, f, lists)
}

// Do the bytes hold an object of the family?
#[tactic(auto, using(crate::proofs::FamilyFacts::admits))]
pub fn is_object<'a>(f: Family, lists: Lists<'a>, object: &[u8]) -> bool
    ensures { result ≡ is_object f (lent (map (λ x. x.now) lists.entry)) object.now }
{
    match questions::asked_of_all(&f, &lists) {
        Ok(a) => kinds::is_object(a, object),
        Err(_) => false,
    }
}

// Questions 5 and 8 for a number, whatever the call.
#[tactic(auto, using(crate::proofs::FamilyFacts::admits), unfolding(listings::specs::Calls::first_no, crate::specs::Families::count_of, crate::specs::Questions::rank_refusal))]
pub fn rank_below<'a>(rank: u64, f: Family, lists: Lists<'a>) -> Result<(), Refusal>
    ensures { verdict_as result ≡ rank_refusal rank (count_of f (lent (map (λ x. x.now) lists.entry))) }
{
    let Ok(a) = questions::asked_of_all(&f, &lists) else {
        return Err(Refusal::Rank);
    };
    if !table::is_below_count(rank, a)? {
        return Err(Refusal::Rank);
    }
    Ok(())
}

// COUNT: how many objects the family has.
#[tactic(auto, using(crate::proofs::FamilyFacts::admits, crate::proofs::Passing::refused_at_once, crate::proofs::Responses::count_said, crate::proofs::Responses::count_refused))]
pub fn count<'a>(f: Family, lists: Lists<'a>) -> Result<u64, Refusal>
    ensures { ◌≡◌ {A = Said} (counted_as result, []) (respond COUNT f (lent (map (λ x. x.now) lists.entry)) []) }
{
    let a = questions::asked_of_all(&f, &lists)?;
    table::answer(a).ok_or(Refusal::TooMany)
}

// FIRST: writes the earliest object.
// A function a call, here and below: C and the documents name each, and each has its theorem.
#[tactic(auto, using(crate::proofs::Verdicts::admitted, crate::proofs::Passing::first_some, crate::proofs::Passing::first_long, crate::proofs::Passing::refused_at_once, crate::proofs::Responses::refused, crate::proofs::Responses::writes_first))]
pub fn first<'a>(f: Family, lists: Lists<'a>, object: &mut [u8]) -> Result<(), Refusal>
    ensures { ◌≡◌ {A = Said} (written_as result, object.new) (respond FIRST f (lent (map (λ x. x.now) lists.entry)) object.old) }
{
    let a = questions::asked_of_all(&f, &lists)?;
    questions::ask_others(Call::First, a, object)?;
    kinds::first(a, object);
    Ok(())
}

// LAST: writes the latest object.
#[tactic(auto, using(crate::proofs::Verdicts::admitted, crate::proofs::Passing::last_some, crate::proofs::Passing::last_long, crate::proofs::Passing::refused_at_once, crate::proofs::Responses::refused, crate::proofs::Responses::writes_last))]
pub fn last<'a>(f: Family, lists: Lists<'a>, object: &mut [u8]) -> Result<(), Refusal>
    ensures { ◌≡◌ {A = Said} (written_as result, object.new) (respond LAST f (lent (map (λ x. x.now) lists.entry)) object.old) }
{
    let a = questions::asked_of_all(&f, &lists)?;
    questions::ask_others(Call::Last, a, object)?;
    kinds::last(a, object);
    Ok(())
}

// NEXT: replaces the object by the one just after it, or answers END and changes nothing.
#[tactic(auto, using(crate::proofs::Passing::next_holds, crate::proofs::Passing::refused_at_once, crate::proofs::Responses::refused, crate::proofs::Responses::acts))]
pub fn next<'a>(f: Family, lists: Lists<'a>, object: &mut [u8]) -> Result<Step, Refusal>
    ensures { ◌≡◌ {A = Said} (stepped_as result, object.new) (respond NEXT f (lent (map (λ x. x.now) lists.entry)) object.old) }
{
    let a = questions::asked_of_all(&f, &lists)?;
    questions::ask_others(Call::Next, a, object)?;
    Ok(kinds::next(a, object))
}

// PREVIOUS: replaces the object by the one just before it, or answers END and changes nothing.
#[tactic(auto, using(crate::proofs::Passing::previous_holds, crate::proofs::Passing::refused_at_once, crate::proofs::Responses::refused, crate::proofs::Responses::acts))]
pub fn previous<'a>(f: Family, lists: Lists<'a>, object: &mut [u8]) -> Result<Step, Refusal>
    ensures { ◌≡◌ {A = Said} (stepped_as result, object.new) (respond PREVIOUS f (lent (map (λ x. x.now) lists.entry)) object.old) }
{
    let a = questions::asked_of_all(&f, &lists)?;
    questions::ask_others(Call::Previous, a, object)?;
    Ok(kinds::previous(a, object))
}

// RANK: how many objects come before this one.
#[tactic(auto, using(crate::proofs::Passing::rank_holds, crate::proofs::Passing::rank_fits, crate::proofs::Passing::rank_said, crate::proofs::Passing::refused_at_once, crate::proofs::Responses::refused))]
pub fn rank<'a>(f: Family, lists: Lists<'a>, object: &[u8]) -> Result<u64, Refusal>
    ensures { ◌≡◌ {A = Said} (ranked_as result, object.now) (respond RANK f (lent (map (λ x. x.now) lists.entry)) object.now) }
{
    let a = questions::asked_of_all(&f, &lists)?;
    questions::ask_others(Call::Rank, a, object)?;
    Ok(kinds::rank(a, object))
}

// UNRANK: writes the object of a rank.
#[tactic(auto, using(crate::proofs::Verdicts::admitted, crate::proofs::Passing::unrank_fits, crate::proofs::Passing::unrank_long, crate::proofs::Passing::unrank_below, crate::proofs::Passing::refused_at_once, crate::proofs::Responses::refused, crate::proofs::Responses::writes_ranked))]
pub fn unrank<'a>(rank: u64, f: Family, lists: Lists<'a>, object: &mut [u8]) -> Result<(), Refusal>
    ensures { ◌≡◌ {A = Said} (written_as result, object.new) (respond (UNRANK rank) f (lent (map (λ x. x.now) lists.entry)) object.old) }
{
    let a = questions::asked_of_all(&f, &lists)?;
    questions::ask_others(Call::Unrank(rank), a, object)?;
    kinds::unrank(rank, a, object);
    Ok(())
}
