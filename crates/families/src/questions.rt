// "Questions at the counter", asked in one place and in the order of the paper.
ghost use Rattle.std.specs.Prelude.{◌≡◌, IfOk, cond, map, [], ◌∷◌, ◌^◌, ltb, eqb, length};
ghost use Rattle.listings.specs.Calls.{first_no};
ghost use Rattle.families.specs.Table.{lent};
ghost use Rattle.families.specs.Families.{asked_of_all, object_length, is_object, count_of};
ghost use Rattle.families.specs.Questions.{asked, is_in, put, rank_given, closing_for, refusal};
ghost use Rattle.families.specs.Questions.{opening as opening_of};
ghost use Rattle.families.specs.Answers.{call_as, verdict_as};
ghost use Rattle.families.specs.Inner.Admissions.{lists_of, missed};

use crate::admitted::Admitted;
use crate::kind::Kind;
use crate::{Family, Lists, Refusal, kinds, table};

// A call, with the rank that UNRANK is handed.
#[derive(Clone, Copy)]
pub enum Call {
    Count,
    First,
    Last,
    Next,
    Previous,
    Rank,
    Unrank(u64),
}

// "All calls but COUNT": questions 4 and 6.
#[tactic(auto, unfolding(crate::specs::Questions::asked, crate::specs::Questions::is_in))]
fn has_buffer(c: Call) -> bool
    ensures { (result ≡ is_in 4 (asked (call_as c))) × (result ≡ is_in 6 (asked (call_as c))) }
{
    !matches!(c, Call::Count)
}

// "RANK, NEXT, PREVIOUS": question 7.
#[tactic(auto, unfolding(crate::specs::Questions::asked, crate::specs::Questions::is_in))]
fn reads_an_object(c: Call) -> bool
    ensures { result ≡ is_in 7 (asked (call_as c)) }
{
    matches!(c, Call::Next | Call::Previous | Call::Rank)
}

// The questions that are put to every call: the family and its lists.
#[tactic(auto, using(crate::proofs::FamilyFacts::admits, crate::proofs::Dispatch::named_kind), unfolding(crate::specs::Families::is_kind, crate::specs::Families::asked_of_all, listings::specs::Calls::first_no))]
pub fn asked_of_all<'a>(f: &'a Family, lists: &'a Lists<'a>) -> Result<Admitted<'a>, Refusal>
    ensures refused { missed result ≡ first_no (asked_of_all f.now (lent (map (λ x. x.now) lists.now))) }
    ensures same { IfOk result (λ a. (a.family.now ≡ f.now) × (a.lists.now ≡ lists.now)) }
{
    let kind = Kind::try_from(f.kind)?;
    if !table::in_table(kind, *f, *lists) {
        return Err(Refusal::Sizes);
    }
    if !table::floor_fits(kind, *f) {
        return Err(Refusal::Floor);
    }
    if !table::edition_fits(kind, *f) {
        return Err(Refusal::Edition);
    }
    if !table::lists_fit(kind, *f, *lists) {
        return Err(Refusal::Counts);
    }
    Ok(Admitted { family: f, lists })
}

// Question 4: has the family an object?
#[tactic(auto, using(crate::proofs::FamilyFacts::has_object_lem), unfolding(crate::specs::Questions::put))]
fn some_object<'a>(c: Call, a: Admitted<'a>) -> bool
    ensures { result ≡ (put (call_as c) 4 (ltb 0 (count_of a.entry.family.now (lists_of a.entry)))).yes? }
{
    !has_buffer(c) || table::has_object(a)
}

// The questions about the family alone: those put to all, and question 4.
#[tactic(auto, using(crate::proofs::QuestionLaws::after_pass, crate::proofs::QuestionLaws::after_no), unfolding(listings::specs::Calls::first_no, crate::specs::Questions::opening, crate::specs::Questions::put))]
pub fn opening<'a>(c: Call, f: Family, lists: Lists<'a>) -> Result<(), Refusal>
    ensures { verdict_as result ≡ first_no (opening_of (call_as c) f (lent (map (λ x. x.now) lists.entry))) }
{
    let a = asked_of_all(&f, &lists)?;
    if !some_object(c, a) {
        return Err(Refusal::NoObject);
    }
    Ok(())
}

// Question 8, unless question 5 refuses: a count that is worked out once answers both.
#[tactic(auto, unfolding(crate::specs::Questions::put, crate::specs::Questions::asked, crate::specs::Questions::is_in, crate::specs::Questions::rank_given))]
fn number_fits<'a>(c: Call, a: Admitted<'a>) -> Result<bool, Refusal>
    ensures { let count = count_of a.entry.family.now (lists_of a.entry) in result ≡ cond (put (call_as c) 5 (ltb count (2 ^ 64))).yes? (Ok (put (call_as c) 8 (ltb (rank_given (call_as c)) count)).yes?) (Err Refusal.TooMany) }
{
    match c {
        Call::Count | Call::Rank => {
            if !table::count_fits(a) {
                return Err(Refusal::TooMany);
            }
            Ok(true)
        }
        Call::Unrank(rank) => table::is_below_count(rank, a),
        Call::First | Call::Last | Call::Next | Call::Previous => Ok(true),
    }
}

// Question 6: has the buffer the length of the family's objects?
#[tactic(auto, unfolding(crate::specs::Questions::put))]
fn buffer_fits<'a>(c: Call, a: Admitted<'a>, object: &[u8]) -> bool
    ensures { result ≡ (put (call_as c) 6 (eqb (length object.now) (object_length a.entry.family.now (lists_of a.entry)))).yes? }
{
    !has_buffer(c) || object.len() as u64 == table::object_length(a)
}

// Question 7: does the buffer hold an object?
#[tactic(auto, unfolding(crate::specs::Questions::put))]
fn holds<'a>(c: Call, a: Admitted<'a>, object: &[u8]) -> bool
    ensures { result ≡ (put (call_as c) 7 (is_object a.entry.family.now (lists_of a.entry) object.now)).yes? }
{
    !reads_an_object(c) || kinds::is_object(a, object)
}

// The other questions of a call, of a family that is admitted: 4 to 8.
#[tactic(auto, using(crate::proofs::Verdicts::others), unfolding(listings::specs::Calls::first_no, crate::specs::Questions::closing_for, crate::specs::Questions::put))]
pub fn ask_others<'a>(c: Call, a: Admitted<'a>, object: &[u8]) -> Result<(), Refusal>
    ensures { verdict_as result ≡ refusal (call_as c) a.entry.family.now (lists_of a.entry) (length object.now) (is_object a.entry.family.now (lists_of a.entry) object.now) }
{
    if !some_object(c, a) {
        return Err(Refusal::NoObject);
    }
    let is_below = number_fits(c, a)?;
    if !buffer_fits(c, a, object) {
        return Err(Refusal::Length);
    }
    if !holds(c, a, object) {
        return Err(Refusal::NotAnObject);
    }
    if !is_below {
        return Err(Refusal::Rank);
    }
    Ok(())
}

// All questions of a call: the first that is answered by no.
#[tactic(auto, using(crate::proofs::Verdicts::refused_early))]
pub fn ask<'a>(c: Call, f: Family, lists: Lists<'a>, object: &[u8]) -> Result<(), Refusal>
    ensures { verdict_as result ≡ refusal (call_as c) f (lent (map (λ x. x.now) lists.entry)) (length object.now) (is_object f (lent (map (λ x. x.now) lists.entry)) object.now) }
{
    let a = asked_of_all(&f, &lists)?;
    ask_others(c, a, object)
}
