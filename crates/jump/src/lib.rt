// Jump by a signed distance: the object d places on or back in the listing, or END. No public function has a `requires`: any family, lists,
// distance and bytes are answered, and nothing overflows, not for the smallest d and not for ranks up to 2^64 - 1.
#![tactic(auto)]

ghost use Rattle.std.specs.Prelude.{◌≡◌, true, map, ◌^◌, length, Ok, MatchResult};
ghost use Rattle.std.proofs.Math.Option.{none};
ghost use Rattle.listings.specs.Calls.{RANK, Said};
ghost use Rattle.families.specs.Table.{lent};
ghost use Rattle.families.specs.Families.{is_object, rank_of};
ghost use Rattle.families.specs.Questions.{refusal};
ghost use Rattle.families.specs.Codes.{code_of};
ghost use Rattle.jump.specs.Jumps.{target, jumped_as};
ghost use Rattle.jump.specs.Jumps.{jump as jump_of};
ghost use Rattle.jump.specs.Inner.Goals.{goal_as};

use families::{Family, Lists, Refusal};

// What a jump answers that isn't refused. No Step of the listings: a jump writes its object as UNRANK does, which has
// another code.
#[derive(Clone, Copy, Debug, PartialEq, Eq)]
pub enum Jumped {
    Written,
    End,
}

// The rank d places on or back from a rank, if it is one below 2^64.
fn aim(rank: u64, d: i64) -> Option<u64>
    ensures { goal_as result ≡ target rank (2 ^ 64) d }
{
    let distance = d.unsigned_abs();
    if d < 0 {
        rank.checked_sub(distance)
    } else {
        rank.checked_add(distance)
    }
}

// From an object whose rank RANK has told. UNRANK puts the one question that is left: is the new rank below the count?
#[tactic(auto, using(crate::proofs::Landing::off, crate::proofs::Landing::ended, crate::proofs::Landing::landed))]
fn jump_from<'a>(rank: u64, f: Family, lists: Lists<'a>, d: i64, object: &mut [u8]) -> Jumped
    requires object_value { refusal RANK f (lent (map (λ x. x.now) lists)) (length object.old) (is_object f (lent (map (λ x. x.now) lists)) object.old) ≡ none }
    requires object_value_2 { rank_of f (lent (map (λ x. x.now) lists)) object.old ≡ rank }
    ensures { ◌≡◌ {A = Said} (jumped_as (Ok result), object.new) (jump_of f (lent (map (λ x. x.now) lists.entry)) d object.old) }
{
    let Some(to) = aim(rank, d) else {
        return Jumped::End;
    };
    match families::unrank(to, f, lists, object) {
        Ok(()) => Jumped::Written,
        Err(_) => Jumped::End,
    }
}

// A jump: writes the object d places on or back, or answers END and changes nothing.
#[tactic(auto, using(crate::proofs::Landing::refused_so, families::proofs::Answered::rank_told))]
pub fn jump<'a>(f: Family, lists: Lists<'a>, d: i64, object: &mut [u8]) -> Result<Jumped, Refusal>
    ensures { ◌≡◌ {A = Said} (jumped_as result, object.new) (jump_of f (lent (map (λ x. x.now) lists.entry)) d object.old) }
{
    let rank = families::rank(f, lists, object)?;
    Ok(jump_from(rank, f, lists, d, object))
}

// The code of a jump's answer, as `families` codes those of its calls, and a refusal as there.
// A function and no From: neither the number nor the Result is a type of this crate.
#[tactic(auto, unfolding(families::specs::Codes::code_of))]
pub fn code<Q: Into<u8>>(j: Result<Jumped, Q>) -> u8
    ensures { MatchResult j (λ a. result ≡ code_of (jumped_as (Ok a))) (λ q. Q.converts q result) }
{
    match j {
        Ok(Jumped::Written) => 20,
        Ok(Jumped::End) => 100,
        Err(q) => q.into(),
    }
}
