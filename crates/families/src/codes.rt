// The codes of answers: one table for the records of a replay and for callers in other languages.
ghost use Rattle.std.specs.Prelude.{◌≡◌, MatchResult};
ghost use Rattle.listings.specs.Calls.{WRITTEN};
ghost use Rattle.listings.specs.Steps.{step_as};
ghost use Rattle.families.specs.Codes.{code_of};

use listings::Step;

// The code of an answer of FIRST, LAST and UNRANK. A refusal is any that is told by a byte, or the byte itself.
// A function and no From: neither the number nor the Result is a type of this crate.
#[tactic(auto, unfolding(crate::specs::Codes::code_of))]
pub fn written<Q: Into<u8>>(w: Result<(), Q>) -> u8
    ensures { MatchResult w (λ _. result ≡ code_of WRITTEN) (λ q. Q.converts q result) }
{
    match w {
        Ok(()) => 20,
        Err(q) => q.into(),
    }
}

// The code of an answer of NEXT and PREVIOUS.
#[tactic(auto, unfolding(crate::specs::Codes::code_of))]
pub fn stepped<Q: Into<u8>>(s: Result<Step, Q>) -> u8
    ensures { MatchResult s (λ a. result ≡ code_of (step_as a)) (λ q. Q.converts q result) }
{
    match s {
        Ok(Step::Moved) => 21,
        Ok(Step::End) => 100,
        Err(q) => q.into(),
    }
}
