// The slip's grammar, proved: the numbers of the first line, and for kind 2 the counts of the second.
#![tactic(auto)]

ghost use Rattle.std.specs.Prelude.{◌≡◌, ◌≤◌, length, IfSome};
ghost use Rattle.grammar.specs.Grammar.{slip_of};
ghost use Rattle.grammar.specs.Inner.Reading.{parsed_as};
ghost use Rattle.grammar.specs.Sizes.{most_counts};

mod counts;
mod limits;
mod lines;

pub use limits::{FAMILY_WIDTH, LONGEST_SLIP, MOST_COUNTS};
use lines::number_at;

// The numbers of a slip's first line; start is the number that the first object gets, 0 or 1. The kind stays a number: a well-formed slip may name one that no family has.
#[derive(Clone, Copy)]
pub struct Head {
    pub kind: u64,
    pub n: u64,
    pub k: u64,
    pub start: u8,
}

// A well-formed slip: its numbers, and its counts in the buffer that was lent for them.
#[derive(Clone, Copy)]
pub struct Slip<'a> {
    pub head: Head,
    pub counts: &'a [u8],
}

// Reads a slip, with its counts into a buffer that has room for the longest second line; nothing where it is malformed.
#[tactic(auto, using(crate::proofs::SlipLaws::slip_cases), unfolding(columns::specs::Inner::Writing::value_as, crate::specs::Inner::Reading::opened_as, crate::specs::Inner::Reading::parsed_as))]
pub fn parse<'a>(input: &[u8], counts: &'a mut [u8]) -> Option<Slip<'a>>
    requires { most_counts ≤ length counts.old }
    ensures at_most { IfSome result (λ s. length s.counts.now ≤ most_counts) }
    ensures input_value { slip_of input.now ≡ parsed_as result }
{
    let line = lines::first_line(input)?;
    let head = Head {
        kind: number_at(input, 0)?,
        n: number_at(input, 1)?,
        k: number_at(input, 2)?,
        start: line.start,
    };
    let counts = counts::second_line(&input[line.end..], head, counts)?;
    Some(Slip { head, counts })
}
