// The fields of a line, and where the first line ends.
ghost use Rattle.std.specs.Prelude.{◌≡◌, ◌+◌, ◌*◌, ◌≤◌, length, take, drop, IfSome};
ghost use Rattle.columns.specs.Fields.{field_width, field as field_of};
ghost use Rattle.columns.specs.Inner.Writing.{value_as};
ghost use Rattle.grammar.specs.Grammar.{slip_of};
ghost use Rattle.grammar.specs.Inner.Reading.{opened_as};
ghost use Rattle.grammar.specs.Sizes.{line_width};

use crate::limits::{FAMILY_WIDTH, FIELD_WIDTH, HEAD_WIDTH};
use columns::fields::field;

// A first line that ends as a slip's may: the number that the first object gets, and where the rest begins.
#[derive(Clone, Copy)]
pub struct FirstLine {
    pub start: u8,
    pub end: usize,
}

// Field i of a line, counted from 0.
pub fn number_at(line: &[u8], i: usize) -> Option<u64>
    requires { field_width * (i + 1) ≤ length line.now }
    ensures { value_as result ≡ field_of (take field_width (drop (field_width * i) line.now)) }
{
    let at = FIELD_WIDTH * i;
    field(&line[at..at + FIELD_WIDTH])
}

// The first line, but for kind, n and k: it ends behind these three fields, and the first object gets 1, or behind a fourth, which says 0 or 1.
#[tactic(auto, using(crate::proofs::SlipLaws::first_line_cases), unfolding(columns::specs::Inner::Writing::value_as, crate::specs::Inner::Reading::opened_as))]
pub fn first_line(input: &[u8]) -> Option<FirstLine>
    ensures ends { IfSome result (λ l. (line_width 3 ≤ l.end) × (l.end ≤ length input.now)) }
    ensures input_value { slip_of input.now ≡ opened_as result input.now }
{
    if *input.get(FAMILY_WIDTH)? == b'\n' {
        return Some(FirstLine {
            start: 1,
            end: FAMILY_WIDTH + 1,
        });
    }
    if *input.get(HEAD_WIDTH)? != b'\n' {
        return None;
    }
    let start = number_at(input, 3)?;
    if 1 < start {
        return None;
    }
    Some(FirstLine {
        start: start as u8,
        end: HEAD_WIDTH + 1,
    })
}
