// The second line: the counts of kind 2, and nothing for other kinds.
ghost use Rattle.std.specs.Prelude.{◌≡◌, ◌*◌, ◌≤◌, min, length, option_map, option_copied, IfSome};
ghost use Rattle.columns.specs.Fields.{field_width};
ghost use Rattle.columns.specs.Inner.Writing.{value_as};
ghost use Rattle.grammar.specs.Grammar.{fields, counts_on, handed_on, second_line as counts_of};
ghost use Rattle.grammar.specs.Sizes.{most_counts};

use crate::Head;
use crate::limits::FIELD_WIDTH;
use crate::lines::number_at;

// A count as it is handed on.
// By `min`, since a larger count is not refused here but handed on as 255.
fn at_most_255(count: u64) -> u8
    ensures { result ≡ min count 255 }
{
    count.min(255) as u8
}

// The counts of a line of counts.len() fields, if every field is a number.
#[tactic(auto, using(crate::proofs::LineLaws::count_cases, std::proofs::lemmas::Grind::common_steps), unfolding(columns::specs::Inner::Writing::value_as))]
fn read_counts(line: &[u8], counts: &mut [u8]) -> Option<()>
    requires { field_width * length counts.old ≤ length line.now }
    ensures { handed_on (fields (length counts.old) line.now) ≡ value_as (option_map (λ _. counts.new) result) }
{
    for (i, count) in counts.iter_mut().enumerate() {
        *count = at_most_255(number_at(line, i)?);
    }
    Some(())
}

// How many counts the second line has.
// 0 for other kinds, as the definition says: a first line with n 0 has no second line either, so an Option would tell nothing more.
#[tactic(auto, unfolding(crate::specs::Grammar::counts_on))]
fn how_many(h: Head) -> usize
    ensures upper_bound { result ≤ h.n }
    ensures value { result ≡ counts_on h }
{
    if h.kind == 2 { h.n as usize } else { 0 }
}

// The counts of the second line, which stands behind the first: for kind 2, and none for other kinds.
#[tactic(auto, using(crate::proofs::LineLaws::line_cases, std::proofs::lemmas::Grind::common_steps), unfolding(columns::specs::Inner::Writing::value_as, crate::specs::Grammar::handed_on))]
pub fn second_line<'a>(rest: &[u8], h: Head, counts: &'a mut [u8]) -> Option<&'a [u8]>
    requires n_le_most_counts { h.n ≤ most_counts }
    requires most_counts_in_bounds { most_counts ≤ length counts.old }
    ensures at_most { IfSome result (λ s. length s.now ≤ most_counts) }
    ensures rest_value { handed_on (counts_of (counts_on h) rest.now) ≡ value_as (option_copied result) }
{
    let m = how_many(h);
    let counts = &mut counts[..m];
    match rest {
        [] if m == 0 => Some(counts),
        [line @ .., b'\n'] if m > 0 && line.len() == FIELD_WIDTH * m => {
            read_counts(line, counts)?;
            Some(counts)
        }
        _ => None,
    }
}
