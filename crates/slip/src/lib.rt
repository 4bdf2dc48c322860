// The program's text, proved: a slip read, and the listing of its family written, numbered as the slip says.
#![tactic(auto)]

ghost use Rattle.std.specs.Prelude.{◌≡◌, ◌+◌, ◌≤◌, length};
ghost use Rattle.columns.specs.Inner.Writing.{Wrote};
ghost use Rattle.slip.specs.Sizes.{largest};
ghost use Rattle.slip.specs.Text.{output};
ghost use Rattle.slip.specs.Rendering.{Renders};
ghost use Rattle.grammar.specs.Sizes.{most_counts};

mod limits;
mod listing;

use columns::Text;
use families::{only_counts, plain_family};
use grammar::MOST_COUNTS;
pub use limits::LARGEST;

// The buffer is shorter than the longest text, and left as it was.
#[derive(Clone, Copy, Debug, PartialEq, Eq)]
pub struct Short;

// Room for the counts of a slip.
fn no_counts() -> [u8; MOST_COUNTS]
    ensures { most_counts ≡ length result }
{
    [0u8; MOST_COUNTS]
}

// Everything that the program prints for an input.
fn put_output(text: &mut Text, input: &[u8])
    requires { text.old.len + largest ≤ length text.old.buffer.now }
    ensures { Wrote text.old text.new (output input.now) }
{
    let mut counts = no_counts();
    let Some(slip) = grammar::parse(input, &mut counts) else {
        listing::put_refused(text, 9);
        return;
    };
    let f = plain_family(slip.head.kind, slip.head.n, slip.head.k);
    listing::put_text(text, slip.head.start, f, only_counts(slip.counts));
}

// Writes everything that the program prints for an input, to the start of the buffer, and answers how many bytes.
#[tactic(auto, using(crate::proofs::Sizes::rendered))]
pub fn render(input: &[u8], out: &mut [u8]) -> Result<usize, Short>
    ensures { Renders input.now out.old out.new result }
{
    if out.len() < LARGEST {
        return Err(Short);
    }
    let mut text = Text::new(out);
    put_output(&mut text, input);
    Ok(text.len)
}
