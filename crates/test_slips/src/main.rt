// Renders many slips, the files that its arguments name: for each a line with the name, the length of the text and a digest of it, and the
// lines of the text where it is short, the name before each.
//
// The expected text, `stdout`, begins with what was printed for the same slips when numbers started at 0 (tests/expected/slips_from_0.txt).
// The rest is written by tests/expected/slips.py, which reads the same slips and has Python's formatting. Its listings of at most 100
// objects of 8 bytes are strings filtered by the table's words and sorted by a comparison; longer ones follow Loehr's recursion.
#![tactic(auto)]

ghost use Rattle.std.specs.Prelude.{◌≡◌, ◌≤◌, ◌+◌, length};
ghost use Rattle.grammar.specs.Sizes.{longest_slip};
ghost use Rattle.slip.specs.Sizes.{largest};

use grammar::LONGEST_SLIP;
use slip::LARGEST;
use std::rt::Files;
use std::{env, io};
use test_support::{digest, lines, read_file, text};

// One byte more than the longest slip, by which a longer input is seen.
const INPUT: usize = LONGEST_SLIP + 1;

// So much room, by the definition of the longest slip: no other contract speaks of it.
fn room_to_read() -> [u8; INPUT]
    ensures { longest_slip + 1 ≡ length result }
{
    [0u8; INPUT]
}

// Room for the longest text.
fn room_to_write() -> [u8; LARGEST]
    ensures { largest ≡ length result }
{
    [0u8; LARGEST]
}

// The text of one slip.
fn show(rt: &impl Print, name: &[u8], s: &[u8]) -> io::Result<()> {
    text(rt, name)?;
    println!(rt; ": bytes {}, digest {}", s.len(), digest(0, s))?;
    if s.len() < 600 {
        lines(rt, name, s)?;
    }
    Ok(())
}

// Reads the file and renders it.
fn one_slip<R: Files + Print>(rt: &R, name: &str, out: &mut [u8]) -> io::Result<()>
    requires { largest ≤ length out.old }
{
    let mut input = room_to_read();
    let read = read_file(rt, name.as_bytes(), &mut input)?;
    match slip::render(&input[..read], out) {
        Ok(end) => show(rt, name.as_bytes(), &out[..end]),
        Err(_) => println!(rt; "no room for the text"),
    }
}

fn main(rt: HostRuntime) -> io::Result<()> {
    let mut out = room_to_write();
    // The first argument is the program's name.
    for name in env::args(&rt)?.skip(1) {
        one_slip(&rt, &name, &mut out)?;
    }
    Ok(())
}
