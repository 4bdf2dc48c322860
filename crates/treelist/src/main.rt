// `treelist`: reads one slip from standard input and prints the listing of its family. What it prints is made, and proved, in `slip`.
// Its exit status is always 0: a read or a write that fails is said on standard error, where nothing else is said.
#![tactic(auto)]

ghost use Rattle.std.specs.Prelude.{◌≡◌, ◌+◌, ◌≤◌, length, IfOk, OnErr};
ghost use Rattle.grammar.specs.Sizes.{longest_slip};
ghost use Rattle.slip.specs.Sizes.{largest};

use grammar::LONGEST_SLIP;
use slip::LARGEST;
use std::fmt::Display;
use std::io;
use std::io::Read;

// One byte more than the longest slip, by which a longer input is seen.
const INPUT: usize = LONGEST_SLIP + 1;

// So much room, by the definition of the longest slip: no other contract speaks of it.
fn room_to_read() -> [u8; INPUT]
    ensures { longest_slip + 1 ≡ length result }
{
    [0u8; INPUT]
}

// Room for the longest text.
fn room_to_write() -> [u8; LARGEST]
    ensures { largest ≡ length result }
{
    [0u8; LARGEST]
}

// Reads until the buffer is full or the input ends, and never past its end, which a terminal would ask for once more. Answers how many bytes
// of input stand at the start of the buffer.
// As in the tests' support, on which no program builds.
fn read_input(rt: &impl Input, buf: &mut [u8]) -> io::Result<usize>
    ensures ok { IfOk result (λ n. n ≤ length buf.new) }
    ensures err { OnErr result (length buf.new ≡ length buf.old) }
{
    let mut input = rt.reader();
    let mut done = 0;
    // No `for`: the place goes on by as much as a read gave, and a read may end all.
    while done < buf.len() {
        let more = input.read(&mut buf[done..])?;
        if more == 0 {
            return Ok(done);
        }
        done += more;
    }
    Ok(done)
}

// All was written; or a write took nothing, of which the system says no more.
// By hand, and no error: what is printed of a write that took nothing is "cut short".
#[derive(Clone, Copy)]
enum Output {
    Whole,
    Cut,
}

fn write_text(rt: &impl Print, text: &[u8]) -> io::Result<Output> {
    let mut done = 0;
    // No `for`, and no `write_all`: the place goes on by as much as a write took, and one that took nothing is told apart.
    while done < text.len() {
        let more = rt.write_some(&text[done..])?;
        if more == 0 {
            return Ok(Output::Cut);
        }
        done += more;
    }
    Ok(Output::Whole)
}

// Says on standard error what failed, and why. Where that can't be written either, nobody is left to be told.
fn fail(rt: &impl Eprint, what: &str, why: impl Display + Drop) {
    let _ = eprintln!(rt; "treelist: {what}: {why}");
}

// Prints the text, or says why not.
fn print(rt: &(impl Print + Eprint), text: &[u8]) {
    match write_text(rt, text) {
        Ok(Output::Whole) => {}
        Ok(Output::Cut) => fail(rt, "standard output", "cut short"),
        Err(e) => fail(rt, "standard output", e),
    }
}

fn main(rt: HostRuntime) {
    let mut input = room_to_read();
    let read = match read_input(&rt, &mut input) {
        Ok(read) => read,
        Err(e) => return fail(&rt, "standard input", e),
    };
    let mut out = room_to_write();
    // So much room serves every slip: the buffer is never short.
    if let Ok(end) = slip::render(&input[..read], &mut out) {
        print(&rt, &out[..end]);
    }
}
