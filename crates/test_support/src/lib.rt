// What the test programs share: files of cases, with their lines, sections, words and lists; printed numbers, objects and labelled lines; a
// digest of bytes. A line of cases is a label, a colon, and sections with strokes between them; one blank stands between any two words.
#![tactic(auto)]

ghost use Rattle.std.specs.Prelude.{◌≡◌, ◌≤◌, length, IfOk, OnErr, ◌+◌, ◌*◌, ◌%◌};
ghost use Rattle.io.specs.Counts.{IsPrefixLen};

mod cases;
mod sections;

pub use cases::{each_case, each_line};
pub use sections::{Numbers, behind, cut};
use std::rt::Files;
use std::{fs, io};

// No `print!` of a string: the bytes need be none.
pub fn text(rt: &impl Print, s: &[u8]) -> io::Result<()> {
    Print::write_all(rt, s)
}

// The bytes of an object, a blank before each.
pub fn bytes(rt: &impl Print, object: &[u8]) -> io::Result<()> {
    for b in object {
        print!(rt; " {b}")?;
    }
    Ok(())
}

fn line(rt: &impl Print, label: &[u8], s: &[u8]) -> io::Result<()> {
    text(rt, label)?;
    text(rt, b": ")?;
    text(rt, s)?;
    println!(rt;)
}

// The lines of a text, each with the label in front.
pub fn lines(rt: &impl Print, label: &[u8], s: &[u8]) -> io::Result<()> {
    for ended in s.split_inclusive(|letter| *letter == b'\n') {
        line(rt, label, without_newline(ended))?;
    }
    Ok(())
}

// A line without the newline that may end it.
pub fn without_newline(line: &[u8]) -> &[u8]
    ensures { length result.now ≤ length line.now }
{
    line.strip_suffix(b"\n").unwrap_or(line)
}

// The digest with one number more.
pub fn mixed(sum: u64, v: u64) -> u64
    ensures { result ≡ (sum % 1000003 * 257 + v % 1000003 + 1) % 1000003 }
{
    (sum % 1000003 * 257 + v % 1000003 + 1) % 1000003
}

// The digest with these bytes more.
pub fn digest(start: u64, s: &[u8]) -> u64 {
    s.iter().fold(start, |sum, b| mixed(sum, u64::from(*b)))
}

// Reads until the buffer is full or the input ends, and answers how many bytes.
fn read_full<R: io::Read>(input: &mut R, out: &mut [u8]) -> io::Result<usize>
    ensures ok { IfOk result (λ n. IsPrefixLen n out.new) }
    ensures err { OnErr result (length out.new ≡ length out.old) }
{
    let mut done = 0;
    // No `for`: the place goes on by as much as a read gave, and a read may end all.
    while done < out.len() {
        let more = input.read(&mut out[done..])?;
        if more == 0 {
            return Ok(done);
        }
        done += more;
    }
    Ok(done)
}

// Reads the file, as far as there is room, and answers how many bytes. A read that fails may have written some.
pub fn read_file<R: Files + Print>(rt: &R, name: &[u8], out: &mut [u8]) -> io::Result<usize>
    ensures ok { IfOk result (λ n. IsPrefixLen n out.new) }
    ensures err { OnErr result (length out.new ≡ length out.old) }
{
    let Ok(path) = str::from_utf8(name) else {
        line(rt, name, b"no such file")?;
        return Ok(0);
    };
    let Ok(mut file) = fs::open(rt, path) else {
        line(rt, name, b"no such file")?;
        return Ok(0);
    };
    read_full(&mut file, out)
}

// Reads standard input, as far as there is room, and answers how many bytes. A read that fails may have written some.
pub fn read_input(rt: &impl Input, out: &mut [u8]) -> io::Result<usize>
    ensures ok { IfOk result (λ n. IsPrefixLen n out.new) }
    ensures err { OnErr result (length out.new ≡ length out.old) }
{
    read_full(&mut rt.reader(), out)
}

// The first bytes of the room, as many as a case says, as far as there are so many.
pub fn within(length: u64, room: &[u8]) -> usize
    ensures { IsPrefixLen result room.now }
{
    length.min(room.len() as u64) as usize
}
