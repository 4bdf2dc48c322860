// Jumps the cases of the files that its arguments name. A case is a line, with one blank between any two words:
//
//     LABEL: KIND N K FLOOR EDITION / FROM TO / OBJECT / COUNTS
//
// For every distance from FROM to TO, signed numbers of 64 bits, it jumps from that object, with those counts lent. It prints a line a case:
// the label, and of each jump
//
//     DISTANCE: BYTES, back BYTES;      the object written, and what the opposite distance gives from there; the smallest has no opposite
//     DISTANCE: END BYTES;              the bytes left
//     DISTANCE: refused NUMBER BYTES;   the question missed, and the bytes left
//
// The cases and the expected text, `stdout`, that of the files in turn, are written by tests/expected/jumps.py, on the listings.
// `small_families`: kinds 1 to 6, from each object to each other and beyond both ends. `both_ends`: the smallest and the largest distance.
// `large_families`: up to 2^64 - 1 objects and the longest there are. `refusals`: each question missed, and others behind it. `floors`: kind 5
// with floors, and floors that are refused, on every kind. `editions`: the same of kind 4 and its editions. `derangements`: kind 7.
#![tactic(auto)]

use families::{Family, Lists};
use std::io;
use test_families::family;
use test_support::{Numbers, behind, bytes, cut, each_case, text};

// More bytes than any object or list of counts has.
const MOST: usize = 100;

// A distance d is read, counted up and printed as d + 2^63 (offset binary), which is unsigned: 0 stands for the smallest.
const MIDDLE: u64 = 1 << 63;

// `!m` is - (m + 1), which reaches the smallest and can't overflow.
fn distance(offset: u64) -> i64 {
    if offset < MIDDLE {
        return !((MIDDLE - 1 - offset) as i64);
    }
    (offset - MIDDLE) as i64
}

// The signed number that begins here, in offset binary.
fn signed(numbers: &mut Numbers) -> u64 {
    if numbers.skip_minus() {
        MIDDLE.wrapping_sub(numbers.number())
    } else {
        MIDDLE.wrapping_add(numbers.number())
    }
}

// How a jump's part of the line begins.
fn heading(rt: &impl Print, offset: u64) -> io::Result<()> {
    if offset < MIDDLE {
        print!(rt; " -{}:", MIDDLE - offset)
    } else {
        print!(rt; " {}:", offset - MIDDLE)
    }
}

// Jumps, and prints the answer by its code, where that isn't 20, written, and the bytes that are there then. Answers whether it was written.
// By the code, and not by the answer: so the codes are tested too.
fn jumped<'a>(
    rt: &impl Print,
    offset: u64,
    f: Family,
    lists: Lists<'a>,
    object: &mut [u8],
) -> io::Result<bool> {
    let code = jump::code(jump::jump(f, lists, distance(offset), object));
    match code {
        20 => {}
        100 => print!(rt; " END")?,
        _ => print!(rt; " refused {code}")?,
    }
    bytes(rt, object)?;
    Ok(code == 20)
}

// One jump, and back from where it was written.
fn there_and_back<'a>(
    rt: &impl Print,
    offset: u64,
    f: Family,
    lists: Lists<'a>,
    object: &mut [u8],
) -> io::Result<()> {
    heading(rt, offset)?;
    let written = jumped(rt, offset, f, lists, object)?;
    // The smallest distance has no opposite.
    if !written || offset == 0 {
        return Ok(());
    }
    print!(rt; ", back")?;
    jumped(rt, 0u64.wrapping_sub(offset), f, lists, object)?;
    Ok(())
}

// The same from the object that a section says.
fn one_jump<'a>(
    rt: &impl Print,
    offset: u64,
    f: Family,
    lists: Lists<'a>,
    section: &[u8],
) -> io::Result<()> {
    let mut object = [0u8; MOST];
    let places = Numbers::of(section).list(&mut object);
    there_and_back(rt, offset, f, lists, &mut object[..places])?;
    print!(rt; ";")
}

fn one_case(rt: &impl Print, line: &[u8]) -> io::Result<()> {
    let (label, marked) = cut(line, b':');
    text(rt, label)?;
    print!(rt; ":")?;
    let first = behind(marked, b':');
    let second = behind(first, b'/');
    let third = behind(second, b'/');
    let mut distances = Numbers::of(second);
    let from = signed(&mut distances);
    let to = signed(&mut distances);
    let mut counts = [0u8; MOST];
    let lent = Numbers::of(behind(third, b'/')).list(&mut counts);
    let f = family(first);
    let lists = families::only_counts(&counts[..lent]);
    // The last behind the loop: it is met even where it lies below the first.
    for offset in from..to {
        one_jump(rt, offset, f, lists, third)?;
    }
    one_jump(rt, to, f, lists, third)?;
    println!(rt;)
}

fn main(rt: HostRuntime) -> io::Result<()> {
    each_case(&rt, |line| one_case(&rt, line))
}
