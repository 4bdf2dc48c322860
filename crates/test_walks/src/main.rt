// Walks the cases of the files that its arguments name. A case is a line, with one blank between any two words:
//
//     LABEL: KIND N K FLOOR EDITION / LEN NUMBER / BYTES; COUNTS / ROOM STEPS; COUNTS / ROOM STEPS ..
//
// A walk is made up of that length, that number and those bytes, with 0 behind them in its array; or it starts at the bytes, with the counts
// that stand first, where LEN and NUMBER are missing. Then come its legs: the counts handed in, room for so many answers, and the steps, 1
// for one on and 0 for one back. It prints a line a case: the label; RANK's answer at a start; of each leg
//
//     of each step  the code of its answer, the number kept, and RANK's answer of the bytes kept, as far as the array goes, with the counts
//                   that stand first
//     digest        of the whole walk, to the end of its array
//     run           the codes of the answers where the leg is gone again at once, 255 where none is written, and that walk's digest
//
// and at the end the length, the number and the bytes kept, where the array has so many.
//
// The cases and the expected text, `stdout`, that of the files in turn, are written by tests/expected/walks.py, on the listings.
// `small_families`: kinds 1 to 6, from each object to END and beyond, there and back, zigzag, in no order. `made_up`: numbers and lengths that
// no start gives. `refusals`: bytes that no start gives, each question missed, and others behind it. `lists_change`: other counts between the
// steps.
// `large_families`: at both edges of 2^64 and at 80 places. `floors`: kind 5 with floors, and floors that are refused, on every kind.
// `editions`: the same of kind 4 and its editions. `derangements`: kind 7.
#![tactic(auto)]

ghost use Rattle.std.specs.Prelude.{◌≤◌, length};

use basics::LONGEST_OBJECT;
use families::{Lists, Refusal, codes};
use std::io;
use test_families::family;
use test_support::{Numbers, behind, bytes, cut, digest, each_case, mixed, text, within};
use walk::{Stride, Walk};

// The most bytes at a start, more than any object has; the most steps of a leg, and the most room for answers.
const MOST: usize = 100;

// What the room for answers holds before the steps.
const UNWRITTEN: u8 = 255;

fn ranked(rt: &impl Print, answer: Result<u64, Refusal>) -> io::Result<()> {
    match answer {
        Ok(rank) => print!(rt; " {rank}"),
        Err(refusal) => print!(rt; " refused {}", u8::from(refusal)),
    }
}

// A digest of all that a walk keeps.
fn summed(rt: &impl Print, walk: Walk) -> io::Result<()> {
    let f = walk.family;
    let array = walk.bytes;
    let family = mixed(
        mixed(mixed(mixed(mixed(0, f.kind), f.n), f.k), f.floor),
        f.edition,
    );
    let sum = digest(mixed(mixed(family, walk.len), walk.number), &array);
    print!(rt; " digest {sum}")
}

// What a walk keeps, the bytes where its array has so many.
fn kept(rt: &impl Print, walk: Walk) -> io::Result<()> {
    let array = walk.bytes;
    let len = within(walk.len, &array);
    print!(rt; "; length {}, number {}", walk.len, walk.number)?;
    if walk.len == len as u64 {
        print!(rt; ", bytes")?;
        bytes(rt, &array[..len])?;
    }
    Ok(())
}

// A step one way.
// Truth values, as `run` takes them; next and previous are called, so that both are tested.
fn stepped<'a>(walk: Walk, lists: Lists<'a>, on: bool) -> Stride {
    if on {
        walk.next(lists)
    } else {
        walk.previous(lists)
    }
}

// One step, and what is printed of it.
fn one_step<'a, 'b>(
    rt: &impl Print,
    walk: Walk,
    first: Lists<'a>,
    lists: Lists<'b>,
    on: bool,
) -> io::Result<Walk> {
    let stride = stepped(walk, lists, on);
    let answer = stride.answer;
    let after = stride.walk;
    let array = after.bytes;
    let len = within(after.len, &array);
    print!(rt; " {} {}", codes::stepped(answer), after.number)?;
    ranked(rt, families::rank(after.family, first, &array[..len]))?;
    print!(rt; ",")?;
    Ok(after)
}

// The steps one by one.
fn steps<'a, 'b>(
    rt: &impl Print,
    begun: Walk,
    first: Lists<'a>,
    lists: Lists<'b>,
    on: &[bool],
) -> io::Result<Walk> {
    let mut walk = begun;
    for way in on {
        walk = one_step(rt, walk, first, lists, *way)?;
    }
    Ok(walk)
}

// The steps one by one, and again at once.
fn gone<'a, 'b>(
    rt: &impl Print,
    walk: Walk,
    first: Lists<'a>,
    lists: Lists<'b>,
    on: &[bool],
    answers: &mut [u8],
) -> io::Result<Walk> {
    print!(rt; ";")?;
    let after = steps(rt, walk, first, lists, on)?;
    summed(rt, after)?;
    let left = walk.run(lists, on, answers);
    print!(rt; ", run")?;
    bytes(rt, answers)?;
    print!(rt; ",")?;
    summed(rt, left)?;
    Ok(after)
}

fn one_leg<'a>(rt: &impl Print, walk: Walk, first: Lists<'a>, leg: &[u8]) -> io::Result<Walk> {
    let mut counts = [0u8; LONGEST_OBJECT];
    let lent = Numbers::of(leg).list(&mut counts);
    let lists = families::only_counts(&counts[..lent]);
    let said = behind(leg, b'/');
    let mut steps = Numbers::of(said);
    let mut answers = [UNWRITTEN; MOST];
    let room = within(steps.number(), &answers);
    let mut on = [false; MOST];
    let before = steps.fill(&mut on, |step| step == 1);
    // A stroke among the steps ends no leg: from there on each is one back, as far as there is room.
    let (_, stroke) = cut(said, b'/');
    let many = if stroke.is_empty() { before } else { MOST };
    gone(rt, walk, first, lists, &on[..many], &mut answers[..room])
}

// Every leg, the next one behind a semicolon and one letter more, whatever that is.
fn legs<'a>(rt: &impl Print, begun: Walk, first: Lists<'a>, line: &[u8]) -> io::Result<Walk> {
    let mut walk = begun;
    let mut rest = line;
    // No `for`: the letter that is passed over may be a semicolon, too.
    while !rest.is_empty() {
        let (leg, _) = cut(rest, b';');
        walk = one_leg(rt, walk, first, leg)?;
        rest = behind(rest, b';');
    }
    Ok(walk)
}

// The walk that the head of a line says.
fn begun<'a>(rt: &impl Print, head: &[u8], first: Lists<'a>) -> io::Result<Walk> {
    let f = family(head);
    let second = behind(head, b'/');
    let third = behind(second, b'/');
    let mut said = [0u64; 2];
    if Numbers::of(second).wide_list(&mut said) == 2 {
        let mut array = [0u8; LONGEST_OBJECT];
        Numbers::of(third).list(&mut array);
        print!(rt; " made up")?;
        return Ok(Walk {
            family: f,
            bytes: array,
            len: said[0],
            number: said[1],
        });
    }
    let mut object = [0u8; MOST];
    let places = Numbers::of(third).list(&mut object);
    let started = Walk::start(f, first, &object[..places]);
    let answer = started.answer;
    print!(rt; " RANK")?;
    ranked(rt, answer)?;
    Ok(started.walk)
}

fn one_case(rt: &impl Print, line: &[u8]) -> io::Result<()> {
    let (label, marked) = cut(line, b':');
    let (head, legs_marked) = cut(marked, b';');
    let line_legs = behind(legs_marked, b';');
    let mut counts = [0u8; LONGEST_OBJECT];
    let lent = Numbers::of(line_legs).list(&mut counts);
    let first = families::only_counts(&counts[..lent]);
    text(rt, label)?;
    print!(rt; ":")?;
    let walk = begun(rt, behind(head, b':'), first)?;
    kept(rt, legs(rt, walk, first, line_legs)?)?;
    println!(rt;)
}

fn main(rt: HostRuntime) -> io::Result<()> {
    each_case(&rt, |line| one_case(&rt, line))
}
