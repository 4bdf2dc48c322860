// Runs the cases of the files that its arguments name. A case is a line, with one blank between any two words:
//
//     LABEL: LETTERS RANK / KIND N K FLOOR EDITION / OBJECT / COUNTS
//
// Numbers missing at the end of a section are 0, and sections missing at the end of the line are empty. For each letter it prints a line with
// the label and what the letter asks of that family with those counts, that rank and that object:
//
//     c r          COUNT, RANK: the number
//     f l n p u    FIRST, LAST, NEXT, PREVIOUS, UNRANK: the answer, and a digest of the object
//     F L N P U    the same: the object, or END
//     w b t        a walk to the end, by FIRST and NEXT, by LAST and PREVIOUS, or through the ranks by UNRANK, with RANK of each object:
//                  the last answer, the number of objects met, and a digest of them
//     > <          300 steps by FIRST and NEXT, or by LAST and PREVIOUS, whatever they answer: the same, with the first answer
//     a z          a listing, a line an object: by FIRST and NEXT with each object's rank and the object of that rank, or by LAST and PREVIOUS
//
// The cases and the expected text, `stdout`, that of the files in turn, are written by tests/expected/calls.py. `small_families` and
// `listings`: strings filtered by the table's words and sorted by a comparison written from "Which of two objects comes first". `refusals`
// and `large_families` (at both edges of 2^64 and at 80 places): objects by rank, counted place by place as Loehr does, a step being the
// rank one up or down; so there the order rests on the same recursion as our listings. `floors`: kind 5 with floors, small ones the first way,
// large ones the second, and floors that are refused, on every kind. `editions`: the same of kind 4 in both editions, every family of up to 8
// models the first way. `derangements`: kind 7, families of up to 7 models the first way, and 80 models far from both ends and back.
//
// `published` has the worked examples of the sources that concern these orders, beyond the twelve proof cases, with the number of each
// example, typed from the sources: Loehr's chapter (000) 5.20 to 5.41, Loehr 2019 (004) 3.1, 3.3 and 3.4, and Wilf (001) 4 (2), whose order is
// edition 2 and whose numbers are worked out by its rule. So are the answers to exercise 5.96 of 000, which prints none, by the rule of 004 3.4.
// Letters a, b, .. are written 1, 2, ..; N is 1 and E is 0. In 5.38 the source prints bdcacbc and then works with the tails accb and ccb, that is
// with bdcaccb. A list is FIRST, and NEXT of each object that the source lists.
#![tactic(auto)]

mod calls;
mod walks;

use basics::LONGEST_OBJECT;
use calls::{Heard, answer, call_of, hear, is_put, name};
use families::{Call, Family, Refusal};
use std::io;
use test_families::family;
use test_support::{Numbers, behind, bytes, cut, each_case, text};
use walks::{walk, with_object};

// A case's label, its family, and the counts lent beside it.
#[derive(Clone, Copy)]
struct Case<'a> {
    label: &'a [u8],
    family: Family,
    counts: &'a [u8],
}

// How a call's line begins.
fn heading(rt: &impl Print, label: &[u8], call: Call) -> io::Result<()> {
    text(rt, label)?;
    print!(rt; ", {}", name(call))?;
    if let Call::Unrank(rank) = call {
        print!(rt; " {rank}")?;
    }
    print!(rt; ":")
}

// How it ends: of COUNT and RANK by the number, of the others by the answer and a digest of the object, or by the object.
fn report(
    rt: &impl Print,
    letter: u8,
    heard: Result<Heard, Refusal>,
    object: &[u8],
) -> io::Result<()> {
    match letter {
        b'c' | b'r' => {
            answer(rt, heard)?;
            println!(rt;)
        }
        b'A'..=b'Z' => {
            shown(rt, heard, object)?;
            println!(rt;)
        }
        _ => {
            answer(rt, heard)?;
            println!(rt; ", digest {}", with_object(0, object))
        }
    }
}

fn shown(rt: &impl Print, heard: Result<Heard, Refusal>, object: &[u8]) -> io::Result<()> {
    if is_put(heard) {
        return bytes(rt, object);
    }
    answer(rt, heard)
}

fn operation<'a>(
    rt: &impl Print,
    letter: u8,
    rank: u64,
    case: Case<'a>,
    object: &mut [u8],
) -> io::Result<()> {
    match letter {
        b'w' | b'b' | b't' | b'>' | b'<' | b'a' | b'z' => walk(rt, letter, case, object),
        _ => {
            let call = call_of(letter, rank);
            heading(rt, case.label, call)?;
            let heard = hear(call, case, object);
            report(rt, letter, heard, object)
        }
    }
}

// A case: its letters, up to the first blank, are asked in turn of the object, which is read once.
fn one_case(rt: &impl Print, line: &[u8]) -> io::Result<()> {
    let (label, marked) = cut(line, b':');
    let asked = behind(marked, b':');
    let (letters, _) = cut(asked, b' ');
    // The word of letters is passed as a number is.
    let mut words = Numbers::of(asked);
    words.number();
    let rank = words.number();
    let section = behind(asked, b'/');
    let lent = behind(section, b'/');
    let mut object = [0u8; LONGEST_OBJECT];
    let places = Numbers::of(lent).list(&mut object);
    let mut counts = [0u8; LONGEST_OBJECT];
    let letters_lent = Numbers::of(behind(lent, b'/')).list(&mut counts);
    let case = Case {
        label,
        family: family(section),
        counts: &counts[..letters_lent],
    };
    for letter in letters {
        operation(rt, *letter, rank, case, &mut object[..places])?;
    }
    Ok(())
}

fn main(rt: HostRuntime) -> io::Result<()> {
    each_case(&rt, |line| one_case(&rt, line))
}
