// Replays the cases of the files that its arguments name. A case is a line, with one blank between any two words:
//
//     LABEL: CALLS / RANKS / KIND N K FLOOR EDITION / OBJECT / COUNTS / ANSWERS TRAIL
//
// Calls are written by their codes, a rank stands beside each, and last come the lengths of the two buffers that are only written. It prints
// a line a case: the label, whether the calls ran, the codes of the answers, the bytes after the calls, one call's behind the other's, and
// the bytes at the end. Before the calls answers and trail hold 255 at every place.
//
// The cases and the expected text, `stdout`, that of the files in turn, are written by tests/expected/replays.py, with a marker on the
// listing that is fed no answer. `small_families`: kinds 1 to 6, to END and beyond, there and back, through the ranks, from bytes that are no
// object, and calls in no order. `refusals`: lists of calls in which each question is missed. `large_families`: at both edges of 2^64 and at
// 80 places. `misfits`: codes that are no call's, and buffers of another length. `floors`: kind 5 with floors, and floors that are refused, on
// every kind. `editions`: the same of kind 4 and its editions. `derangements`: kind 7.
#![tactic(auto)]

use basics::LONGEST_OBJECT;
use families::Family;
use std::io;
use test_families::family;
use test_support::{Numbers, behind, bytes, cut, each_case, text, within};

// The most calls of a case.
const MOST: usize = 100;

// The most bytes after the calls.
const LONGEST_TRAIL: usize = 4096;

// What a buffer holds before the calls.
const UNWRITTEN: u8 = 255;

// A case's label, its calls with a rank beside each, its family and the counts lent beside it.
#[derive(Clone, Copy)]
struct Case<'a> {
    label: &'a [u8],
    calls: &'a [u8],
    ranks: &'a [u64],
    family: Family,
    counts: &'a [u8],
}

// Replays, and prints what is left in the buffers.
fn show<'a>(
    rt: &impl Print,
    case: Case<'a>,
    object: &mut [u8],
    answers: &mut [u8],
    trail: &mut [u8],
) -> io::Result<()> {
    text(rt, case.label)?;
    let replayed = replay::replay(
        case.calls,
        case.ranks,
        case.family,
        families::only_counts(case.counts),
        object,
        answers,
        trail,
    );
    match replayed {
        Ok(()) => print!(rt; ": ran")?,
        Err(_) => print!(rt; ": misfit")?,
    }
    print!(rt; ", answers")?;
    bytes(rt, answers)?;
    print!(rt; ", trail")?;
    bytes(rt, trail)?;
    print!(rt; ", object")?;
    bytes(rt, object)?;
    println!(rt;)
}

// The buffers of the record are as long as the last section says.
fn record<'a>(rt: &impl Print, case: Case<'a>, object: &mut [u8], last: &[u8]) -> io::Result<()> {
    let mut lengths = Numbers::of(last);
    let mut answers = [UNWRITTEN; MOST];
    let answered = within(lengths.number(), &answers);
    let mut trail = [UNWRITTEN; LONGEST_TRAIL];
    let kept = within(lengths.number(), &trail);
    show(
        rt,
        case,
        object,
        &mut answers[..answered],
        &mut trail[..kept],
    )
}

fn one_case(rt: &impl Print, line: &[u8]) -> io::Result<()> {
    let (label, marked) = cut(line, b':');
    let first = behind(marked, b':');
    let second = behind(first, b'/');
    let third = behind(second, b'/');
    let fourth = behind(third, b'/');
    let fifth = behind(fourth, b'/');
    let mut calls = [0u8; MOST];
    let called = Numbers::of(first).list(&mut calls);
    let mut ranks = [0u64; MOST];
    let ranked = Numbers::of(second).wide_list(&mut ranks);
    let mut object = [0u8; LONGEST_OBJECT];
    let places = Numbers::of(fourth).list(&mut object);
    let mut counts = [0u8; LONGEST_OBJECT];
    let lent = Numbers::of(fifth).list(&mut counts);
    let case = Case {
        label,
        calls: &calls[..called],
        ranks: &ranks[..ranked],
        family: family(third),
        counts: &counts[..lent],
    };
    record(rt, case, &mut object[..places], behind(fifth, b'/'))
}

fn main(rt: HostRuntime) -> io::Result<()> {
    each_case(&rt, |line| one_case(&rt, line))
}
