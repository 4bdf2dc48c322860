// The calls by their letters, their answers, and how both are printed.
use crate::Case;
use families::{Call, Refusal};
use listings::Step;
use std::io;

// What a call hears that isn't refused.
#[derive(Clone, Copy)]
pub enum Heard {
    Number(u64),
    Written,
    Stepped,
    End,
}

impl From<Step> for Heard {
    fn from(step: Step) -> Heard {
        match step {
            Step::Moved => Heard::Stepped,
            Step::End => Heard::End,
        }
    }
}

// The call that a letter asks for; only UNRANK reads the rank.
// By the letter: the files have it, and its case says how the answer is printed.
pub fn call_of(letter: u8, rank: u64) -> Call {
    match letter {
        b'c' => Call::Count,
        b'r' => Call::Rank,
        b'f' | b'F' => Call::First,
        b'l' | b'L' => Call::Last,
        b'u' | b'U' => Call::Unrank(rank),
        b'n' | b'N' => Call::Next,
        _ => Call::Previous,
    }
}

pub fn hear<'a>(call: Call, case: Case<'a>, object: &mut [u8]) -> Result<Heard, Refusal> {
    let f = case.family;
    let lists = families::only_counts(case.counts);
    match call {
        Call::Count => families::count(f, lists).map(Heard::Number),
        Call::Rank => families::rank(f, lists, object).map(Heard::Number),
        Call::First => families::first(f, lists, object).map(|_| Heard::Written),
        Call::Last => families::last(f, lists, object).map(|_| Heard::Written),
        Call::Unrank(rank) => families::unrank(rank, f, lists, object).map(|_| Heard::Written),
        Call::Next => families::next(f, lists, object).map(Heard::from),
        Call::Previous => families::previous(f, lists, object).map(Heard::from),
    }
}

// Whether the bytes are now an object that the call put there.
pub fn is_put(heard: Result<Heard, Refusal>) -> bool {
    matches!(heard, Ok(Heard::Written) | Ok(Heard::Stepped))
}

pub fn answer(rt: &impl Print, heard: Result<Heard, Refusal>) -> io::Result<()> {
    match heard {
        Ok(Heard::Number(v)) => print!(rt; " {v}"),
        Ok(Heard::Written) => print!(rt; " written"),
        Ok(Heard::Stepped) => print!(rt; " stepped"),
        Ok(Heard::End) => print!(rt; " END"),
        Err(refusal) => print!(rt; " refused {}", u8::from(refusal)),
    }
}

// The call's name.
pub fn name(call: Call) -> &'static str {
    match call {
        Call::Count => "COUNT",
        Call::Rank => "RANK",
        Call::First => "FIRST",
        Call::Last => "LAST",
        Call::Unrank(_) => "UNRANK",
        Call::Next => "NEXT",
        Call::Previous => "PREVIOUS",
    }
}

// RANK's number, or the largest: no rank is as large, since a rank is below a count that fits.
pub fn rank_of<'a>(case: Case<'a>, object: &[u8]) -> u64 {
    families::rank(case.family, families::only_counts(case.counts), object).unwrap_or(u64::MAX)
}
