// Walks through a listing, by steps or through the ranks.
use crate::Case;
use crate::calls::{Heard, answer, call_of, hear, is_put, name, rank_of};
use families::Refusal;
use std::io;
use test_support::{bytes, digest, mixed, text};

// More objects than any walk to the end meets here.
const TO_THE_END: u64 = 5000;

// What closes an object in a digest: no byte.
const CLOSED: u64 = 300;

// The letters of the calls by which a walk begins and goes on, and how many objects it meets at most.
// Letters stay letters: the files have them, and what is printed goes by them.
#[derive(Clone, Copy)]
struct Route {
    start: u8,
    step: u8,
    limit: u64,
}

// The digest with one object more.
pub fn with_object(sum: u64, object: &[u8]) -> u64 {
    mixed(digest(sum, object), CLOSED)
}

// How a walk's line begins.
fn heading(rt: &impl Print, label: &[u8], route: Route) -> io::Result<()> {
    text(rt, label)?;
    let start = name(call_of(route.start, 0));
    let step = name(call_of(route.step, 0));
    print!(rt; ", {start}, {step} ..:")
}

// Going on through a listing: the object, its rank, and the object of that rank, written over zeros.
fn listed<'a>(rt: &impl Print, case: Case<'a>, object: &mut [u8]) -> io::Result<()> {
    bytes(rt, object)?;
    let rank = rank_of(case, object);
    print!(rt; ", RANK {rank}, UNRANK")?;
    object.fill(0);
    let lists = families::only_counts(case.counts);
    let _ = families::unrank(rank, case.family, lists, object);
    bytes(rt, object)?;
    println!(rt;)
}

// The line of an object that a walk meets: in a listing, and through the ranks where the rank differs.
fn meet<'a>(
    rt: &impl Print,
    letter: u8,
    met: u64,
    case: Case<'a>,
    object: &mut [u8],
) -> io::Result<()> {
    match letter {
        b'a' => {
            heading(rt, case.label, route_of(letter))?;
            listed(rt, case, object)
        }
        b'z' => {
            heading(rt, case.label, route_of(letter))?;
            bytes(rt, object)?;
            println!(rt;)
        }
        b't' if rank_of(case, object) != met => {
            heading(rt, case.label, route_of(letter))?;
            println!(rt; " rank differs")
        }
        _ => Ok(()),
    }
}

fn route_of(letter: u8) -> Route {
    match letter {
        b'>' => Route {
            start: b'f',
            step: b'n',
            limit: 300,
        },
        b'<' => Route {
            start: b'l',
            step: b'p',
            limit: 300,
        },
        b't' => Route {
            start: b'u',
            step: b'u',
            limit: TO_THE_END,
        },
        b'b' | b'z' => Route {
            start: b'l',
            step: b'p',
            limit: TO_THE_END,
        },
        _ => Route {
            start: b'f',
            step: b'n',
            limit: TO_THE_END,
        },
    }
}

// Where a walk is no listing, its line.
fn ended(
    rt: &impl Print,
    label: &[u8],
    letter: u8,
    heard: Result<Heard, Refusal>,
    objects: u64,
    sum: u64,
) -> io::Result<()> {
    match letter {
        b'a' | b'z' => Ok(()),
        _ => {
            heading(rt, label, route_of(letter))?;
            answer(rt, heard)?;
            println!(rt; ", objects {objects}, digest {sum}")
        }
    }
}

pub fn walk<'a>(rt: &impl Print, letter: u8, case: Case<'a>, object: &mut [u8]) -> io::Result<()> {
    let route = route_of(letter);
    let mut sum = 0;
    let mut met = 0;
    let mut heard = hear(call_of(route.start, 0), case, object);
    // No `for`: how many were met when the walk ends is told.
    while met < route.limit && is_put(heard) {
        sum = with_object(sum, object);
        meet(rt, letter, met, case, object)?;
        met += 1;
        let next = hear(call_of(route.step, met), case, object);
        if route.limit == TO_THE_END {
            heard = next;
        }
    }
    ended(rt, case.label, letter, heard, met, sum)
}
