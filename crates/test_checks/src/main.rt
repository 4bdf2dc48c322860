// Checks the lists of the files that its arguments name. A case is a line, with one blank between any two words:
//
//     LABEL: KIND N K FLOOR EDITION / COUNTS / BYTES / ENTRIES FROM TO MIDDLE / ENTRIES FROM TO MIDDLE ..
//
// Each section behind BYTES is a list that is handed in: so many entries; and for bytes those before the place FROM of BYTES, then MIDDLE,
// then those of BYTES from the place TO on. So a line has a listing and many lists that differ little from it. It prints a line a case: the
// label, and of each list
//
//     accepted;         the family's listing
//     wrong PLACE;      another list, and a wrong place
//     refused NUMBER;   the question missed
//
// The cases and the expected text, `stdout`, that of the files in turn, are written by tests/expected/checks.py, on the listings.
// `changed_bytes`, `changed_entries`, `exchanged_entries`: small families of every kind, with each byte changed, with entries dropped,
// doubled, appended and exchanged. `empty_objects`: families whose object is the empty string. `byte_lengths`: numbers of entries that the
// bytes don't have, some of which they have where bits are lost. `large_families`: listings of up to 300 objects or 80 places.
// `below_64_bits`, `beyond_64_bits`: the first entries of listings that no list is long enough for. `other_orders`: the right objects in
// another order, and listings of other families. `editions`: the same of kind 4 and its editions. `derangements`: kind 7. `refusals`: each
// question missed, and others behind it; question 5, which isn't put.
#![tactic(auto)]

ghost use Rattle.std.specs.Prelude.{◌≤◌, length};
ghost use Rattle.io.specs.Counts.{IsPrefixLen};

use checker::CheckError;
use families::{Family, Lists};
use std::io;
use test_families::family;
use test_support::{Numbers, behind, cut, each_case, text, within};

// The most bytes of a list.
const ROOM: usize = 65536;

// The most bytes in the middle of a list.
const MIDDLE: usize = 4096;

// More counts than any family has.
const MOST: usize = 100;

fn told(rt: &impl Print, answer: Result<(), CheckError>) -> io::Result<()> {
    match answer {
        Ok(()) => print!(rt; " accepted;"),
        Err(CheckError::Wrong(place)) => print!(rt; " wrong {place};"),
        Err(CheckError::Refused(refusal)) => print!(rt; " refused {};", u8::from(refusal)),
        Err(CheckError::Entries) => print!(rt; " refused 12;"),
    }
}

// Writes the bytes to the room, from that place on, as far as there is room, and answers where they end.
// A place beside the room: three parts are put one behind the other.
fn put(room: &mut [u8], start: usize, bytes: &[u8]) -> usize
    requires { start ≤ length room.old }
    ensures { IsPrefixLen result room.new }
{
    let many = bytes.len().min(room.len() - start);
    let end = start + many;
    room[start..end].copy_from_slice(&bytes[..many]);
    end
}

// The list that a section says, with its bytes in the room.
fn one_list<'a>(
    rt: &impl Print,
    f: Family,
    lists: Lists<'a>,
    bytes: &[u8],
    section: &[u8],
    room: &mut [u8],
) -> io::Result<()> {
    let mut numbers = Numbers::of(section);
    let entries = numbers.number();
    let head = within(numbers.number(), bytes);
    let tail = within(numbers.number(), bytes);
    let mut middle = [0u8; MIDDLE];
    let changed = numbers.list(&mut middle);
    let first = put(room, 0, &bytes[..head]);
    let second = put(room, first, &middle[..changed]);
    let end = put(room, second, &bytes[tail..]);
    told(rt, checker::check(f, lists, entries, &room[..end]))
}

// Every section, the next one behind a stroke and one letter more, whatever that is.
fn each_list<'a>(
    rt: &impl Print,
    f: Family,
    lists: Lists<'a>,
    bytes: &[u8],
    sections: &[u8],
) -> io::Result<()> {
    let mut room = [0u8; ROOM];
    let mut rest = sections;
    // No `for`: the letter that is passed over may be a stroke, too.
    while !rest.is_empty() {
        let (section, _) = cut(rest, b'/');
        one_list(rt, f, lists, bytes, section, &mut room)?;
        rest = behind(rest, b'/');
    }
    Ok(())
}

fn one_case(rt: &impl Print, line: &[u8]) -> io::Result<()> {
    let (label, marked) = cut(line, b':');
    text(rt, label)?;
    print!(rt; ":")?;
    let first = behind(marked, b':');
    let second = behind(first, b'/');
    let third = behind(second, b'/');
    let mut counts = [0u8; MOST];
    let lent = Numbers::of(second).list(&mut counts);
    let mut bytes = [0u8; ROOM];
    let given = Numbers::of(third).list(&mut bytes);
    let lists = families::only_counts(&counts[..lent]);
    each_list(
        rt,
        family(first),
        lists,
        &bytes[..given],
        behind(third, b'/'),
    )?;
    println!(rt;)
}

fn main(rt: HostRuntime) -> io::Result<()> {
    each_case(&rt, |line| one_case(&rt, line))
}
