// Checking a list of objects against the listing: accepted, or a place that is wrong. No public function has a `requires`: any family, lists, number of
// entries and bytes are answered. It reads the entries once, beside one object that NEXT takes along, and counts nothing but entries.
#![tactic(auto)]

ghost use Rattle.std.specs.Prelude.{◌≡◌, cond, eqb, map, ◌*◌, length};
ghost use Rattle.std.proofs.Math.Option.{none, some};
ghost use Rattle.listings.specs.Calls.{MEASURED};
ghost use Rattle.listings.specs.Places.{First};
ghost use Rattle.families.specs.Table.{lent};
ghost use Rattle.families.specs.Families.{listing};
ghost use Rattle.families.specs.Calls.{measured};
ghost use Rattle.checker.specs.Checking.{cut_into, Says};
ghost use Rattle.checker.specs.Inner.Differences.{first_wrong, difference_as};
ghost use Rattle.checker.specs.declared.CheckError.TheVariants.{Refused};

use basics::LONGEST_OBJECT;
use families::{Family, Lists, Refusal};
use listings::Step;

// Why a check doesn't accept the entries.
#[derive(Clone, Copy, Debug, PartialEq, Eq)]
pub enum CheckError {
    // A place that is wrong, from 0.
    Wrong(u64),
    // "Is the byte length exactly the entries times the object length?" is answered by no. It is question 12, which a check alone puts.
    Entries,
    // A question about the family is missed.
    Refused(Refusal),
}

impl From<Refusal> for CheckError {
    ghost from_gives = { λ q e. e ≡ Refused q };

    fn from(refusal: Refusal) -> CheckError {
        CheckError::Refused(refusal)
    }
}

// Behind the last object the entries have to end: the place is wrong if there is one more.
fn behind_last(place: u64, entries: u64) -> Option<u64>
    ensures { difference_as result ≡ cond (eqb place entries) none (some place) }
{
    (place != entries).then_some(place)
}

// The entries one after the other against the listing, whose first object stands in the buffer. NEXT goes on from entry to entry; where it ends, the
// entries have to. The first place at which they differ, if there is one.
fn compare<'a>(
    f: Family,
    lists: Lists<'a>,
    entries: u64,
    bytes: &[u8],
    object: &mut [u8],
) -> Option<u64>
    requires first { First (listing f (lent (map (λ x. x.now) lists))) object.old }
    requires bytes_len { length bytes.now ≡ entries * length object.old }
    ensures { difference_as result ≡ first_wrong (listing f (lent (map (λ x. x.now) lists.entry))) (cut_into entries (length object.old) bytes.now) }
{
    let mut rest = bytes;
    for place in 0..entries {
        let (entry, behind) = rest.split_at(object.len());
        if !listings::same(entry, object) {
            return Some(place);
        }
        rest = behind;
        match families::next(f, lists, object) {
            Ok(Step::Moved) => {}
            Ok(Step::End) => return behind_last(place + 1, entries),
            Err(_) => return behind_last(place + 1, entries),
        }
    }
    Some(entries)
}

// From the first object on: question 12, and then the entries.
#[tactic(auto, using(crate::proofs::Answering::no_product, crate::proofs::Answering::accepted, crate::proofs::Answering::wrong))]
fn check_from<'a>(
    f: Family,
    lists: Lists<'a>,
    entries: u64,
    bytes: &[u8],
    object: &mut [u8],
) -> Result<(), CheckError>
    requires { First (listing f (lent (map (λ x. x.now) lists))) object.old }
    ensures { Says f (lent (map (λ x. x.now) lists.entry)) entries bytes.now result }
{
    if !basics::is_product(bytes.len(), entries as usize, object.len()) {
        return Err(CheckError::Entries);
    }
    match compare(f, lists, entries, bytes, object) {
        None => Ok(()),
        Some(place) => Err(CheckError::Wrong(place)),
    }
}

// With a buffer of an object's length, into which FIRST writes; what FIRST is refused by then is question 4.
#[tactic(auto, using(crate::proofs::Answering::no_first, families::proofs::Going::starts))]
fn check_in<'a>(
    f: Family,
    lists: Lists<'a>,
    entries: u64,
    bytes: &[u8],
    object: &mut [u8],
) -> Result<(), CheckError>
    requires { MEASURED (length object.old) ≡ measured f (lent (map (λ x. x.now) lists)) }
    ensures { Says f (lent (map (λ x. x.now) lists.entry)) entries bytes.now result }
{
    families::first(f, lists, object)?;
    check_from(f, lists, entries, bytes, object)
}

// With objects of a length that is known: the room for one of them is all that a check needs.
fn check_long<'a>(
    long: u64,
    f: Family,
    lists: Lists<'a>,
    entries: u64,
    bytes: &[u8],
) -> Result<(), CheckError>
    requires { MEASURED long ≡ measured f (lent (map (λ x. x.now) lists)) }
    ensures { Says f (lent (map (λ x. x.now) lists.entry)) entries bytes.now result }
{
    let mut space = [0u8; LONGEST_OBJECT];
    check_in(f, lists, entries, bytes, &mut space[..long as usize])
}

// A check of so many entries, which lie in the bytes one behind the other: accepted where they are the family's listing.
#[tactic(auto, using(crate::proofs::Answering::no_length))]
pub fn check<'a>(f: Family, lists: Lists<'a>, entries: u64, bytes: &[u8]) -> Result<(), CheckError>
    ensures { Says f (lent (map (λ x. x.now) lists.entry)) entries bytes.now result }
{
    let long = families::object_length(f, lists)?;
    check_long(long, f, lists, entries, bytes)
}
