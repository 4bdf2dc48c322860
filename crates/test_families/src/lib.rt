// The family that a section of a case says.
#![tactic(auto)]

use families::Family;
use test_support::Numbers;

// Kind, n, k, floor and edition, as far as the section goes, and 0 for what it doesn't say.
pub fn family(section: &[u8]) -> Family {
    let mut numbers = Numbers::of(section);
    let kind = numbers.number();
    let n = numbers.number();
    let k = numbers.number();
    let floor = numbers.number();
    let edition = numbers.number();
    Family {
        floor,
        edition,
        ..families::plain_family(kind, n, k)
    }
}
