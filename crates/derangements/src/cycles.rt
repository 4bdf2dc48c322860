// A derangement in a slice taken apart, in place, into its key and the derangement left, which then stands in front; and put together again. With n
// places and c the last number, the key is c where n is cut out of its cycle, and n - 1 + c where c and n make a cycle of two. It is a number, and no enum of
// the two cases, since the listing goes by it: the key beside it is one more or less. The places are a plain slice, and each function asks for their bounds:
// in a struct round the reference `object.old` and `object.new` would be `self.entry.bytes.now` and `self.exit.0.now`, and each would promise the length too.
ghost use Rattle.std.specs.Prelude.{◌≡◌, true, ℕ, ◌-◌, ◌≤◌, ◌<◌, length, take, get_or};
ghost use Rattle.basics.specs.Limits.{places};
ghost use Rattle.derangements.specs.Cycles.{unpair};
ghost use Rattle.derangements.specs.Objects.{is_derangement};
ghost use Rattle.derangements.specs.Listing.{pair, join};
ghost use Rattle.derangements.specs.Inner.Keys.{left_of, Keyed, TakenApart};

use crate::labels::{lowered, raised};

// How many places are left with a key.
#[tactic(auto, unfolding(crate::specs::Inner::Keys::left_of))]
pub fn left_of(n: usize, key: u8) -> usize
    requires { 2 ≤ n }
    ensures { result ≡ left_of n key }
{
    if (key as usize) < n { n - 1 } else { n - 2 }
}

// The place of a number that stands in the slice.
fn place_of(number: u8, object: &[u8]) -> usize
    requires { (i : ℕ) × (i < length object.now) × (get_or object.now i 0 ≡ number) }
    ensures { (result < length object.now) × (get_or object.now result 0 ≡ number) }
{
    // The number is there, so nothing tests for the end: this takes three instructions a byte, `position` or a `for` five, and a step up to half as many more,
    // where 5 percent is the bar.
    let mut i = 0;
    while object[i] != number {
        i += 1;
    }
    i
}

// Removes c and n: the places behind c move down by one, and then the labels above c.
#[tactic(auto, using(crate::proofs::Gaps::mapped_more))]
fn drop_pair(c: u8, object: &mut [u8])
    requires in_bounds { (2 ≤ length object.old) × (length object.old ≤ places) }
    requires le_c { (1 ≤ c) × (c < length object.old) }
    requires c_value { c ≡ get_or object.old (length object.old - 1) 0 }
    ensures { take (length object.old - 2) object.new ≡ unpair (length object.old) object.old }
{
    let left = object.len() - 2;
    object.copy_within(c as usize..left + 1, c as usize - 1);
    for label in &mut object[..left] {
        *label = lowered(c, *label);
    }
}

// Puts c and n back: the labels from c on move up by one, and then the places.
#[tactic(auto, using(crate::proofs::Gaps::mapped_more))]
fn add_pair(c: u8, object: &mut [u8])
    requires in_bounds { (2 ≤ length object.old) × (length object.old ≤ places) }
    requires le_c { (1 ≤ c) × (c < length object.old) }
    requires object_value { is_derangement (length object.old - 2) (take (length object.old - 2) object.old) ≡ true }
    ensures { object.new ≡ pair (length object.old) c (take (length object.old - 2) object.old) }
{
    let left = object.len() - 2;
    let at = c as usize - 1;
    for label in &mut object[..left] {
        *label = raised(c, *label);
    }

    // Within a part, from place 0 to 1, the compiler makes one move of it; between places of the whole it took up to a third more instructions.
    object[at..left + 1].copy_within(..left - at, 1);
    object[at] = (left + 2) as u8;
    object[left + 1] = c;
}

// The key; what is left stands in front.
#[tactic(auto, using(crate::proofs::InPlace::last_value))]
pub fn take_apart(object: &mut [u8]) -> u8
    requires in_bounds { (2 ≤ length object.old) × (length object.old ≤ places) }
    requires object_value { is_derangement (length object.old) object.old ≡ true }
    ensures { TakenApart (length object.old) object.old result object.new }
{
    let end = object.len() - 1;
    let n = object.len() as u8;
    let c = object[end];
    if object[c as usize - 1] == n {
        drop_pair(c, object);
        return n - 1 + c;
    }
    let at = place_of(n, &object[..end]);
    object[at] = c;
    c
}

// The derangement of a key and of the one that stands in front.
pub fn put_together(key: u8, object: &mut [u8])
    requires in_bounds { (2 ≤ length object.old) × (length object.old ≤ places) }
    requires keyed { Keyed (length object.old) key object.old }
    ensures { object.new ≡ join (length object.old) key (take (left_of (length object.old) key) object.old) }
{
    let end = object.len() - 1;
    let n = object.len() as u8;
    if n <= key {
        add_pair(key - (n - 1), object);
        return;
    }
    let at = place_of(key, &object[..end]);
    object[at] = n;
    object[end] = key;
}
