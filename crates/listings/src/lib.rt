// What every kind of family shares in code: the answer of a step, the parts of an object that start over, and whether two objects are the same.
#![tactic(auto)]

ghost use Rattle.std.specs.Prelude.{◌≡◌, ◌+◌, ◌≤◌, length, take};
ghost use Rattle.basics.specs.Limits.{longest_object};
ghost use Rattle.basics.specs.Sums.{range};
ghost use Rattle.listings.specs.Bytes.{same as same_bytes};

use basics::LONGEST_OBJECT;

// What NEXT and PREVIOUS answer: the object was replaced by its neighbour, or there is none and no byte changed.
// An enum of its own, and no Option of nothing: END is an answer, which paper 01 names.
#[derive(Clone, Copy, Debug, PartialEq, Eq)]
pub enum Step {
    Moved,
    End,
}

// Writes from, from + 1, .. into all of the part.
// No `fill`: each byte is another.
#[tactic(auto, using(basics::proofs::Ranges::range_snoc, std::proofs::lemmas::Grind::common_steps), unfolding(basics::specs::Sums::range))]
pub fn fill_up(part: &mut [u8], from: u8)
    requires { from + length part.old ≤ 256 }
    ensures { part.new ≡ range from (length part.old) }
{
    for (i, place) in part.iter_mut().enumerate() {
        *place = from + i as u8;
    }
}

// Are two slices of one length the same?
// `==`, under the name that the definitions have.
#[tactic(auto, using(crate::proofs::SameBytes::same_is_pointwise))]
pub fn same(x: &[u8], y: &[u8]) -> bool
    requires { length x.now ≡ length y.now }
    ensures { result ≡ same_bytes x.now y.now }
{
    x == y
}

// The bytes again, in an array with room for any object.
// An array and no Vec: nothing in the library takes memory.
pub fn copied(bytes: &[u8]) -> [u8; LONGEST_OBJECT]
    requires { length bytes.now ≤ longest_object }
    ensures { (longest_object ≡ length result) × (take (length bytes.now) result ≡ bytes.now) }
{
    let mut space = [0u8; LONGEST_OBJECT];
    space[..bytes.len()].copy_from_slice(bytes);
    space
}
