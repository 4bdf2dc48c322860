// The keys of set partitions, read from the blocks.
ghost use Rattle.std.specs.Prelude.{◌≡◌, cond, ◌≤◌, ltb, length, take};
ghost use Rattle.basics.specs.Limits.{longest_object};
ghost use Rattle.set_partitions.specs.Objects.{keys as keys_in};

use basics::LONGEST_OBJECT;

// The key of a model in block b, behind models in the blocks 1 to `used`.
fn key_of(used: u8, b: u8) -> u8
    ensures { result ≡ cond (ltb used b) 0 b }
{
    if used < b { 0 } else { b }
}

// The key of each model. Blocks are numbered by their smallest models, so a model is the smallest of its block just if its block is above all
// in front: one pass tells them all.
#[tactic(auto, using(crate::proofs::KeyReading::key_stored, crate::proofs::KeyReading::all_stored))]
pub fn keys_of(object: &[u8]) -> [u8; LONGEST_OBJECT]
    requires { length object.now ≤ longest_object }
    ensures { (longest_object ≡ length result) × (take (length object.now) result ≡ keys_in 0 object.now) }
{
    let mut keys = [0u8; LONGEST_OBJECT];
    let mut used: u8 = 0;
    for (i, block) in object.iter().enumerate() {
        keys[i] = key_of(used, *block);
        // Not by `max`: so one comparison serves both, and no branch is left.
        if used < *block {
            used = *block;
        }
    }
    keys
}
