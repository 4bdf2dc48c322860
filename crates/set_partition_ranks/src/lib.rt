// Ranks of kind 4, partitions of n models into k blocks: the rank of a partition, and the partition of a rank, in the order of either edition. Called by
// `families`, which shows what each function requires.
#![tactic(auto)]

ghost use Rattle.std.specs.Prelude.{◌≡◌, true, ◌≤◌, ◌<◌, ◌^◌, length, take};
ghost use Rattle.basics.specs.Limits.{places, longest_object};
ghost use Rattle.basics.specs.Sums.{range};
ghost use Rattle.numbers.specs.Numbers.{stirling_of};
ghost use Rattle.listings.specs.Bytes.{Bytes};
ghost use Rattle.listings.specs.Places.{At, count_before};
ghost use Rattle.set_partitions.specs.KeyOrder.{edition_of};
ghost use Rattle.set_partitions.specs.Objects.{is_set_partition, keys as keys_in, set_partition_before};
ghost use Rattle.set_partitions.specs.Listing.{set_partitions};
ghost use Rattle.set_partition_ranks.specs.Inner.Ranks.{Written, KeysOf};

mod keys;
mod last_key;
mod size;
mod sources;

use basics::LONGEST_OBJECT;
use keys::keys_of;
use listings::fill_up;
use set_partitions::Edition;
use size::Size;
use sources::{Band, Source, Stored};
use stirling_rows::LAST_ROW;
use stirlings::CAPACITY;

// So few models have their numbers stored.
const FEW: usize = LAST_ROW as usize;

// By the keys of the models: through the rank of the partition left when the last of them is taken out. With as many blocks as models there is one
// partition.
fn rank_of<S: Source>(
    edition: Edition,
    size: Size,
    keys: &[u8; LONGEST_OBJECT],
    source: S,
    at: usize,
) -> u64
    requires keys_of { KeysOf size.n size.k (take size.n keys.now) }
    requires reaches { S.reaches source at size.n size.k }
    ensures { (x : Bytes) → is_set_partition size.n size.k x ≡ true → take size.n keys.now ≡ keys_in 0 x → result ≡ count_before (set_partition_before edition) x (set_partitions edition size.n size.k) }
{
    if size.n as u64 <= size.k {
        return 0;
    }
    let key = u64::from(keys[size.n - 1]);
    let split = source.split(at, size);
    let before = split.earlier(edition, size.k, key);
    before
        + rank_of(
            edition,
            size.others(key),
            keys,
            source,
            split.others_at(at, key),
        )
}

// The same of many models. Apart, so that no room for a band is made where models are few.
#[inline(never)]
#[tactic(auto, using(crate::proofs::Ranks::few_blocks))]
fn rank_of_many(edition: Edition, size: Size, keys: &[u8; LONGEST_OBJECT]) -> u64
    requires { KeysOf size.n size.k (take size.n keys.now) }
    ensures { (x : Bytes) → is_set_partition size.n size.k x ≡ true → take size.n keys.now ≡ keys_in 0 x → result ≡ count_before (set_partition_before edition) x (set_partitions edition size.n size.k) }
{
    let mut numbers = [1u64; CAPACITY];
    let band = Band::of(&mut numbers, size);
    rank_of(edition, size, keys, band, band.place_of(size))
}

// How many partitions come before it, by its keys.
// The edition stays a number, as in the calls of `set_partitions`.
pub fn rank(edition: u64, k: u64, object: &[u8]) -> u64
    requires object_len_bound { length object.now ≤ places }
    requires object_value { is_set_partition (length object.now) k object.now ≡ true }
    requires k_bound { stirling_of (length object.now) k < 2 ^ 64 }
    ensures { result ≡ count_before (set_partition_before (edition_of edition)) object.now (set_partitions (edition_of edition) (length object.now) k) }
{
    let edition = Edition::from(edition);
    let keys = keys_of(object);
    let n = object.len();
    let size = Size { n, k };
    if n <= FEW {
        return rank_of(edition, size, &keys, Stored, 0);
    }
    rank_of_many(edition, size, &keys)
}

// The partition of a rank: the key of the last model, and the partition of the others. The places have each model in a block of its own, as is right
// where there are as many blocks as models.
fn write<S: Source>(
    edition: Edition,
    rank: u64,
    size: Size,
    blocks: &mut [u8; LONGEST_OBJECT],
    source: S,
    at: usize,
)
    requires rank_bound { rank < stirling_of size.n size.k }
    requires blocks_value { take size.n blocks.old ≡ range 1 size.n }
    requires reaches { S.reaches source at size.n size.k }
    ensures { Written edition rank size.n size.k blocks.old blocks.new }
{
    if size.n as u64 <= size.k {
        return;
    }
    let split = source.split(at, size);
    let last = split.place_at(edition, size.k, rank);
    blocks[size.n - 1] = size.block_of(last.key);
    write(
        edition,
        last.rank,
        size.others(last.key),
        blocks,
        source,
        split.others_at(at, last.key),
    );
}

// The same of many models, apart as for their rank.
#[inline(never)]
fn write_many(edition: Edition, rank: u64, size: Size, blocks: &mut [u8; LONGEST_OBJECT])
    requires rank_bound { rank < stirling_of size.n size.k }
    requires blocks_value { take size.n blocks.old ≡ range 1 size.n }
    ensures { Written edition rank size.n size.k blocks.old blocks.new }
{
    let mut numbers = [1u64; CAPACITY];
    let band = Band::of(&mut numbers, size);
    write(edition, rank, size, blocks, band, band.place_of(size));
}

// Each model in a block of its own.
fn each_alone() -> [u8; LONGEST_OBJECT]
    ensures { result ≡ range 1 longest_object }
{
    let mut blocks = [0u8; LONGEST_OBJECT];
    fill_up(&mut blocks, 1);
    blocks
}

// The object of a rank.
#[tactic(auto, using(basics::proofs::Ranges::take_range))]
pub fn unrank(rank: u64, edition: u64, k: u64, object: &mut [u8])
    requires object_len_bound { length object.old ≤ places }
    requires k_bound { stirling_of (length object.old) k < 2 ^ 64 }
    requires rank_bound { rank < stirling_of (length object.old) k }
    ensures { At (set_partitions (edition_of edition) (length object.old) k) object.new rank }
{
    let edition = Edition::from(edition);
    let n = object.len();
    let size = Size { n, k };
    let mut blocks = each_alone();
    if n <= FEW {
        write(edition, rank, size, &mut blocks, Stored, 0);
    } else {
        write_many(edition, rank, size, &mut blocks);
    }
    object.copy_from_slice(&blocks[..n]);
}
