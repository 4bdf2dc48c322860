// What each call does to an object of a family whose questions have passed: handed to the kind.
ghost use Rattle.std.specs.Prelude.{◌≡◌, true, ◌<◌, ◌^◌, length};
ghost use Rattle.listings.specs.Calls.{NEXT, PREVIOUS, Said, act};
ghost use Rattle.listings.specs.Places.{At, First, Last};
ghost use Rattle.listings.specs.Steps.{step_as};
ghost use Rattle.families.specs.Families.{object_length, is_object, comes_before, listing, count_of, rank_of};
ghost use Rattle.families.specs.Inner.Admissions.{lists_of};

use crate::admitted::Admitted;
use crate::kind::Kind;
use anagrams::permutations;
use listings::Step;

// Question 7.
pub fn is_object<'a>(a: Admitted<'a>, object: &[u8]) -> bool
    ensures { result ≡ is_object a.entry.family.now (lists_of a.entry) object.now }
{
    let counts = a.lists[0];
    let n = a.family.n;
    let k = a.family.k;
    let floor = a.family.floor;
    match a.kind() {
        Kind::Subsets => subsets::is_object(n, k, object),
        Kind::Anagrams => anagrams::is_object(counts, object),
        Kind::Permutations => permutations::is_object(n as usize, object),
        Kind::SetPartitions => set_partitions::is_object(n, k, object),
        Kind::IntegerPartitions => integer_partitions::is_object(floor, n, k, object),
        Kind::DyckWords => dyck_words::is_object(n, object),
        Kind::Derangements => derangements::is_object(n, object),
    }
}

// Each direction keeps its arms: a closure a kind would be longer than an arm a kind. The edition goes on as the family's number, which the definitions take.
pub fn first<'a>(a: Admitted<'a>, object: &mut [u8])
    requires nonzero { 0 < count_of a.family.now (lists_of a) }
    requires object_len { length object.old ≡ object_length a.family.now (lists_of a) }
    ensures { First (listing a.entry.family.now (lists_of a.entry)) object.new }
{
    let counts = a.lists[0];
    let n = a.family.n;
    let k = a.family.k;
    let floor = a.family.floor;
    let edition = a.family.edition;
    match a.kind() {
        Kind::Subsets => subsets::first(n, object),
        Kind::Anagrams => anagrams::first(counts, object),
        Kind::Permutations => permutations::first(object),
        Kind::SetPartitions => set_partitions::first(edition, k, object),
        Kind::IntegerPartitions => integer_partitions::first(floor, n, object),
        Kind::DyckWords => dyck_words::first(n, object),
        Kind::Derangements => derangements::first(object),
    }
}

pub fn last<'a>(a: Admitted<'a>, object: &mut [u8])
    requires nonzero { 0 < count_of a.family.now (lists_of a) }
    requires object_len { length object.old ≡ object_length a.family.now (lists_of a) }
    ensures { Last (listing a.entry.family.now (lists_of a.entry)) object.new }
{
    let counts = a.lists[0];
    let n = a.family.n;
    let k = a.family.k;
    let floor = a.family.floor;
    let edition = a.family.edition;
    match a.kind() {
        Kind::Subsets => subsets::last(n, object),
        Kind::Anagrams => anagrams::last(counts, object),
        Kind::Permutations => permutations::last(object),
        Kind::SetPartitions => set_partitions::last(edition, k, object),
        Kind::IntegerPartitions => integer_partitions::last(floor, n, object),
        Kind::DyckWords => dyck_words::last(n, object),
        Kind::Derangements => derangements::last(object),
    }
}

pub fn next<'a>(a: Admitted<'a>, object: &mut [u8]) -> Step
    requires { is_object a.family.now (lists_of a) object.old ≡ true }
    ensures { ◌≡◌ {A = Said} (step_as result, object.new) (act NEXT (comes_before a.entry.family.now (lists_of a.entry)) (listing a.entry.family.now (lists_of a.entry)) object.old) }
{
    let n = a.family.n;
    let k = a.family.k;
    let floor = a.family.floor;
    let edition = a.family.edition;
    match a.kind() {
        Kind::Subsets => subsets::next(n, object),
        Kind::Anagrams | Kind::Permutations => anagrams::next(object),
        Kind::SetPartitions => set_partitions::next(edition, k, object),
        Kind::IntegerPartitions => integer_partitions::next(floor, n, object),
        Kind::DyckWords => dyck_words::next(n, object),
        Kind::Derangements => derangements::next(object),
    }
}

pub fn previous<'a>(a: Admitted<'a>, object: &mut [u8]) -> Step
    requires { is_object a.family.now (lists_of a) object.old ≡ true }
    ensures { ◌≡◌ {A = Said} (step_as result, object.new) (act PREVIOUS (comes_before a.entry.family.now (lists_of a.entry)) (listing a.entry.family.now (lists_of a.entry)) object.old) }
{
    let n = a.family.n;
    let k = a.family.k;
    let floor = a.family.floor;
    let edition = a.family.edition;
    match a.kind() {
        Kind::Subsets => subsets::previous(n, object),
        Kind::Anagrams | Kind::Permutations => anagrams::previous(object),
        Kind::SetPartitions => set_partitions::previous(edition, k, object),
        Kind::IntegerPartitions => integer_partitions::previous(floor, n, object),
        Kind::DyckWords => dyck_words::previous(n, object),
        Kind::Derangements => derangements::previous(object),
    }
}

pub fn rank<'a>(a: Admitted<'a>, object: &[u8]) -> u64
    requires object_value { is_object a.family.now (lists_of a) object.now ≡ true }
    requires lists_bound { count_of a.family.now (lists_of a) < 2 ^ 64 }
    ensures { result ≡ rank_of a.entry.family.now (lists_of a.entry) object.now }
{
    let counts = a.lists[0];
    let n = a.family.n;
    let k = a.family.k;
    let floor = a.family.floor;
    let edition = a.family.edition;
    match a.kind() {
        Kind::Subsets => subsets::rank(n, object),
        Kind::Anagrams => anagram_ranks::rank(counts, object),
        Kind::Permutations => anagram_ranks::permutations::rank(object),
        Kind::SetPartitions => set_partition_ranks::rank(edition, k, object),
        Kind::IntegerPartitions => integer_partitions::rank(floor, n, object),
        Kind::DyckWords => dyck_ranks::rank(n, object),
        Kind::Derangements => derangement_ranks::rank(object),
    }
}

pub fn unrank<'a>(rank: u64, a: Admitted<'a>, object: &mut [u8])
    requires lists_bound { count_of a.family.now (lists_of a) < 2 ^ 64 }
    requires object_len { length object.old ≡ object_length a.family.now (lists_of a) }
    requires rank_bound { rank < count_of a.family.now (lists_of a) }
    ensures { At (listing a.entry.family.now (lists_of a.entry)) object.new rank }
{
    let counts = a.lists[0];
    let n = a.family.n;
    let k = a.family.k;
    let floor = a.family.floor;
    let edition = a.family.edition;
    match a.kind() {
        Kind::Subsets => subsets::unrank(rank, n, object),
        Kind::Anagrams => anagram_ranks::unrank(rank, counts, object),
        Kind::Permutations => anagram_ranks::permutations::unrank(rank, object),
        Kind::SetPartitions => set_partition_ranks::unrank(rank, edition, k, object),
        Kind::IntegerPartitions => integer_partitions::unrank(rank, floor, n, object),
        Kind::DyckWords => dyck_ranks::unrank(rank, n, object),
        Kind::Derangements => derangement_ranks::unrank(rank, object),
    }
}
