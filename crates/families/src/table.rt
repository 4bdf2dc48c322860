// The table of families in code: bounds, lists, lengths and counts, by kind.
ghost use Rattle.std.specs.Prelude.{◌≡◌, ◌&&◌, ◌||◌, map, ◌^◌, ◌<◌, leb, ltb, eqb, SomeIff};
ghost use Rattle.counting.specs.Answers.{fits as fits_of};
ghost use Rattle.families.specs.Table.{lent};
ghost use Rattle.families.specs.Families.{row, is_kind, in_table, floor_fits, edition_fits, lists_fit, object_length, count_of};
ghost use Rattle.families.specs.Inner.Admissions.{lists_of};
ghost use Rattle.families.specs.Inner.Bounds.{most_n, most_k};
ghost use Rattle.families.specs.Inner.Counts.{below_count};
ghost use Rattle.families.specs.Inner.Kinds.{kind_number};

use crate::admitted::Admitted;
use crate::kind::Kind;
use crate::{Family, Lists, Refusal};
use basics::{BRANCHES, FLOORS, PLACES, sum_to_limit};
use counting::Count;

// The largest n of a kind.
fn most_n(kind: Kind) -> u64
    ensures { result ≡ most_n (kind_number kind) }
{
    match kind {
        Kind::DyckWords => BRANCHES,
        _ => PLACES,
    }
}

// The largest k of a kind; 0 where it has none, since such a k has to be 0: so the limit needs no Option.
fn most_k(kind: Kind) -> u64
    ensures { result ≡ most_k (kind_number kind) }
{
    match kind {
        Kind::Subsets | Kind::SetPartitions | Kind::IntegerPartitions => PLACES,
        _ => 0,
    }
}

// Questions 2, 10, 11 and 3, of a family whose kind is known.

// Question 2. It is put to every call, and goes by two limits rather than by an arm a kind: so the compiler takes the questions into each call.
// The kind stands beside its family, since nothing is admitted yet: a struct for four questions would say no more.
#[tactic(auto, using(crate::proofs::Dispatch::kind_limits))]
pub fn in_table<'a>(kind: Kind, f: Family, lists: Lists<'a>) -> bool
    ensures { f.kind ≡ kind_number kind → result ≡ in_table f (lent (map (λ x. x.now) lists.entry)) }
{
    f.n <= most_n(kind) && f.k <= most_k(kind)
}

// Question 10. Floor 1, which nearly every family has, is tested first.
#[tactic(auto, unfolding(crate::specs::Families::floor_fits))]
pub fn floor_fits(kind: Kind, f: Family) -> bool
    ensures { f.kind ≡ kind_number kind → result ≡ floor_fits f }
{
    f.floor == 1 || matches!(kind, Kind::IntegerPartitions) && 1 <= f.floor && f.floor <= FLOORS
}

// Question 11. Edition 1, which nearly every family has, is tested first.
#[tactic(auto, unfolding(crate::specs::Families::edition_fits))]
pub fn edition_fits(kind: Kind, f: Family) -> bool
    ensures { f.kind ≡ kind_number kind → result ≡ edition_fits f }
{
    f.edition == 1 || matches!(kind, Kind::SetPartitions) && f.edition == 2
}

// Question 3.
pub fn lists_fit<'a>(kind: Kind, f: Family, lists: Lists<'a>) -> bool
    ensures { f.kind ≡ kind_number kind → result ≡ lists_fit f (lent (map (λ x. x.now) lists.entry)) }
{
    let counts = lists[0];
    match kind {
        Kind::Anagrams => counts.len() as u64 == f.n && sum_to_limit(PLACES, counts) <= PLACES,
        _ => counts.is_empty(),
    }
}

// Whether n things can be shared out over k blocks with none left empty; over parts of a floor, k is what they have together at the least.
fn shared_out(n: u64, k: u64) -> bool
    ensures { result ≡ (leb k n && (ltb 0 k || eqb n 0)) }
{
    k <= n && (0 < k || n == 0)
}

// Question 4.
#[tactic(auto, unfolding(crate::specs::Families::row))]
pub fn has_object<'a>(a: Admitted<'a>) -> bool
    ensures { result ≡ (row a.entry.family.now (lists_of a.entry)).has_object }
{
    let n = a.family.n;
    let k = a.family.k;
    match a.kind() {
        Kind::Subsets => k <= n,
        Kind::SetPartitions => shared_out(n, k),
        Kind::IntegerPartitions => shared_out(n, k * a.family.floor),
        Kind::Derangements => n != 1,
        Kind::Anagrams | Kind::Permutations | Kind::DyckWords => true,
    }
}

// The length of the family's objects.
#[tactic(auto, unfolding(crate::specs::Families::object_length, crate::specs::Families::row))]
pub fn object_length<'a>(a: Admitted<'a>) -> u64
    ensures { result ≡ object_length a.entry.family.now (lists_of a.entry) }
{
    let counts = a.lists[0];
    match a.kind() {
        Kind::Subsets | Kind::IntegerPartitions => a.family.k,
        Kind::Anagrams => sum_to_limit(PLACES, counts),
        Kind::Permutations | Kind::SetPartitions | Kind::Derangements => a.family.n,
        Kind::DyckWords => 2 * a.family.n,
    }
}

// The count as the crate `counting` answers it: exact or too large.
fn counted<'a>(a: Admitted<'a>) -> Count
    ensures { result ≡ fits_of (count_of a.entry.family.now (lists_of a.entry)) }
{
    let counts = a.lists[0];
    let n = a.family.n;
    let k = a.family.k;
    match a.kind() {
        Kind::Subsets => counting::coefficient(n, k),
        Kind::Anagrams => counting::multinomial(counts),
        Kind::Permutations => counting::factorial(n),
        Kind::SetPartitions => counting::stirling(n, k),
        Kind::IntegerPartitions => counting::partitions(a.family.floor, n, k),
        Kind::DyckWords => counting::catalan(n),
        Kind::Derangements => counting::derangement(n),
    }
}

// The count, if it is below 2^64. An Option is handed back in registers, and an answer of `counting`, whose error is an enum, through memory.
#[tactic(auto, unfolding(counting::specs::Answers::fits))]
fn count<'a>(a: Admitted<'a>) -> Option<u64>
    ensures { let count = count_of a.entry.family.now (lists_of a.entry) in SomeIff result (count < 2 ^ 64) count }
{
    counted(a).ok()
}

// The count as COUNT answers it: of subsets from the table of constants, which every other call does without.
#[tactic(auto, unfolding(counting::specs::Answers::fits))]
pub fn answer<'a>(a: Admitted<'a>) -> Option<u64>
    ensures { let count = count_of a.entry.family.now (lists_of a.entry) in SomeIff result (count < 2 ^ 64) count }
{
    match a.kind() {
        Kind::Subsets => counting::subset_count(a.family.n, a.family.k).ok(),
        _ => count(a),
    }
}

// Question 5. For a Stirling number its place in the triangle tells: to work the number out would take as long as a rank. A RANK that this is taken into is some
// 20 instructions shorter.
#[inline]
pub fn count_fits<'a>(a: Admitted<'a>) -> bool
    ensures { result ≡ ltb (count_of a.entry.family.now (lists_of a.entry)) (2 ^ 64) }
{
    if let Kind::SetPartitions = a.kind() {
        return stirlings::stirling_fits(a.family.n, a.family.k);
    }
    count(a).is_some()
}

// Question 8, unless question 5 refuses. Rank 0 is below the count where the family has an object.
#[tactic(auto, using(crate::proofs::FamilyFacts::has_object_lem))]
pub fn is_below_count<'a>(rank: u64, a: Admitted<'a>) -> Result<bool, Refusal>
    ensures { result ≡ below_count rank (count_of a.entry.family.now (lists_of a.entry)) }
{
    if rank == 0 {
        return if count_fits(a) {
            Ok(has_object(a))
        } else {
            Err(Refusal::TooMany)
        };
    }
    let count = count(a).ok_or(Refusal::TooMany)?;
    Ok(rank < count)
}
