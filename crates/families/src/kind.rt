// The kinds of families, by the number that a family says.
ghost use Rattle.std.specs.Prelude.{◌≡◌, ◌&&◌, false, leb, MatchResult};
ghost use Rattle.families.specs.Table.{last_kind};
ghost use Rattle.families.specs.Inner.Kinds.{kind_number};

use crate::Refusal;

#[derive(Clone, Copy, Debug, PartialEq, Eq)]
pub enum Kind {
    Subsets = 1,
    Anagrams,
    Permutations,
    SetPartitions,
    IntegerPartitions,
    DyckWords,
    Derangements,
}

// The kinds in the order of their numbers, from 1 on. A kind is read here and not matched, since the compiler takes such a match apart into the tests of the kind that
// follow: every call is then some 15 instructions longer.
pub static KINDS: [Kind; 7] = [
    Kind::Subsets,
    Kind::Anagrams,
    Kind::Permutations,
    Kind::SetPartitions,
    Kind::IntegerPartitions,
    Kind::DyckWords,
    Kind::Derangements,
];

// Question 1.
impl TryFrom<u64> for Kind {
    ghost use Rattle.families.specs.declared.refusal.Refusal.{Refusal};

    type Error = Refusal;

    ghost try_from_gives = { λ number r. MatchResult r (λ kind. number ≡ kind_number kind) (λ q. (q ≡ Refusal.Kind) × ((leb 1 number && leb number last_kind) ≡ false)) };

    fn try_from(number: u64) -> Result<Kind, Refusal> {
        match number {
            1..=7 => Ok(KINDS[number as usize - 1]),
            _ => Err(Refusal::Kind),
        }
    }
}
