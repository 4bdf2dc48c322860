// What a call that is refused hands back: the first of its questions that is answered by no.
ghost use Rattle.std.specs.Prelude.{◌≡◌};
ghost use Rattle.families.specs.Answers.{number_of};

// The question, by the number that it has. 9 is the program's, and 12 a check's.
#[derive(Clone, Copy, Debug, PartialEq, Eq)]
pub enum Refusal {
    // "Is the kind 1 to 7?"
    Kind = 1,
    // "Are n and k as the kind's row says?"
    Sizes = 2,
    // "For kind 2, is the list of letter counts exactly n long, with a sum of at most 80? For every other kind, is it empty?"
    Counts = 3,
    // "Has the family an object?"
    NoObject = 4,
    // "Is the count below 2^64?"
    TooMany = 5,
    // "Has the lent buffer exactly the length of the family's objects?"
    Length = 6,
    // "Does the buffer hold an object of the family?"
    NotAnObject = 7,
    // "Is the rank below the count?"
    Rank = 8,
    // "Is the floor 1 to 80, and 1 for every kind but 5?"
    Floor = 10,
    // "Is the edition 1 or 2, and 1 for every kind but 4?"
    Edition = 11,
}

impl From<Refusal> for u8 {
    ghost from_gives = { λ q n. n ≡ number_of q };

    fn from(q: Refusal) -> u8 {
        q as u8
    }
}
