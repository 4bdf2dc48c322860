// The editions of the order, in code the two cases that the definitions go by.
ghost use Rattle.std.specs.Prelude.{◌≡◌};
ghost use Rattle.set_partitions.specs.KeyOrder.{edition_of};

// "A family says edition 1 or 2".
#[derive(Clone, Copy)]
pub enum Edition {
    One,
    Two,
}

// A number that isn't 2 is read as 1: of no other is there a family.
impl From<u64> for Edition {
    ghost from_gives = { λ number edition. edition ≡ edition_of number };

    #[tactic(auto, unfolding(crate::specs::KeyOrder::edition_of))]
    fn from(number: u64) -> Self {
        if number == 2 {
            Edition::Two
        } else {
            Edition::One
        }
    }
}
